// Refusals 11 and 17: in what a file is no reel. Document 01, "The reel".
ghost use Rattle.std.specs.Prelude.{◌+◌, ◌*◌, ◌≤◌, ◌<◌, length, IfSome};

use std::io::Print;
use words::{many, phrase, say};

// An offset of a reel, from 0: behind those of its blocks stands its end.
fn offset(reel: &[u8], i: usize) -> usize
    requires { 4 * i + 8 ≤ length reel.now }
{
    pieces::word(reel, 4 * i + 4)
}

// The first offset, behind that of the first block, that is not greater than the one before it.
fn first_fallen(reel: &[u8], count: usize) -> Option<usize>
    requires { 4 * count + 8 ≤ length reel.now }
    ensures { IfSome result (λ i. (0 < i) × (i ≤ count)) }
{
    for i in 1..count + 1 {
        if offset(reel, i) <= offset(reel, i - 1) {
            return Some(i);
        }
    }
    None
}

// Says an offset by its block, or as the last one.
fn say_offset(to: &impl Print, reel: &[u8], count: usize, i: usize)
    requires { 4 * i + 8 ≤ length reel.now }
{
    let offset = offset(reel, i);
    if i >= count {
        phrase(
            to,
            format_args!("the last offset, the reel's end, is {offset}"),
        );
    } else {
        phrase(
            to,
            format_args!("the offset of block {} is {offset}", i + 1),
        );
    }
}

// Says an offset that is not greater than the one before it, which is that of a block.
fn say_fallen(to: &impl Print, reel: &[u8], count: usize, i: usize)
    requires low { 0 < i }
    requires held { 4 * i + 8 ≤ length reel.now }
{
    say_offset(to, reel, count, i);
    let before = offset(reel, i - 1);
    phrase(
        to,
        format_args!(", not greater than that of block {i}, {before}"),
    );
}

// Says what is wrong with the offsets of so many blocks, which are all there.
fn offsets(to: &impl Print, reel: &[u8], count: usize)
    requires { 4 * count + 8 ≤ length reel.now }
{
    let first = offset(reel, 0);
    let behind = 4 * count + 8;
    if first != behind {
        phrase(to, format_args!("the first offset is {first}, and with "));
        many(to, count, b"block");
        phrase(to, format_args!(" it has to be {behind}"));
    } else if let Some(fallen) = first_fallen(reel, count) {
        say_fallen(to, reel, count, fallen);
    } else {
        say_offset(to, reel, count, count);
        phrase(to, ", and the file has ");
        many(to, reel.len(), b"byte");
    }
}

// Says what is wrong with a file of 8 bytes or more. The count may be any 32-bit number: it is compared before it is multiplied.
fn counted(to: &impl Print, reel: &[u8])
    requires { 8 ≤ length reel.now }
{
    let count = pieces::word(reel, 0);
    let end = reel.len();
    if count <= (end - 8) / 4 {
        offsets(to, reel, count);
        return;
    }
    let needed = 4 * count + 8;
    phrase(to, "its block count says ");
    many(to, count, b"block");
    phrase(
        to,
        format_args!(", for whose offsets {needed} bytes are needed, and it has {end}"),
    );
}

// Says the first thing by which a file of this name is no reel.
pub fn no_reel(to: &impl Print, name: &[u8], reel: &[u8]) {
    phrase(to, ": ");
    say(to, name);
    phrase(to, " is no reel: ");
    let end = reel.len();
    if end > 65536 {
        phrase(to, "it has more than 65,536 bytes");
    } else if end < 8 {
        phrase(to, "it has ");
        many(to, end, b"byte");
        phrase(to, ", and a reel has at least 8");
    } else {
        counted(to, reel);
    }
}
