// The word before a block, a record or a segment: a length in 2 bytes, a byte that is 0 or the code of a segment, and a zero byte; and in what it is wrong.
// Document 01, "Blocks and records"; document 02, order 6.
ghost use Rattle.std.specs.Prelude.{◌+◌, ◌^◌, ◌<◌, ◌≤◌, length};

use std::io::Print;
use words::{many, phrase, say};

// The third byte of the word at a place: of a segment its code; 0 where the block has ended.
// A number, no Option: who asks has found the word whole, so that None would be one more case that never comes.
pub(crate) fn third(b: &[u8], at: usize) -> u8 {
    match b.get(at..) {
        Some([_, _, third, ..]) => *third,
        _ => 0,
    }
}

// The length that the word at a place says; 0 where the block has ended.
// A number, no Option: 0 is under every length that a word may say, so that a block that has ended is judged and told as one whose word is too short.
pub(crate) fn length(b: &[u8], at: usize) -> usize
    ensures { result < 65536 }
{
    match b.get(at..) {
        Some([high, low, ..]) => usize::from(u16::from_be_bytes([*high, *low])),
        _ => 0,
    }
}

// Says which byte of a block, from 0, is in its word or in that of a piece, and what it is.
fn say_byte(to: &impl Print, at: usize, byte: u8)
    requires { at + 1 < 2 ^ 64 }
{
    phrase(
        to,
        format_args!("byte {} of the block, in its word, is hex ", at + 1),
    );
    say(to, &hexadecimal::hex(byte));
}

// Whether the third byte of the word at a place, which is at most top, or the fourth is wrong, which is then said.
fn said_flags(to: &impl Print, b: &[u8], at: usize, top: u8) -> bool
    requires { at ≤ length b.now }
{
    match &b[at..] {
        [_, _, third, ..] if *third > top => {
            say_byte(to, at + 2, *third);
            if top == 0 {
                phrase(to, ", and has to be 00");
            } else {
                phrase(to, ", and a code is 00 to 03");
            }
            true
        }
        [_, _, _, last, ..] if *last != 0 => {
            say_byte(to, at + 3, *last);
            phrase(to, ", and has to be 00");
            true
        }
        _ => false,
    }
}

// Says that the word of a block says another length than it has.
fn say_length(to: &impl Print, b: &[u8], said: usize) {
    phrase(to, "its word says ");
    many(to, said, b"byte");
    phrase(to, format_args!(", and it has {}", b.len()));
}

// Whether the word of a block is wrong, which is then said, in the order in which `pieces` looks at it.
pub(crate) fn said_wrong(to: &impl Print, b: &[u8]) -> bool {
    let said = length(b, 0);
    if said < 4 || said > b.len() {
        say_length(to, b, said);
        return true;
    }
    if said_flags(to, b, 0, 0) {
        return true;
    }
    let differs = said != b.len();
    if differs {
        say_length(to, b, said);
    }
    differs
}

// Says which piece, a record or a segment, stands at a place of a block.
pub(crate) fn say_piece(to: &impl Print, name: &str, at: usize)
    requires { at + 1 < 2 ^ 64 }
{
    phrase(
        to,
        format_args!("the {name} at byte {} of the block: ", at + 1),
    );
}

// Whether the length in the word of a piece is wrong, where so many bytes of the block are left; that is then said.
fn said_length(to: &impl Print, name: &str, said: usize, left: usize) -> bool {
    if left < 4 {
        phrase(to, "the block has ");
        many(to, left, b"byte");
        phrase(to, " left, and a word has 4");
        return true;
    }
    if said > 4 && said <= left {
        return false;
    }
    phrase(to, "its word says ");
    many(to, said, b"byte");
    if said > left {
        phrase(to, format_args!(", and the block has {left} left"));
    } else {
        phrase(
            to,
            format_args!(", and a {name} has at least 5 with its word"),
        );
    }
    true
}

// Whether the word of the piece at a place is wrong, which is then said. Its third byte is at most top: 0 for a record, 3 for a segment.
pub(crate) fn said_piece(to: &impl Print, name: &str, b: &[u8], at: usize, top: u8) -> bool
    requires { at < length b.now }
{
    said_length(to, name, length(b, at), b.len() - at) || said_flags(to, b, at, top)
}
