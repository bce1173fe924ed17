// Refusals 12 and 18 in FS: in what the segments of a block, whose own word is right, are none in turn. Document 02, order 6.
use crate::word;
use pieces::Cursor;
use std::io::Print;
use words::phrase;

// The highest length of a record.
const LONGEST: usize = 32752;

// A place in a block, and how many bytes the record has that is open there.
#[derive(Clone, Copy)]
struct Open {
    at: usize,
    held: Option<usize>,
}

// Codes 0 and 1 begin a record.
fn begins(code: usize) -> bool {
    code < 2
}

// How many bytes the open record has with a segment of this size.
fn joined(held: Option<usize>, size: usize) -> usize {
    held.unwrap_or(0).saturating_add(size)
}

// Whether a segment is in turn behind so many bytes of an open record.
fn in_turn(held: Option<usize>, code: usize, size: usize) -> bool {
    begins(code) == held.is_none() && joined(held, size) <= LONGEST
}

// How many bytes the open record has behind a segment that is in turn: codes 0 and 2 end it.
fn held_behind(held: Option<usize>, code: usize, size: usize) -> Option<usize> {
    match code {
        0 | 2 => None,
        _ => Some(joined(held, size)),
    }
}

// The place of the first segment in a block that is wrong, or where the block ends, behind so many bytes of an open record.
fn first_wrong(b: &[u8], before: Option<usize>) -> Open {
    let mut at = Cursor { at: 4 };
    let mut held = before;
    while let Ok(Some(segment)) = pieces::segment(b, at) {
        if !in_turn(held, segment.third, segment.length) {
            break;
        }
        held = held_behind(held, segment.third, segment.length);
        at = segment.next;
    }
    Open { at: at.at, held }
}

// How many bytes the record has that is open before a block, from 0.
fn held_before(reel: &[u8], block: usize) -> Option<usize> {
    (0..block).fold(
        None,
        |held, i| first_wrong(reels::block(reel, i), held).held,
    )
}

fn say_code(to: &impl Print, code: u8) {
    phrase(to, "its code is ");
    match code {
        0 => phrase(to, "0, for a whole record"),
        1 => phrase(to, "1, for the first segment of a record"),
        2 => phrase(to, "2, for the last segment of a record"),
        _ => phrase(to, "3, for a segment between the first and the last"),
    }
}

// Says how long a record is with a segment whose word says this length, behind so many bytes.
fn say_long(to: &impl Print, held: Option<usize>, length: usize) {
    if length >= 4 {
        let all = joined(held, length - 4);
        phrase(
            to,
            format_args!("with it its record has {all} bytes, and a record has at most 32,752"),
        );
    }
}

// Says why a segment is not in turn whose word is right.
fn say_turn(to: &impl Print, b: &[u8], open: Open) {
    let code = word::third(b, open.at);
    match (begins(terms::wide(code)), open.held) {
        (true, Some(_)) => {
            say_code(to, code);
            phrase(to, ", and the record before it is not finished");
        }
        (false, None) => {
            say_code(to, code);
            phrase(to, ", and no record is begun");
        }
        (_, held) => say_long(to, held, word::length(b, open.at)),
    }
}

// Says the first thing that is wrong with the segments of a block, from 0. Where there is none, the reel ends with this block.
pub(crate) fn explain(to: &impl Print, reel: &[u8], block: usize) {
    let b = reels::block(reel, block);
    let open = first_wrong(b, held_before(reel, block));
    if b.len() <= open.at {
        phrase(
            to,
            "the reel ends here, and its last record is not finished: a segment of code 2 has to follow",
        );
        return;
    }
    word::say_piece(to, "segment", open.at);
    if !word::said_piece(to, "segment", b, open.at, 3) {
        say_turn(to, b, open);
    }
}
