// Why a call of the system failed, in the system's own words.
ghost use Rattle.io.specs.Counts.{IsPrefixLen};

use crate::{phrase, say};
use std::io::{Cursor, Error, Print, Write};

// What std writes behind the system's words: the error's number follows, and a parenthesis. People are told the words alone.
const NUMBERED: [u8; 11] = *b" (os error ";

// How many bytes of the room the words have. Behind them it holds zeros.
fn words_length(room: &[u8]) -> usize
    ensures { IsPrefixLen result room.now }
{
    for (n, byte) in room.iter().enumerate() {
        if *byte == 0 || room[n..].starts_with(&NUMBERED) {
            return n;
        }
    }
    room.len()
}

// Says why, behind what failed: a colon, the reason and the line's end.
pub fn because(to: &impl Print, why: Error) {
    let mut written = Cursor::new([0u8; 128]);
    let _ = write!(written, "{why}");
    let room = written.into_inner();
    let n = words_length(&room);
    phrase(to, ": ");
    say(to, &room[..n]);
    phrase(to, "\n");
}

// Says a line: what failed, as the caller names it, a colon and why.
pub fn fail(to: &impl Print, what: &[u8], why: Error) {
    say(to, what);
    because(to, why);
}
