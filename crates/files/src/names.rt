// Names of files: the folder that stands before the last slash, and the own name behind it.
ghost use Rattle.std.specs.Prelude.{◌≡◌, ◌≤◌, length, take};
ghost use Rattle.io.specs.Counts.{IsPrefixLen};

use crate::room::put;

// The first bytes, at most all.
pub fn front(text: &[u8], size: usize) -> &[u8]
    ensures { result.now ≡ take size text.now }
{
    &text[..size.min(text.len())]
}

// The first bytes of a name, at most so many, with each of its characters whole: none of one that the cut would divide. A byte of UTF-8 that continues a character
// is 10xxxxxx.
pub(crate) fn cut(text: &[u8], size: usize) -> &[u8] {
    if text.len() <= size {
        return text;
    }
    let continued = text[..=size].iter().rev().position(|byte| *byte / 64 != 2);
    &text[..size - continued.unwrap_or(size)]
}

// How many bytes stand behind the last slash.
fn own_length(path: &[u8]) -> usize
    ensures { IsPrefixLen result path.now }
{
    path.iter()
        .rev()
        .position(|byte| *byte == b'/')
        .unwrap_or(path.len())
}

pub(crate) fn own(path: &[u8]) -> &[u8] {
    &path[path.len() - own_length(path)..]
}

// The folder, with its slash.
pub(crate) fn folder(path: &[u8]) -> &[u8] {
    &path[..path.len() - own_length(path)]
}

// The name that a file has in a folder, under the own name of a path, in the room. One that fills the room is longer than any that a file may have.
pub fn put_in<'a>(room: &'a mut [u8], folder: &[u8], path: &[u8]) -> &'a [u8]
    ensures { length result.now ≤ length room.old }
{
    let placed = put(room, 0, folder);
    let slashed = put(room, placed, b"/");
    let n = put(room, slashed, own(path));
    &room[..n]
}
