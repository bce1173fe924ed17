// Rooms of a fixed size, into which text is put piece by piece: what would pass the end is left out.
ghost use Rattle.std.specs.Prelude.{◌≤◌, length};
ghost use Rattle.io.specs.Counts.{IsPrefixLen};

use std::io::Cursor;

// The room is lent and the place a number, since callers put into the middle of a room that they keep.
// Puts the text into the room from a place on, as much of it as goes in, and answers where it ends.
pub fn put(room: &mut [u8], from: usize, text: &[u8]) -> usize
    requires { from ≤ length room.old }
    ensures { IsPrefixLen result room.new }
{
    let size = text.len().min(room.len() - from);
    room[from..from + size].copy_from_slice(&text[..size]);
    from + size
}

// What was written into the room of a cursor.
pub fn written<const N: usize>(text: &Cursor<[u8; N]>) -> &[u8]
    ensures { length result.now ≤ N }
{
    let room = text.get_ref();
    room.get(..text.position() as usize).unwrap_or(room)
}
