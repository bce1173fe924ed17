// Lent rooms, at places that may lie outside them: what would pass the end is left out.

// Puts bytes into the room from a place on, as much of them as goes in, and answers where they end; 0 where the place is outside.
pub(crate) fn put(room: &mut [u8], from: usize, bytes: &[u8]) -> usize {
    if room.len() < from {
        return 0;
    }
    files::put(room, from, bytes)
}

// Puts a big-endian 32-bit number into the room; where its four bytes are not all inside, nothing.
pub(crate) fn put_word(room: &mut [u8], at: usize, value: usize) {
    let end = room.len();
    if end < 4 {
        return;
    }
    if end - 4 < at {
        return;
    }
    pieces::put_word(room, at, value);
}

// Puts the word of a length into the room; where its four bytes are not all inside, or 2 bytes do not hold the length, nothing.
pub(crate) fn put_length_word(room: &mut [u8], at: usize, size: usize) {
    if 65535 < size {
        return;
    }
    let end = room.len();
    if end < 4 {
        return;
    }
    if end - 4 < at {
        return;
    }
    pieces::put_length_word(room, at, size);
}

// The first bytes of the room; none where there are not so many.
pub(crate) fn front(room: &[u8], length: usize) -> &[u8] {
    room.get(..length).unwrap_or(&[])
}

// The bytes of the room from a place on; none where the place is outside.
pub(crate) fn behind(room: &[u8], from: usize) -> &[u8] {
    room.get(from..).unwrap_or(&[])
}
