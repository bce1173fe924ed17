// The pieces of a block, and words in and out.
// Document 01, "The reel" and "Blocks and records". Document 02, order 6: a segment's word differs from a record's in its third byte alone.
#![tactic(auto)]

ghost use Rattle.std.specs.Prelude.{◌≡◌, [], ◌∷◌, ◌+◌, ◌≤◌, ◌<◌, length, drop};
ghost use Rattle.rules.specs.Halves.{over};
ghost use Rattle.rules.specs.Output.{length_word};
ghost use Rattle.rules.specs.Spanned.{coded_word};
ghost use Rattle.rules.specs.Reel.{word};
ghost use Rattle.rules.specs.ReelPlaces.{word_at};
ghost use Rattle.pieces.specs.Pieces.{length_word_of, variable_start, start_of, given, fixed_piece, worded_in, piece_read_of};

use terms::Format;

// The big-endian 32-bit number at a place.
pub fn word(s: &[u8], at: usize) -> usize
    requires { at + 4 ≤ length s.now }
    ensures { (result ≡ word_at s.now at) × (result < 0x100000000) }
{
    u32::from_be_bytes([s[at], s[at + 1], s[at + 2], s[at + 3]]) as usize
}

// What a plan asks of blocks: the format, A's n, A's m or g, and whether fields are selected, by TF or TRF: then a record has A's n of data or more, else a byte
// or more.
#[derive(Clone, Copy)]
pub struct Form {
    pub format: Format,
    pub n: usize,
    pub m: usize,
    pub selects: bool,
}

// A place in a block.
#[derive(Clone, Copy)]
pub struct Cursor {
    pub at: usize,
}

// A piece: where its data begin and how many they are, the third byte of its word (0 where it has no word), and the place behind it.
#[derive(Clone, Copy)]
pub struct FoundPiece {
    pub place: usize,
    pub length: usize,
    pub third: usize,
    pub next: Cursor,
}

// What stands at a place is no piece.
#[derive(Clone, Copy)]
pub struct NoPiece;

// The length that the word at a place says, if it is one: a length in 2 bytes, of which at least low and no more than there are, a third byte of at most top (0, and
// 3 for a segment's code), and a zero byte.
fn length_word(b: &[u8], at: usize, low: usize, top: u8) -> Option<usize>
    requires { (at ≤ length b.now) × (4 ≤ low) }
    ensures { result ≡ length_word_of top low (drop at b.now) }
{
    let left = b.len() - at;
    if left < 4 {
        return None;
    }
    let length = usize::from(u16::from_be_bytes([b[at], b[at + 1]]));
    if length < low {
        return None;
    }
    if length > left {
        return None;
    }
    if b[at + 2] > top {
        return None;
    }
    if b[at + 3] != 0 {
        return None;
    }
    Some(length)
}

// Where the pieces of a block begin: in FV behind the block's word, which says the block's length. In FS a block has no records by itself (`segment`).
pub fn start(form: Form, b: &[u8]) -> Option<Cursor>
    ensures { result ≡ start_of form b.now }
{
    match form.format {
        Format::FF | Format::FU => Some(Cursor { at: 0 }),
        Format::FV => variable_start(b),
        Format::FS => None,
    }
}

// In FV, and in FS.
pub fn variable_start(b: &[u8]) -> Option<Cursor>
    ensures { result ≡ variable_start b.now }
{
    let length = length_word(b, 0, 4, 0)?;
    (length == b.len()).then_some(Cursor { at: 4 })
}

// The piece at a place, or the block's end. Each takes a byte or more, so that the next place is higher.
pub fn piece(form: Form, b: &[u8], c: Cursor) -> Result<Option<FoundPiece>, NoPiece>
    ensures { result ≡ piece_read_of form b.now c.at }
{
    let at = c.at;
    let end = b.len();
    if at >= end {
        return Ok(None);
    }
    let piece = match form.format {
        Format::FF => fixed_piece(form.n, at, end)?,
        Format::FV => variable_piece(b, at, 0)?,
        Format::FU => FoundPiece {
            place: at,
            length: end - at,
            third: 0,
            next: Cursor { at: end },
        },
        Format::FS => return Err(NoPiece),
    };
    Ok(Some(piece))
}

// In FF, of a block that ends at a place: n bytes, of which no piece has none.
fn fixed_piece(n: usize, at: usize, end: usize) -> Result<FoundPiece, NoPiece>
    requires { at < end }
    ensures { result ≡ fixed_piece n at end }
{
    if n == 0 || n > end - at {
        return Err(NoPiece);
    }
    Ok(FoundPiece {
        place: at,
        length: n,
        third: 0,
        next: Cursor { at: at + n },
    })
}

// In FV, and in FS, where the third byte of the word is a code: the data behind the word, whose length counts its own 4 bytes.
fn variable_piece(b: &[u8], at: usize, top: u8) -> Result<FoundPiece, NoPiece>
    requires { at < length b.now }
    ensures { given result ≡ worded_in top b.now at }
{
    let length = length_word(b, at, 5, top).ok_or(NoPiece)?;
    Ok(FoundPiece {
        place: at + 4,
        length: length - 4,
        third: usize::from(b[at + 2]),
        next: Cursor { at: at + length },
    })
}

// The segment at a place, or the block's end: the third byte of its word is its code, 0 to 3.
pub fn segment(b: &[u8], c: Cursor) -> Result<Option<FoundPiece>, NoPiece>
    ensures { result ≡ worded_in 3 b.now c.at }
{
    if c.at >= b.len() {
        return Ok(None);
    }
    let piece = variable_piece(b, c.at, 3)?;
    Ok(Some(piece))
}

// Four bytes from a place on.
fn put_four(out: &mut [u8], at: usize, four: [u8; 4])
    requires { at + 4 ≤ length out.old }
    ensures { out.new ≡ over at four out.old }
{
    out[at..at + 4].copy_from_slice(&four);
}

// A big-endian 32-bit number from a place on.
pub fn put_word(out: &mut [u8], at: usize, value: usize)
    requires { at + 4 ≤ length out.old }
    ensures { out.new ≡ over at (word value) out.old }
{
    put_four(out, at, ((value % 0x100000000) as u32).to_be_bytes());
}

// The word of a segment: its length in 2 bytes, its code, and a zero byte.
pub fn put_coded_word(out: &mut [u8], at: usize, code: u8, size: usize)
    requires at_in_bounds { at + 4 ≤ length out.old }
    requires size_bound { size < 65536 }
    ensures { out.new ≡ over at (coded_word code size) out.old }
{
    let [high, low] = (size as u16).to_be_bytes();
    put_four(out, at, [high, low, code, 0]);
}

// A length of a record or block in FV, and of a block in FS: a word of code 0.
pub fn put_length_word(out: &mut [u8], at: usize, size: usize)
    requires at_in_bounds { at + 4 ≤ length out.old }
    requires size_bound { size < 65536 }
    ensures { out.new ≡ over at (length_word size) out.old }
{
    put_coded_word(out, at, 0, size);
}
