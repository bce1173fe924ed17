// The records of a reel that was read, in any format: how many there are, and the bytes of one of them, in FS its segments joined.
#![tactic(auto)]

ghost use Rattle.std.specs.Prelude.{◌≡◌, ◌≤◌, length, IfSome};
ghost use Rattle.io.specs.Counts.{IsPrefixLen};
ghost use Rattle.rules.specs.Output.{cost};
ghost use Rattle.terms.specs.Meaning.{format_of};
ghost use Rattle.pieces.proofs.PiecesLaws.{further};

use pieces::{Cursor, Form, FoundPiece, NoPiece};
use terms::Format;

// Room for the longest record. The `ensures` gives the length, which lending the array as a slice needs.
pub fn record_room() -> [u8; 32752]
    ensures { 32752 ≡ length result }
{
    [0; 32752]
}

// How many records a reel has, and the bytes of the one that was wanted, if it has it.
#[derive(Clone, Copy)]
pub struct Gathered<'a> {
    pub records: usize,
    pub bytes: Option<&'a [u8]>,
}

// How many records there are so far, and how many bytes of the one that is wanted are in the room.
#[derive(Clone, Copy)]
struct Gathering {
    records: usize,
    length: usize,
}

// Where the pieces of a block begin: in FS too behind a word of 4 bytes.
pub fn first_place(format: Format) -> Cursor
    ensures spanned { format ≡ Format.FS → result.at ≡ 4 }
    ensures others { (format ≡ Format.FS → ⊥) → result.at ≡ cost (format_of format) }
{
    match format {
        Format::FF | Format::FV | Format::FU => Cursor {
            at: terms::cost(format),
        },
        Format::FS => Cursor { at: 4 },
    }
}

// What stands at a place of a block: a record, in FS a segment.
pub fn piece_at(form: Form, b: &[u8], at: Cursor) -> Result<Option<FoundPiece>, NoPiece>
    ensures { further at.at (length b.now) result }
{
    match form.format {
        Format::FF | Format::FV | Format::FU => pieces::piece(form, b, at),
        Format::FS => pieces::segment(b, at),
    }
}

// Behind a piece of the next record, which codes 0 and 2 end; its bytes go into the room if that record is the wanted one.
fn behind(before: Gathering, bytes: &[u8], code: usize, wanted: usize, room: &mut [u8]) -> Gathering
    requires { IsPrefixLen before.length room.old }
    ensures { IsPrefixLen result.length room.new }
{
    let number = before.records.saturating_add(1);
    let records = if code % 2 == 0 {
        number
    } else {
        before.records
    };
    let length = if number == wanted {
        files::put(room, before.length, bytes)
    } else {
        before.length
    };
    Gathering { records, length }
}

// Behind a block.
fn behind_block(
    form: Form,
    b: &[u8],
    before: Gathering,
    wanted: usize,
    room: &mut [u8],
) -> Gathering
    requires { IsPrefixLen before.length room.old }
    ensures { IsPrefixLen result.length room.new }
{
    let mut at = first_place(form.format);
    let mut found = before;
    while let Ok(Some(piece)) = piece_at(form, b, at) {
        at = piece.next;
        found = behind(found, &b[piece.place..at.at], piece.third, wanted, room);
    }
    found
}

// Counts the records of a reel, and puts the wanted one, from 1, into the room, as much of it as goes in.
pub fn gather<'a>(form: Form, reel: &[u8], wanted: usize, room: &'a mut [u8]) -> Gathered<'a>
    ensures { IfSome result.bytes (λ taken. length taken.now ≤ length room.old) }
{
    let mut found = Gathering {
        records: 0,
        length: 0,
    };
    for i in 0..reels::header(reel).unwrap_or(0) {
        found = behind_block(form, reels::block(reel, i), found, wanted, room);
    }
    let is_there = 0 < wanted && wanted <= found.records;
    Gathered {
        records: found.records,
        bytes: is_there.then_some(&room[..found.length]),
    }
}
