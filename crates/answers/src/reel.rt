// What a reel is read as, as words of a line.
use crate::shown;
use pieces::{Form, FoundPiece};
use reels::{Contents, ReelError};
use std::io::Print;
use terms::Format;
use words::phrase;

// What was told of records: whether of any, and how many bytes of the next were read.
#[derive(Clone, Copy)]
struct Told {
    any: bool,
    held: usize,
}

// What is told behind a piece. Codes 0 and 2 end a record: the length of its data is told, with a comma before each but the first of the reel. In FS alone there
// are others, and a record is its segments joined.
fn with_piece(to: &impl Print, told: Told, piece: FoundPiece) -> Told {
    let held = told.held.saturating_add(piece.length);
    if piece.third % 2 == 1 {
        return Told { held, ..told };
    }
    if told.any {
        phrase(to, ",");
    }
    phrase(to, held);
    Told { any: true, held: 0 }
}

// The pieces of a block, which are records, in FS segments.
fn in_block(to: &impl Print, form: Form, block: &[u8], before: Told) -> Told {
    let mut at = gathers::first_place(form.format);
    let mut told = before;
    while let Ok(Some(piece)) = gathers::piece_at(form, block, at) {
        told = with_piece(to, told, piece);
        at = piece.next;
    }
    told
}

// The length of each record, block after block; `-` for none.
fn lengths(to: &impl Print, form: Form, reel: &[u8], contents: Contents) {
    if contents.records == 0 {
        phrase(to, "-");
    }
    let mut told = Told {
        any: false,
        held: 0,
    };
    for i in 0..contents.blocks {
        told = in_block(to, form, reels::block(reel, i), told);
    }
}

fn read(form: Form, reel: &[u8]) -> Result<Contents, ReelError> {
    match form.format {
        Format::FF | Format::FV | Format::FU => reels::read_reel(form, reel),
        Format::FS => turns::read_spanned(form.m, reel),
    }
}

pub(crate) fn tell(to: &impl Print, form: Form, reel: &[u8]) {
    match read(form, reel) {
        Ok(contents) => {
            shown::refusal(to, 0, 0, 0);
            phrase(
                to,
                format_args!(" {} {} ", contents.blocks, contents.records),
            );
            lengths(to, form, reel, contents);
        }
        Err(ReelError::NotReel) => shown::refusal(to, 11, 0, 0),
        Err(ReelError::BadBlock { block }) => shown::refusal(to, 12, block, 0),
    }
}
