// The header of a reel, its blocks, and whether each obeys its rule.
// Document 01, "The reel" and "Blocks and records"; refusals 11 and 12.
#![tactic(auto)]

ghost use Rattle.std.specs.Prelude.{◌≡◌, ◌≤◌, length};
ghost use Rattle.rules.specs.Blocks.{least_data};
ghost use Rattle.pieces.specs.Form.{plan_by};
ghost use Rattle.reels.specs.Header.{header_of, block_part};
ghost use Rattle.reels.specs.Records.{PiecesCounted, BlockSays, ReadAs};

use pieces::{Cursor, Form};
use terms::Format;

// How many blocks s has, if it is a reel: every offset is looked at once.
pub fn header(reel: &[u8]) -> Option<usize>
    ensures { result ≡ header_of reel.now }
{
    let end = reel.len();
    if end > 65536 || end < 8 {
        return None;
    }
    let count = pieces::word(reel, 0);
    // The count may be any 32-bit number: it is compared before it is multiplied.
    if count > (end - 8) / 4 {
        return None;
    }
    let mut a = pieces::word(reel, 4);
    if a != 4 * count + 8 {
        return None;
    }
    for i in 0..count {
        let b = pieces::word(reel, 4 * i + 8);
        if b <= a {
            return None;
        }
        a = b;
    }
    (a == end).then_some(count)
}

// The part of a reel from offset i to offset i+1, i from 0: block i. It is empty where the two offsets are not there or do not name a part.
pub fn block(reel: &[u8], i: usize) -> &[u8]
    ensures { result.now ≡ block_part reel.now i }
{
    let end = reel.len();
    if end < 12 || i > (end - 12) / 4 {
        return &[];
    }
    let a = pieces::word(reel, 4 * i + 4);
    let e = pieces::word(reel, 4 * i + 8);
    reel.get(a..e).unwrap_or(&[])
}

// What a reel that keeps the rules has: so many blocks and records.
#[derive(Clone, Copy)]
pub struct Contents {
    pub blocks: usize,
    pub records: usize,
}

// Why a reel is refused: it is none (11), or the number, from 1, of the first block that breaks its rule (12).
#[derive(Clone, Copy)]
pub enum ReelError {
    NotReel,
    BadBlock { block: usize },
}

// The least data of a record.
fn least_data(form: Form) -> usize
    ensures { result ≡ least_data (plan_by form) }
{
    if form.selects { form.n } else { 1 }
}

// How many pieces there are from a place on, if each has the least data or more, and there is one.
fn counted(form: Form, b: &[u8], from: Cursor) -> Option<usize>
    ensures { PiecesCounted form b.now from.at result }
{
    let least = least_data(form);
    let mut at = from;
    let mut count = 0;
    while let Some(piece) = pieces::piece(form, b, at).ok()? {
        if piece.length < least {
            return None;
        }
        at = piece.next;
        count += 1;
    }
    (count > 0).then_some(count)
}

// In FF: the pieces are counted by a division, as all have n bytes. No piece has none.
fn divided(form: Form, b: &[u8]) -> Option<usize>
    requires format_value { form.format ≡ Format.FF }
    requires in_bounds { (1 ≤ length b.now) × (length b.now ≤ form.m) }
    ensures { BlockSays form b.now result }
{
    let n = form.n;
    let size = b.len();
    if n == 0 || size % n != 0 {
        return None;
    }
    Some(size / n)
}

// The pieces of a block, from its start on.
fn walked(form: Form, b: &[u8]) -> Option<usize>
    requires { (1 ≤ length b.now) × (length b.now ≤ form.m) }
    ensures { BlockSays form b.now result }
{
    let from = pieces::start(form, b)?;
    counted(form, b, from)
}

// How many records a block has, if it obeys its rule, wherever it stands: at most m (or g) bytes, and what it holds are records. No block of a reel is empty.
fn rule(form: Form, b: &[u8]) -> Option<usize>
    requires { 1 ≤ length b.now }
    ensures { BlockSays form b.now result }
{
    if b.len() > form.m {
        return None;
    }
    match form.format {
        Format::FF => divided(form, b),
        Format::FV | Format::FU | Format::FS => walked(form, b),
    }
}

// The blocks of a reel, one after the other, up to the first that breaks its rule.
fn read_blocks(form: Form, reel: &[u8], blocks: usize) -> Result<Contents, ReelError>
    requires { header_of reel.now ≡ Some blocks }
    ensures { ReadAs form reel.now result }
{
    let mut records = 0;
    for i in 0..blocks {
        let b = block(reel, i);
        records += rule(form, b).ok_or(ReelError::BadBlock { block: i + 1 })?;
    }
    Ok(Contents { blocks, records })
}

// What a reel is read as, by what a plan asks of blocks.
pub fn read_reel(form: Form, reel: &[u8]) -> Result<Contents, ReelError>
    ensures { ReadAs form reel.now result }
{
    let blocks = header(reel).ok_or(ReelError::NotReel)?;
    read_blocks(form, reel, blocks)
}
