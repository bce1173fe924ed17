// What a reel in FS is read as: its blocks are blocks of segments, which make records in turn. Document 02, order 6; refusals 11 and 12.
// Of a record that is open only its length is held: which bytes it has does not matter for the rule.
#![tactic(auto)]

ghost use Rattle.std.specs.Prelude.{◌≡◌, ◌+◌, ◌≤◌, ◌<◌, length};
ghost use Rattle.reels.specs.Header.{header_of};
ghost use Rattle.turns.specs.Turns.{in_turn_of, counts_taken, Walked, Ruled};
ghost use Rattle.turns.specs.Promise.{SpannedAs};

use pieces::Cursor;
use reels::{Contents, ReelError};

// The records that ended so far, and how many bytes the open record has: 0 where none is open, since each segment has a byte or more.
#[derive(Clone, Copy)]
struct Counts {
    records: usize,
    held: usize,
}

// Whether a segment is in turn: codes 0 and 1 begin a record, exactly where none is open; and no record has more than 32,752 bytes.
fn in_turn(held: usize, code: usize, size: usize) -> bool
    requires { held ≤ 32752 }
    ensures { result ≡ in_turn_of held code size }
{
    let begins = code < 2;
    let closed = held == 0;
    if begins != closed {
        return false;
    }
    size <= 32752 - held
}

// The counts behind a segment: codes 0 and 2 end its record.
fn taken(counts: Counts, code: usize, size: usize) -> Counts
    requires { (counts.records < 65536) × (counts.held + size ≤ 32752) }
    ensures { result ≡ counts_taken counts code size }
{
    if code % 2 == 0 {
        Counts {
            records: counts.records + 1,
            held: 0,
        }
    } else {
        Counts {
            held: counts.held + size,
            ..counts
        }
    }
}

// The counts behind the segments of a block from a place on, if each is in turn behind those before it.
fn walked(b: &[u8], from: Cursor, before: Counts) -> Option<Counts>
    requires { (from.at ≤ length b.now) × (before.records + length b.now ≤ 65536) × (before.held ≤ 32752) }
    ensures { Walked before b.now from.at result }
{
    let mut at = from;
    let mut counts = before;
    while let Some(segment) = pieces::segment(b, at).ok()? {
        if !in_turn(counts.held, segment.third, segment.length) {
            return None;
        }
        counts = taken(counts, segment.third, segment.length);
        at = segment.next;
    }
    Some(counts)
}

// The counts behind a block, if it obeys its rule behind those before it: at most g bytes, its own word, and one segment or more, in turn.
fn rule(g: usize, b: &[u8], before: Counts) -> Option<Counts>
    requires { (before.records + length b.now ≤ 65536) × (before.held ≤ 32752) }
    ensures { Ruled g before b.now result }
{
    if b.len() > g || b.len() < 5 {
        return None;
    }
    let from = pieces::variable_start(b)?;
    walked(b, from, before)
}

// The blocks of a reel, one after the other, up to the first that breaks its rule. A record that is unfinished at the end breaks that of the last block.
fn read_blocks(g: usize, reel: &[u8], blocks: usize) -> Result<Contents, ReelError>
    requires { header_of reel.now ≡ Some blocks }
    ensures { SpannedAs g reel.now result }
{
    let mut counts = Counts {
        records: 0,
        held: 0,
    };
    for i in 0..blocks {
        let b = reels::block(reel, i);
        counts = rule(g, b, counts).ok_or(ReelError::BadBlock { block: i + 1 })?;
    }
    if counts.held != 0 {
        return Err(ReelError::BadBlock { block: blocks });
    }
    Ok(Contents {
        blocks,
        records: counts.records,
    })
}

// What a reel is read as in FS, with blocks of at most g bytes.
pub fn read_spanned(g: usize, reel: &[u8]) -> Result<Contents, ReelError>
    ensures { SpannedAs g reel.now result }
{
    let blocks = reels::header(reel).ok_or(ReelError::NotReel)?;
    read_blocks(g, reel, blocks)
}
