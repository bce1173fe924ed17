// The records of a reel one after the other, through all its blocks: a walk that goes by value, so that a pass over the records is one loop. Not in FS, where no
// record is in a block by itself.
// Document 01, "Blocks and records". The header and the rule of each block were asked when the reel was read: nothing is asked again here.
#![tactic(auto)]

ghost use Rattle.std.specs.Prelude.{◌≡◌, ◌+◌, ◌≤◌, ◌<◌, length, drop};
ghost use Rattle.rules.specs.Output.{cost};
ghost use Rattle.terms.specs.Meaning.{format_of};
ghost use Rattle.walks.specs.Walking.{Starting, block_start, behind_at, end_in, opened_walk, fixed_start};
ghost use Rattle.walks.specs.Promise.{Sound, Standing, Begun, RecordTold, WalkTaken};

use pieces::Form;
use terms::Format;

// A place before a record of a reel: where the offset stands at which its block ends, the place itself, that end, and whether the record is the first of its
// block (or the first that is taken).
#[derive(Clone, Copy)]
pub struct Walk {
    pub word: usize,
    pub at: usize,
    pub end: usize,
    pub begins: bool,
}

// A record and the walk behind it: where its data starts in the reel, the length of the data, and whether it is the first of its block.
#[derive(Clone, Copy)]
pub struct RecordRead {
    pub start: usize,
    pub length: usize,
    pub begins: bool,
    pub next: Walk,
}

// Before the first record of the block that starts at a place, or behind the last block.
#[tactic(auto, unfolding(crate::specs::Walking::block_start))]
fn block_start(form: Form, reel: &[u8], word: usize, from: usize) -> Walk
    requires { Starting form reel.now word from }
    ensures { result ≡ block_start form reel.now word from }
{
    if from >= reel.len() {
        return Walk {
            word,
            at: from,
            end: from,
            begins: true,
        };
    }
    Walk {
        word,
        at: from + terms::cost(form.format),
        end: pieces::word(reel, word),
        begins: true,
    }
}

// Before the first record of a reel.
fn begin(form: Form, reel: &[u8]) -> Walk
    requires { Sound form reel.now }
    ensures { Begun form reel.now result }
{
    let from = pieces::word(reel, 4);
    block_start(form, reel, 8, from)
}

// Behind a record that ends at a place: a block's end moves on to the next block, so that one call finds the next record.
#[tactic(auto, unfolding(crate::specs::Walking::behind_at))]
fn behind(form: Form, reel: &[u8], w: Walk, at: usize) -> Walk
    requires word_in_bounds { w.word ≤ length reel.now }
    requires starting { w.end ≤ at → Starting form reel.now (w.word + 4) at }
    ensures { result ≡ behind_at form reel.now w at }
{
    if at < w.end {
        return Walk {
            at,
            begins: false,
            ..w
        };
    }
    block_start(form, reel, w.word + 4, at)
}

// Where the record at a place ends, in a block that ends at a place: in FV its word says so, which counts its own 4 bytes.
fn record_end(form: Form, reel: &[u8], at: usize, end: usize) -> usize
    requires format_in_bounds { at + cost (format_of form.format) ≤ length reel.now }
    requires end_in_bounds { end_in (format_of form.format) form.n reel.now at end ≤ length reel.now }
    ensures { result ≡ end_in (format_of form.format) form.n reel.now at end }
{
    match form.format {
        Format::FF => at + form.n,
        Format::FV => at + (256 * terms::wide(reel[at]) + terms::wide(reel[at + 1])),
        Format::FU | Format::FS => end,
    }
}

// The record that a walk stands before, in constant time; none behind the last.
pub fn record(form: Form, reel: &[u8], w: Walk) -> Option<RecordRead>
    requires { Standing form reel.now w }
    ensures { RecordTold form reel.now w result }
{
    if w.at >= reel.len() {
        return None;
    }
    let start = w.at + terms::cost(form.format);
    let end = record_end(form, reel, w.at, w.end);
    Some(RecordRead {
        start,
        length: end - start,
        begins: w.begins,
        next: behind(form, reel, w, end),
    })
}

// The same place, before the first record that is taken.
fn opened(w: Walk) -> Walk
    ensures { result ≡ opened_walk w }
{
    Walk { begins: true, ..w }
}

// Before record R, or behind the last record: R is the first that is taken of its block, so that it counts as the block's first.
pub fn taken(form: Form, reel: &[u8], first: usize) -> Walk
    requires { Sound form reel.now }
    ensures { WalkTaken form reel.now first result }
{
    let mut w = begin(form, reel);
    for _number in 1..first {
        let Some(read) = record(form, reel, w) else {
            return opened(w);
        };
        w = read.next;
    }
    opened(w)
}

// In FF the records stand one behind the other through all blocks: where record R starts, which may be past the reel's end.
pub fn fixed_start(form: Form, reel: &[u8], first: usize) -> usize
    requires sound { Sound form reel.now }
    requires le_first { (1 ≤ first) × (first ≤ 65536) }
    ensures { result ≡ fixed_start form reel.now first }
{
    let from = pieces::word(reel, 4);
    from + (first - 1) * form.n
}

// What stands from a place on; nothing stands past the end.
pub fn rest(reel: &[u8], from: usize) -> &[u8]
    ensures { result.now ≡ drop from reel.now }
{
    reel.get(from..).unwrap_or_default()
}
