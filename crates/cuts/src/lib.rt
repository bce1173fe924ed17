// How a record is cut into segments that fill blocks of m bytes, by numbers alone. Document 02, order 6.
#![tactic(auto)]

ghost use Rattle.std.specs.Prelude.{◌≡◌};
ghost use Rattle.cuts.specs.Cutting.{CutSmall, opened_of, cut_of, behind_record, full_of};

use fillings::Tally;

// What a cut takes of a record: so many bytes of data, and the tally with the segment that they make.
#[derive(Clone, Copy)]
pub struct CutTaken {
    pub size: usize,
    pub tally: Tally,
}

// Before the first segment: no block is there, and it is as if a full one were, so that the first segment opens one.
pub fn full(m: usize) -> Tally
    ensures { result ≡ full_of m }
{
    Tally {
        blocks: 0,
        size: m,
        bytes: 0,
    }
}

// The block that a segment goes into: a new one, with its word, where fewer than 5 bytes are left of the last, which are a segment's word and a byte of data.
#[tactic(auto, unfolding(crate::specs::Cutting::opened_of))]
fn opened(m: usize, tally: Tally) -> Tally
    requires { CutSmall m tally 0 }
    ensures { result ≡ opened_of m tally }
{
    if m - tally.size < 5 {
        return Tally {
            blocks: tally.blocks + 1,
            size: 4,
            bytes: tally.bytes + 4,
        };
    }
    tally
}

// The next segment of a record of which so many bytes are left: all of them, or as many as its block has room for. Measuring and writing both go by these steps.
pub fn cut(m: usize, tally: Tally, rest: usize) -> CutTaken
    requires { CutSmall m tally rest }
    ensures { result ≡ cut_of m tally rest }
{
    let block = opened(m, tally);
    let size = rest.min(m - block.size - 4);
    let segment = size + 4;
    CutTaken {
        size,
        tally: Tally {
            blocks: block.blocks,
            size: block.size + segment,
            bytes: block.bytes + segment,
        },
    }
}

// The tally behind a record of so many bytes. A while, since each turn goes on by what a cut takes, which no range counts.
pub fn behind(m: usize, tally: Tally, size: usize) -> Tally
    requires { CutSmall m tally size }
    ensures { result ≡ behind_record m tally size }
{
    let mut now = tally;
    let mut rest = size;
    while rest > 0 {
        let part = cut(m, now, rest);
        now = part.tally;
        rest -= part.size;
    }
    now
}
