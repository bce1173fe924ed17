// Filling output blocks record by record: what is known along the way are three numbers, and they say whether a record opens a block. Measuring and writing both
// go by these steps. Document 01, "Blocks and records".
#![tactic(auto)]

ghost use Rattle.std.specs.Prelude.{◌≡◌, length};
ghost use Rattle.fillings.specs.Tallying.{overfills_of, opens_of, tally_of, Small};
ghost use Rattle.fillings.specs.Offsets.{offset_put, OffsetFits};

use terms::{Mode, Task};

// What is tallied of the output along the way: so many blocks, the size of the last, and the bytes of all.
#[derive(Clone, Copy, Default)]
pub struct Tally {
    pub blocks: usize,
    pub size: usize,
    pub bytes: usize,
}

// Whether no block is open, or a record does not fit behind the others.
#[tactic(auto, unfolding(crate::specs::Tallying::overfills_of))]
fn overfills(task: Task, tally: Tally, length: usize) -> bool
    requires { Small task tally length }
    ensures { result ≡ overfills_of task.limit task.cost tally length }
{
    tally.blocks == 0 || tally.size + (task.cost + length) > task.limit
}

// Whether a record opens a block: in TF where its input block begins, in TR and TRF where it does not fit behind the others.
#[tactic(auto, unfolding(crate::specs::Tallying::opens_of))]
fn opens(task: Task, tally: Tally, begins: bool, length: usize) -> bool
    requires { Small task tally length }
    ensures { result ≡ opens_of task tally begins length }
{
    match task.mode {
        Mode::TF => begins,
        Mode::TC | Mode::TR | Mode::TRF => overfills(task, tally, length),
    }
}

// One record more, whose output has this length.
#[tactic(auto, unfolding(crate::specs::Tallying::opens_of, crate::specs::Tallying::tally_of))]
pub fn tallied(task: Task, tally: Tally, begins: bool, length: usize) -> Tally
    requires { Small task tally length }
    ensures { result ≡ tally_of task tally begins length }
{
    let more = task.cost + length;
    if opens(task, tally, begins, length) {
        let size = task.cost + more;
        return Tally {
            blocks: tally.blocks + 1,
            size,
            bytes: tally.bytes + size,
        };
    }
    Tally {
        blocks: tally.blocks,
        size: tally.size + more,
        bytes: tally.bytes + more,
    }
}

// Where a record or a segment opens a block, the block's offset goes into the header.
#[tactic(auto, unfolding(crate::specs::Offsets::offset_put))]
pub fn put_offset(base: usize, tally: Tally, more: Tally, out: &mut [u8])
    requires { OffsetFits base tally more (length out.old) }
    ensures { out.new ≡ offset_put base tally more out.old }
{
    if tally.blocks < more.blocks {
        pieces::put_word(out, 4 * more.blocks, base + tally.bytes);
    }
}
