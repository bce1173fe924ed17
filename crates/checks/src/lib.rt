// Refusals 11 to 15 of a run, in their order and each over the whole reel, before anything is written: document 01, "Refusal numbers".
#![tactic(auto)]

ghost use Rattle.std.specs.Prelude.{◌≡◌};
ghost use Rattle.measures.specs.Promise.{Selected, FirstUnpermitted};
ghost use Rattle.checks.specs.Promise.{SomePlanGiven, ReadBy, PermittedRun, MeasuredRun, CheckedRun, Checked};

use measures::{Measured, TooLong};
use outcomes::Ran;
use reels::ReelError;
use terms::{Mode, Task};

// Refusal 13 of a plan that selects fields: where all of them are copies, no record need be looked at.
fn unpermitted_selected(task: Task, fields: &[u16], reel: &[u8]) -> Option<usize>
    requires { Selected task fields.now reel.now }
    ensures { FirstUnpermitted task fields.now reel.now result }
{
    if !values::asks(fields) {
        return None;
    }
    measures::first_unpermitted(task, fields, reel)
}

// Refusal 13: the first record taken with a half that is not permitted. TC and TR ask nothing of halves.
fn unpermitted(task: Task, fields: &[u16], reel: &[u8]) -> Option<usize>
    requires { ReadBy task fields.now reel.now }
    ensures { PermittedRun task fields.now reel.now result }
{
    match task.mode {
        Mode::TC | Mode::TR => None,
        Mode::TF | Mode::TRF => unpermitted_selected(task, fields, reel),
    }
}

// Refusal 14 and the measure. The output of TC is its input.
fn measured(
    task: Task,
    fields: &[u16],
    reel: &[u8],
    blocks: usize,
    records: usize,
) -> Result<Measured, TooLong>
    requires { ReadBy task fields.now reel.now }
    ensures { MeasuredRun task fields.now reel.now blocks records result }
{
    match task.mode {
        Mode::TC => Ok(Measured {
            blocks,
            records,
            length: reel.len(),
        }),
        Mode::TF | Mode::TR | Mode::TRF => measures::measure(task, reel),
    }
}

// Refusals 13, 14 and 15 of a reel whose blocks all keep their rule.
// Here and in `check` each step ends in the C struct, and nobody looks into it again: an error and `?` would add a type and a conversion.
fn checked(
    task: Task,
    fields: &[u16],
    reel: &[u8],
    blocks: usize,
    records: usize,
    room: usize,
) -> Ran
    requires { ReadBy task fields.now reel.now }
    ensures { CheckedRun task fields.now reel.now blocks records room result }
{
    if let Some(number) = unpermitted(task, fields, reel) {
        return outcomes::refused(13, number, 0);
    }
    match measured(task, fields, reel, blocks, records) {
        Ok(m) => outcomes::housed(room, m.length, m.records, m.blocks),
        Err(long) => outcomes::refused(14, long.number, 0),
    }
}

// What the run of a plan over a reel answers, where the lent output has so much room.
pub fn check(task: Task, fields: &[u16], reel: &[u8], room: usize) -> Ran
    requires { SomePlanGiven task fields.now }
    ensures { Checked task fields.now reel.now room result }
{
    match reels::read_reel(tasks::form_of(task), reel) {
        Ok(found) => checked(task, fields, reel, found.blocks, found.records, room),
        Err(ReelError::NotReel) => outcomes::refused(11, 0, 0),
        Err(ReelError::BadBlock { block }) => outcomes::refused(12, block, 0),
    }
}
