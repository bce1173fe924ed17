// The two passes over the records that are taken, before anything is written: whether the halves of each are permitted (refusal 13), and whether the output of
// each fits (refusal 14) with what the output reel measures. Document 01, "Blocks and records" and "Refusal numbers".
#![tactic(auto)]

ghost use Rattle.std.specs.Prelude.{◌≡◌, true, ◌+◌, ◌-◌, ◌/◌, ◌≤◌};
ghost use Rattle.rules.specs.Reel.{is_reel, offsets};
ghost use Rattle.rules.specs.EvenRecords.{count_behind};
ghost use Rattle.measures.specs.Promise.{Selected, FirstUnpermitted, Measurable, Measures, FixedFrom, FixedBlocks};

use fillings::Tally;
use terms::{Format, Mode, Task};

// The first record whose output does not fit, by its number.
#[derive(Clone, Copy)]
pub struct TooLong {
    pub number: usize,
}

// Where each output fits: how many blocks, records and bytes the output reel has.
#[derive(Clone, Copy)]
pub struct Measured {
    pub blocks: usize,
    pub records: usize,
    pub length: usize,
}

// The number of the first record taken of which a half is not permitted: along the walk.
fn first_walked(task: Task, fields: &[u16], reel: &[u8]) -> Option<usize>
    requires { Selected task fields.now reel.now }
    ensures { FirstUnpermitted task fields.now reel.now result }
{
    let form = tasks::form_of(task);
    let mut w = walks::taken(form, reel, task.first);
    let mut number = task.first;
    while let Some(read) = walks::record(form, reel, w) {
        let end = read.start + read.length;
        if !values::permitted(fields, &reel[read.start..end]) {
            return Some(number);
        }
        w = read.next;
        number += 1;
    }
    None
}

// Whether the output of each record taken fits, and what the output reel measures: along the walk, in a pass that holds three numbers and builds nothing.
fn measure_walked(task: Task, reel: &[u8]) -> Result<Measured, TooLong>
    requires { Measurable task reel.now }
    ensures { Measures task reel.now result }
{
    let form = tasks::form_of(task);
    let mut walk = walks::taken(form, reel, task.first);
    let mut number = task.first;
    let mut tally = Tally::default();
    while let Some(read) = walks::record(form, reel, walk) {
        let n = tasks::output_length(task, read.length);
        let more = fillings::tallied(task, tally, read.begins, n);
        if more.size > task.limit {
            return Err(TooLong { number });
        }
        tally = more;
        walk = read.next;
        number += 1;
    }
    Ok(Measured {
        blocks: tally.blocks,
        records: number - task.first,
        length: 4 * tally.blocks + 8 + tally.bytes,
    })
}

// In FF the records taken stand one behind the other, through all blocks.
fn first_fixed(task: Task, fields: &[u16], reel: &[u8]) -> Option<usize>
    requires selected { Selected task fields.now reel.now }
    requires format_value { task.format ≡ Format.FF }
    ensures { FirstUnpermitted task fields.now reel.now result }
{
    let n = task.n;
    let first = task.first;
    let from = walks::fixed_start(tasks::form_of(task), reel, first);
    let data = walks::rest(reel, from);
    // By hand, since chunks asks at each turn whether n bytes are left: that is proved here, and no pass over all records gets a test more.
    let mut at = 0;
    let mut number = first;
    while at < data.len() {
        let end = at + n;
        if !values::permitted(fields, &data[at..end]) {
            return Some(number);
        }
        at = end;
        number += 1;
    }
    None
}

// The number of the first record taken of which a half is not permitted.
pub fn first_unpermitted(task: Task, fields: &[u16], reel: &[u8]) -> Option<usize>
    requires { Selected task fields.now reel.now }
    ensures { FirstUnpermitted task fields.now reel.now result }
{
    match task.format {
        Format::FF => first_fixed(task, fields, reel),
        Format::FV | Format::FU | Format::FS => first_walked(task, fields, reel),
    }
}

// How many blocks of a reel end behind a place.
fn blocks_behind(reel: &[u8], from: usize) -> usize
    requires { is_reel reel.now ≡ true }
    ensures { result ≡ count_behind from (offsets reel.now) }
{
    let count = pieces::word(reel, 0);
    let mut blocks = 0;
    for i in 0..count {
        if from < pieces::word(reel, 4 * i + 8) {
            blocks += 1;
        }
    }
    blocks
}

// In FF: how many blocks so many records make, where they are filled: each but the last has as many as fit.
fn blocks_filled(task: Task, records: usize) -> usize
    requires { (1 ≤ task.width) × (task.width ≤ task.limit) × (task.limit ≤ 65536) × (records ≤ 65536) }
    ensures { result ≡ (records + task.limit / task.width - 1) / (task.limit / task.width) }
{
    let most = task.limit / task.width;
    (records + most - 1) / most
}

// In FF: how many blocks the records from a place on make. In TF each input block that ends behind it makes one.
fn fixed_blocks(task: Task, reel: &[u8], from: usize, records: usize) -> usize
    requires { FixedFrom task reel.now from records }
    ensures { FixedBlocks task reel.now result }
{
    match task.mode {
        Mode::TF => blocks_behind(reel, from),
        Mode::TC | Mode::TR | Mode::TRF => blocks_filled(task, records),
    }
}

// In FF each output fits, and all have one length: the measure is found by dividing.
fn measure_fixed(task: Task, reel: &[u8]) -> Measured
    requires measurable { Measurable task reel.now }
    requires format_value { task.format ≡ Format.FF }
    ensures { Measures task reel.now (Ok result) }
{
    let from = walks::fixed_start(tasks::form_of(task), reel, task.first);
    let records = walks::rest(reel, from).len() / task.n;
    let blocks = fixed_blocks(task, reel, from, records);
    Measured {
        blocks,
        records,
        length: 4 * blocks + 8 + records * task.width,
    }
}

// Whether the output of each record taken fits, and what the output reel measures.
pub fn measure(task: Task, reel: &[u8]) -> Result<Measured, TooLong>
    requires { Measurable task reel.now }
    ensures { Measures task reel.now result }
{
    match task.format {
        Format::FF => Ok(measure_fixed(task, reel)),
        Format::FV | Format::FU | Format::FS => measure_walked(task, reel),
    }
}
