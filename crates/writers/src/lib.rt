// Writing a reel: the block count, then the offsets and the blocks, in FV in one pass along the records, in FF (`fixed`) without a walk. Document 01, "The reel" and
// "Blocks and records".
#![tactic(auto)]

ghost use Rattle.std.specs.Prelude.{◌≡◌, ◌+◌, ◌≤◌, length};
ghost use Rattle.rules.specs.Output.{cost};
ghost use Rattle.records.specs.Promise.{Covers};
ghost use Rattle.tasks.specs.Promise.{output_length_of};
ghost use Rattle.fixed.specs.Promise.{Lent, BodyPut};
ghost use Rattle.writers.specs.Promise.{Writable, DataPut, PiecePut, NextFits, NextPut, ReelPut};

use fillings::Tally;
use terms::{Format, Task};

// The output of a record, at the front of out: TR carries records unchanged.
fn put_data(task: Task, fields: &[u16], covered: bool, record: &[u8], out: &mut [u8])
    requires writable { Writable task fields.now «record».now }
    requires record_in_bounds { output_length_of task (length «record».now) ≤ length out.old }
    requires covers { Covers fields.now task.width covered }
    ensures { DataPut task fields.now «record».now out.old out.new }
{
    if terms::selects(task.mode) {
        records::put_record(
            fields,
            task.n,
            task.width,
            task.carries,
            covered,
            record,
            out,
        );
        return;
    }
    copies::copy(record, out);
}

// A record of a block, whose output has n bytes: its word, and its output behind it.
fn put_piece(
    task: Task,
    fields: &[u16],
    covered: bool,
    record: &[u8],
    n: usize,
    at: usize,
    out: &mut [u8],
)
    requires writable { Writable task fields.now «record».now }
    requires record_in_bounds { at + (task.cost + output_length_of task (length «record».now)) ≤ length out.old }
    requires covers { Covers fields.now task.width covered }
    requires n_value { (n ≡ output_length_of task (length «record».now)) × (task.format ≡ Format.FV) }
    ensures { PiecePut task fields.now «record».now at out.old out.new }
{
    pieces::put_length_word(out, at, n + 4);
    let from = at + task.cost;
    put_data(task, fields, covered, record, &mut out[from..]);
}

// A record in its place: where it opens a block, the block's offset; then the word of its block, which says the block's size so far; then its own word and its
// output. Since the block's word is put anew with each record, the blocks so far are whole after every record, and none has to be closed.
fn put_next(
    task: Task,
    fields: &[u16],
    covered: bool,
    record: &[u8],
    n: usize,
    base: usize,
    tally: Tally,
    more: Tally,
    out: &mut [u8],
)
    requires writable { Writable task fields.now «record».now }
    requires next_fits { NextFits task (length «record».now) base tally more (length out.old) }
    requires covers { Covers fields.now task.width covered }
    requires n_value { (n ≡ output_length_of task (length «record».now)) × (task.format ≡ Format.FV) }
    ensures { NextPut task fields.now «record».now base tally more out.old out.new }
{
    fillings::put_offset(base, tally, more, out);
    let end = base + more.bytes;
    let size = more.size;
    pieces::put_length_word(out, end - size, size);
    put_piece(task, fields, covered, record, n, end - (task.cost + n), out);
}

// In FV: one pass along the records from R on. The offsets go from place 4 on, and the blocks behind them. Whether the fields cover an output record is the
// same for every record, and so asked once.
fn write_walked(task: Task, fields: &[u16], reel: &[u8], blocks: usize, out: &mut [u8])
    requires lent { Lent task fields.now reel.now blocks (length out.old) }
    requires format_value { task.format ≡ Format.FV }
    ensures { BodyPut task fields.now reel.now blocks out.old out.new }
{
    let covered = records::covers(fields, task.width);
    let form = tasks::form_of(task);
    let base = 4 * blocks + 8;
    let mut walk = walks::taken(form, reel, task.first);
    let mut tally = Tally::default();
    while let Some(read) = walks::record(form, reel, walk) {
        let n = tasks::output_length(task, read.length);
        let more = fillings::tallied(task, tally, read.begins, n);
        let end = read.start + read.length;
        let record = &reel[read.start..end];
        put_next(task, fields, covered, record, n, base, tally, more, out);
        tally = more;
        walk = read.next;
    }
    pieces::put_word(out, 4 * blocks + 4, base + tally.bytes);
}

// The offsets from place 4 on, and behind them the blocks. FU has TC alone, whose output is its input; FS has writers of its own.
fn put_body(task: Task, fields: &[u16], reel: &[u8], blocks: usize, out: &mut [u8])
    requires { Lent task fields.now reel.now blocks (length out.old) }
    ensures { BodyPut task fields.now reel.now blocks out.old out.new }
{
    match task.format {
        Format::FF => fixed::write(task, fields, reel, blocks, out),
        Format::FV => write_walked(task, fields, reel, blocks, out),
        Format::FU | Format::FS => {}
    }
}

// Writes the reel of a plan's output blocks at the front of out, in TF, TR and TRF: the block count, then the offsets and the blocks. All refusals come before it.
pub fn write_reel(task: Task, fields: &[u16], reel: &[u8], blocks: usize, out: &mut [u8])
    requires { Lent task fields.now reel.now blocks (length out.old) }
    ensures { ReelPut task fields.now reel.now blocks out.old out.new }
{
    pieces::put_word(out, 0, blocks);
    put_body(task, fields, reel, blocks, out);
}
