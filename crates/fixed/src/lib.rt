// Writing the blocks of FF: the records taken stand one behind the other, through all input blocks, and so do their outputs, through all output blocks. So no
// record is walked to. Document 01, "The reel" and "Blocks and records".
#![tactic(auto)]

ghost use Rattle.std.specs.Prelude.{◌≡◌, ◌+◌, ◌*◌, length};
ghost use Rattle.fixed.specs.Promise.{Lent, BodyPut};
ghost use Rattle.fixed.specs.Fixed.{OutputsFit, OutputsPut, BytesFit, BytesPut, EndsFit, EndsPut};

use terms::{Format, Mode, Task};

// The outputs of records of n bytes, of m bytes each: the part from the current offset is lent to the record writer.
fn put_outputs(fields: &[u16], n: usize, width: usize, data: &[u8], out: &mut [u8])
    requires { OutputsFit fields.now n width «data».now (length out.old) }
    ensures { OutputsPut fields.now n width «data».now out.old out.new }
{
    let covered = records::covers(fields, width);
    // Two places go on, each by its own width: what chunks_mut lends, a proof does not see again, and chunks of the data alone leave the other place to count.
    let mut at = 0;
    let mut to = 0;
    while at < data.len() {
        let end = at + n;
        records::put_record(
            fields,
            n,
            width,
            false,
            covered,
            &data[at..end],
            &mut out[to..],
        );
        at = end;
        to += width;
    }
}

// The outputs of all records taken: TR carries records unchanged, so that all of them are copied at once.
fn put_bytes(task: Task, fields: &[u16], data: &[u8], out: &mut [u8])
    requires { BytesFit task fields.now «data».now (length out.old) }
    ensures { BytesPut task fields.now «data».now out.old out.new }
{
    if terms::selects(task.mode) {
        put_outputs(fields, task.n, task.width, data, out);
    } else {
        copies::copy(data, out);
    }
}

// The offsets: in TF a block ends where its input block does, in TR and TRF each block but the last has as many records as fit.
fn put_ends(task: Task, reel: &[u8], from: usize, records: usize, base: usize, out: &mut [u8])
    requires { EndsFit task reel.now from records base (length out.old) }
    ensures { EndsPut task reel.now base out.old out.new }
{
    let step = task.limit / task.width * task.width;
    let end = base + records * task.width;
    match task.mode {
        Mode::TF => offsets::put_each(task.n, task.width, reel, from, base, out),
        Mode::TC | Mode::TR | Mode::TRF => offsets::put_steps(step, base, end, out),
    }
}

// The offsets from place 4 on, and behind them the blocks.
pub fn write(task: Task, fields: &[u16], reel: &[u8], blocks: usize, out: &mut [u8])
    requires lent { Lent task fields.now reel.now blocks (length out.old) }
    requires format_value { task.format ≡ Format.FF }
    ensures { BodyPut task fields.now reel.now blocks out.old out.new }
{
    let from = walks::fixed_start(tasks::form_of(task), reel, task.first);
    let data = walks::rest(reel, from);
    let base = 4 * blocks + 8;
    put_ends(task, reel, from, data.len() / task.n, base, out);
    put_bytes(task, fields, data, &mut out[base..]);
}
