// Writing the output of one record. Document 01, "Blocks and records" and "Half bytes". The fields of a plan are lent for every
// record as a row of numbers, five to a field, so that no record copies the plan.
#![tactic(auto)]

ghost use Rattle.std.specs.Prelude.{◌≡◌, cond, ◌+◌, ◌-◌, ◌≤◌, ◌<◌, length, replicate};
ghost use Rattle.rules.specs.Halves.{output_size};
ghost use Rattle.rules.specs.Lent.{zone_f};
ghost use Rattle.rules.specs.Rows.{KindWithin};
ghost use Rattle.rules.specs.RecordParts.{converted_bytes};
ghost use Rattle.terms.specs.Meaning.{kind_of};
ghost use Rattle.rows.specs.Flat.{kind_at, Fielded};
ghost use Rattle.records.specs.Promise.{FieldsWritten, Puts, Covers, farther_of, ground_of};

use terms::Field;

// What stands where no field writes.
const BLANK: u8 = 0x40;

// Writes a field into its own part of the output. The kind is matched as the number of the row: by the enum, runs with short fields were slower (docs/DECISIONS.md, D180).
fn put_field(kind: u16, input: &[u8], out: &mut [u8])
    requires kind_within { KindWithin (kind_of (kind_at kind) (length input.now) (length out.old)) }
    requires out_value { output_size (kind_of (kind_at kind) (length input.now) (length out.old)) ≡ length out.old }
    ensures { out.new ≡ converted_bytes zone_f (kind_of (kind_at kind) (length input.now) (length out.old)) input.now }
{
    if kind == 0 {
        copies::copy(input, out);
        return;
    }
    if kind == 1 {
        halves::pack(input, out);
        return;
    }
    halves::unpack(input, out);
}

// Writes the fields in order, a later one over an earlier one.
pub fn put_fields(fields: &[u16], record: &[u8], out: &mut [u8])
    requires { Fielded fields.now (length «record».now) (length out.old) }
    ensures { FieldsWritten fields.now «record».now out.old out.new }
{
    for i in 0..fields.len() / 5 {
        let f = rows::field_at(fields, i);
        let from = f.r - 1;
        let end = from + f.input;
        let to = f.t - 1;
        let past = to + f.output;
        put_field(fields[5 * i], &record[from..end], &mut out[to..past]);
    }
}

// How many bytes are covered from the first on, with a field besides: none more where it begins behind them, as it leaves a gap.
fn farther(f: Field, covered: usize) -> usize
    requires { (f.t < 65536) × (f.output < 65536) }
    ensures { result ≡ farther_of (f.t - 1) f.output covered }
{
    let to = f.t.saturating_sub(1);
    if covered < to {
        return covered;
    }
    covered.max(to + f.output)
}

// Whether the fields, taken in their order, cover an output record of width bytes from its first byte on, so that no blank stays. A gap that a later
// field fills is taken for one: blanks are then put for nothing.
pub fn covers(fields: &[u16], width: usize) -> bool
    ensures { Covers fields.now width result }
{
    let mut covered = 0;
    for i in 0..fields.len() / 5 {
        covered = farther(rows::field_at(fields, i), covered);
    }
    width <= covered
}

// Lays the blanks that the fields are written over, unless the fields cover them all.
fn put_ground(width: usize, covered: bool, out: &mut [u8])
    requires { width ≤ length out.old }
    ensures { out.new ≡ ground_of width covered out.old }
{
    if !covered {
        out[..width].fill(BLANK);
    }
}

// Writes the output of a record at the front of out: B's n bytes of hex 40, then the fields, and with CV the data past A's n.
pub fn put_record(
    fields: &[u16],
    n: usize,
    width: usize,
    carries: bool,
    covered: bool,
    record: &[u8],
    out: &mut [u8],
)
    requires fielded { Fielded fields.now n width }
    requires n_in_bounds { n ≤ length «record».now }
    requires n_in_bounds_2 { width + cond carries (length «record».now - n) 0 ≤ length out.old }
    requires covers { Covers fields.now width covered }
    requires record_len_bound { length «record».now ≤ 65536 }
    ensures { Puts fields.now n width carries «record».now out.old out.new }
{
    put_ground(width, covered, out);
    put_fields(fields, record, out);
    if carries {
        let end = width + (record.len() - n);
        copies::copy(&record[n..], &mut out[width..end]);
    }
}
