// Each loss of a plan, where its answer names the lowest alone: why a half of an input record is lost, whether the tail is, and which field is the last that reads
// a half or writes a position.
#![tactic(auto)]

ghost use Rattle.std.specs.Prelude.{◌≡◌, Bool, List, ◌≤◌, length};
ghost use Rattle.rules.specs.Halves.{Field as RuleField};
ghost use Rattle.rules.specs.Plan.{record_length};
ghost use Rattle.rules.specs.Lent.{zone_f};
ghost use Rattle.rules.specs.Twins.{listed};
ghost use Rattle.rules.specs.Judge.{writes_at};
ghost use Rattle.rules.specs.Losses.{loss_at, is_tail_lost, last_from, last_reader, last_writer};
ghost use Rattle.terms.specs.Meaning.{size_of, field_of, plan_in};
ghost use Rattle.rows.specs.Kept.{fields_in};
ghost use Rattle.rows.specs.Fair.{PlanFair};
ghost use Rattle.sources.specs.Promise.{FieldInside, RowInside};
ghost use Rattle.losses.specs.Promise.{loss_of, Reasoned, place_of};

use terms::{Asked, Field};

// ---- each loss

// Why half h of records of n bytes is lost, where it is missing; else 0. Both are bytes: marks give way to reasons in one lent array, which no other would fit in.
fn loss(fields: &[u16], n: usize, h: usize, missing: u8) -> u8
    requires { RowInside fields.now n 4096 }
    ensures { result ≡ loss_of (fields_in fields.now) n h missing }
{
    if missing == 0 || 2 * n <= h {
        return 0;
    }
    u8::from(reasons::reason(fields, h))
}

// Each half that is missing gives way to the reason.
fn give_reasons(fields: &[u16], n: usize, halves: &mut [u8; 8192])
    requires row_inside { RowInside fields.now n 4096 }
    requires halves_len { length halves.old ≡ 8192 }
    ensures { Reasoned (fields_in fields.now) n halves.old halves.new }
{
    for (h, half) in halves.iter_mut().enumerate() {
        *half = loss(fields, n, h, *half);
    }
}

// Why each half is lost: 1 never read, 2 dropped by a short field, 3 covered later, or 0 where it is not.
pub fn losses(asked: Asked, fields: &[u16]) -> [u8; 8192]
    requires { PlanFair asked fields.now }
    ensures { result ≡ listed (loss_at (plan_in zone_f asked (fields_in fields.now))) 0 8192 }
{
    let mut halves = [0u8; 8192];
    let mode = asked.mode;
    if !terms::selects(mode) {
        return halves;
    }
    let input = asked.input;
    let output = asked.output;
    let n = terms::record_length(input);
    keeping::missing_halves(fields, n, terms::record_length(output), &mut halves);
    give_reasons(fields, n, &mut halves);
    halves
}

// Whether the tail is lost.
pub fn is_tail_lost(asked: Asked) -> bool
    requires { record_length (size_of asked.input) ≤ 4096 }
    ensures { (fs : List RuleField) → result ≡ is_tail_lost (plan_in zone_f asked fs) }
{
    let mode = asked.mode;
    let format = asked.format;
    let input = asked.input;
    let n = terms::record_length(input);
    let m = terms::block_length(input);
    terms::selects(mode) && !plans::tail_kept(format, asked.cv, n, m)
}

// ---- the last field

// The number, from 1, of the last field that passes a test of it and of a half or a position.
fn last<F: Fn(Field, usize) -> bool>(fields: &[u16], at: usize, passes: F) -> Option<usize>
    ghost test: { RuleField → Bool }
    requires row_inside { RowInside fields.now 4096 4096 }
    requires tests { (f : Field) → FieldInside 4096 4096 f → F.pre passes f at × ((r : Bool) → F.post passes f at r → r ≡ test (field_of f)) }
    ensures { result ≡ place_of (last_from test 0 1 (fields_in fields.now)) }
{
    for k in (0..fields.len() / 5).rev() {
        if passes(rows::field_at(fields, k), at) {
            return Some(k + 1);
        }
    }
    None
}

// The number of the last field that reads half h, from 1.
pub fn last_reader(fields: &[u16], h: usize) -> Option<usize>
    requires { RowInside fields.now 4096 4096 }
    ensures { result ≡ place_of (last_reader h (fields_in fields.now)) }
{
    last(fields, h, reasons::reads)
}

// Whether a field writes a position, from 1.
fn writes(f: Field, position: usize) -> bool
    requires { FieldInside 4096 4096 f }
    ensures { result ≡ writes_at position (field_of f) }
{
    f.t <= position && position < f.t + f.output
}

// The number of the last field that writes a position, both from 1.
pub fn last_writer(fields: &[u16], position: usize) -> Option<usize>
    requires { RowInside fields.now 4096 4096 }
    ensures { result ≡ place_of (last_writer position (fields_in fields.now)) }
{
    last(fields, position, writes)
}
