// The fields of a plan as a row of numbers, five to a field: 64 fields are 320 numbers of 16 bits, a quarter of what 64 fields take as structs.
#![tactic(auto)]

ghost use Rattle.std.specs.Prelude.{◌≡◌, [], ◌∷◌, ◌+◌, ◌*◌, ◌≤◌, ◌<◌, length};
ghost use Rattle.rules.specs.Halves.{output_size, over};
ghost use Rattle.terms.specs.Meaning.{field_of};
ghost use Rattle.rows.specs.Flat.{flat_of, kind_at, field_at, Short};
ghost use Rattle.rows.specs.Kept.{row_of};

use terms::{Field, Kind};

// How many bytes a field writes: a copy has one size.
#[tactic(auto, unfolding(terms::specs::Meaning::field_of))]
fn output_size(f: Field) -> usize
    ensures { result ≡ output_size (field_of f).kind }
{
    match f.kind {
        Kind::Copy => f.input,
        Kind::Pack | Kind::Unpack => f.output,
    }
}

// Writes a field's five numbers from a place on.
#[tactic(auto, using(terms::proofs::FieldLaws::input_of_lem), unfolding(terms::specs::Meaning::field_of))]
pub fn put_numbers(row: &mut [u16; 320], at: usize, f: Field)
    requires row_len { length row.old ≡ 320 }
    requires at_bound { at + 5 ≤ 320 }
    requires short { Short (field_of f) }
    ensures { row.new ≡ over at (flat_of (field_of f ∷ [])) row.old }
{
    row[at] = u16::from(terms::kind_number(f.kind));
    row[at + 1] = f.r as u16;
    row[at + 2] = f.input as u16;
    row[at + 3] = output_size(f) as u16;
    row[at + 4] = f.t as u16;
}

// A number of the row. It stands beside usize::from since it promises too how large the number is, as terms::wide does of a byte.
pub fn wide(number: u16) -> usize
    ensures { (result ≡ number) × (result < 65536) }
{
    usize::from(number)
}

// The kind that a number names.
#[tactic(auto, unfolding(crate::specs::Flat::kind_at))]
fn kind_at(number: u16) -> Kind
    ensures { result ≡ kind_at number }
{
    match number {
        0 => Kind::Copy,
        1 => Kind::Pack,
        _ => Kind::Unpack,
    }
}

// Field i of the row, i from 0.
#[tactic(auto, unfolding(crate::specs::Flat::field_at))]
pub fn field_at(fields: &[u16], i: usize) -> Field
    requires { 5 * i + 5 ≤ length fields.now }
    ensures { result ≡ field_at fields.now i }
{
    let at = 5 * i;
    Field {
        kind: kind_at(fields[at]),
        r: wide(fields[at + 1]),
        input: wide(fields[at + 2]),
        output: wide(fields[at + 3]),
        t: wide(fields[at + 4]),
    }
}

// No field stands in the row.
pub fn clear(row: &mut [u16; 320])
    requires { length row.old ≡ 320 }
    ensures { row.new ≡ row_of [] }
{
    row.fill(0);
}
