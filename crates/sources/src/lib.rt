// Where each half byte of an output record is taken from (document 01, "Half bytes").
#![tactic(auto)]

ghost use Rattle.std.specs.Prelude.{◌≡◌, ℕ, ◌*◌, ◌<◌, length};
ghost use Rattle.rules.specs.Halves.{sources as sourcesBy};
ghost use Rattle.rules.specs.Lent.{zone_f};
ghost use Rattle.rows.specs.Kept.{fields_in};
ghost use Rattle.sources.specs.Promise.{FieldInside, RowInside, AllZero, SourceIs, SourcesAfter, Stand};

use terms::{Field, Kind};

// A source is the number of an input half, counted from 1, or 0 for a fill, a zone or a blank, which are taken from none.

// The source of half j of what a copy writes: its places are counted as wide as they are stored, which lets the compiler store many at a time.
fn copy_source(f: Field, j: usize) -> u16
    requires field_inside { FieldInside 4096 4096 f }
    requires j_bound { (j < 2 * f.output) × (f.kind ≡ Kind.Copy) }
    ensures { SourceIs f j result }
{
    (2 * f.r - 1) as u16 + j as u16
}

// The source of half j of what a pack writes: the last byte's halves change places, the other low halves follow leftwards, then comes fill.
fn pack_source(f: Field, j: usize) -> u16
    requires field_inside { FieldInside 4096 4096 f }
    requires j_bound { (j < 2 * f.output) × (f.kind ≡ Kind.Pack) }
    ensures { SourceIs f j result }
{
    let end = 2 * (f.r + f.input) - 1;
    let right = 2 * f.output - 1 - j;
    if right == 0 {
        return (end - 2) as u16;
    }
    if right == 1 {
        return (end - 1) as u16;
    }
    if right <= f.input {
        return (end + 1 - 2 * right) as u16;
    }
    0
}

// The source of half j of what an unpack writes: the last byte's halves change places, every other half has a byte of its own with the zone
// before it, then comes fill.
fn unpack_source(f: Field, j: usize) -> u16
    requires field_inside { FieldInside 4096 4096 f }
    requires j_bound { (j < 2 * f.output) × (f.kind ≡ Kind.Unpack) }
    ensures { SourceIs f j result }
{
    let end = 2 * (f.r + f.input) - 1;
    let right = 2 * f.output - 1 - j;
    if right == 0 {
        return (end - 2) as u16;
    }
    if right == 1 {
        return (end - 1) as u16;
    }
    if right % 2 == 1 {
        return 0;
    }
    if right / 2 + 1 < 2 * f.input {
        return (end - 2 - right / 2) as u16;
    }
    0
}

// The sources of what a field writes, in their places: half j has the one that is asked for it. Each kind has a walk of its own, so that no kind is asked at each half.
fn put_sources<F: Fn(usize) -> u16>(f: Field, source: F, out: &mut [u16; 8192])
    requires field_inside { FieldInside 4096 4096 f }
    requires out_len { length out.old ≡ 8192 }
    requires askable { (j : ℕ) → j < 2 * f.output → F.pre source j }
    requires answers { (j s : ℕ) → j < 2 * f.output → F.post source j s → SourceIs f j s }
    ensures { SourcesAfter f out.old out.new }
{
    let to = 2 * f.t - 2;
    for j in 0..2 * f.output {
        out[to + j] = source(j);
    }
}

// The sources of what a field writes, in their places.
fn field_sources(f: Field, out: &mut [u16; 8192])
    requires field_inside { FieldInside 4096 4096 f }
    requires out_len { length out.old ≡ 8192 }
    ensures { SourcesAfter f out.old out.new }
{
    match f.kind {
        Kind::Copy => put_sources(f, |j| copy_source(f, j), out),
        Kind::Pack => put_sources(f, |j| pack_source(f, j), out),
        Kind::Unpack => put_sources(f, |j| unpack_source(f, j), out),
    }
}

// The source of each half of the output record after all fields, a later one over an earlier one.
pub fn sources(fields: &[u16], out: &mut [u16; 8192])
    requires row_inside { RowInside fields.now 4096 4096 }
    requires all_zero { AllZero out.old }
    ensures { (length out.new ≡ 8192) × ((n m : ℕ) → RowInside fields.now n m → Stand out.new (sourcesBy zone_f m (fields_in fields.now) (2 * n))) }
{
    for i in 0..fields.len() / 5 {
        field_sources(rows::field_at(fields, i), out);
    }
}
