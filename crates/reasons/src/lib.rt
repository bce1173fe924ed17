// Why a half of an input record is lost: by the last field that reads it (document 02, order 3).
#![tactic(auto)]

ghost use Rattle.std.specs.Prelude.{◌≡◌, true, ℕ, ◌+◌, ◌*◌, ◌≤◌};
ghost use Rattle.rules.specs.Halves.{reads_from, reads_many};
ghost use Rattle.rules.specs.Permitted.{reads as readsBy};
ghost use Rattle.rules.specs.Lent.{zone_f};
ghost use Rattle.rules.specs.Twins.{shows as showsBy, reason_of, reason_by};
ghost use Rattle.terms.specs.Meaning.{field_of};
ghost use Rattle.rows.specs.Kept.{fields_in};
ghost use Rattle.sources.specs.Promise.{FieldInside, RowInside};
ghost use Rattle.reasons.specs.Promise.{number_of};

use terms::{Field, Kind};

// No field reads the half; or the last one that does drops it; or it shows it, and a later field covers what it wrote.
#[derive(Clone, Copy, Debug, PartialEq, Eq)]
pub enum Cause {
    NeverRead,
    Dropped,
    Covered,
}

impl From<Cause> for u8 {
    ghost from_gives = { λ cause number. number ≡ number_of cause };

    fn from(cause: Cause) -> u8 {
        match cause {
            Cause::NeverRead => 1,
            Cause::Dropped => 2,
            Cause::Covered => 3,
        }
    }
}

// Whether a field reads half h.
pub fn reads(f: Field, h: usize) -> bool
    requires { FieldInside 4096 4096 f }
    ensures { result ≡ readsBy (field_of f) h }
{
    let from = 2 * f.r - 2;
    from <= h && h < from + 2 * f.input
}

// Whether what a field writes holds half h, which it reads. `right` counts the halves to the right of it: a pack or an unpack keeps the last byte, and of the
// digits before it as many as it has room for; a pack keeps no zone.
fn shows(f: Field, h: usize) -> bool
    requires field_inside { FieldInside 4096 4096 f }
    requires h_value { readsBy (field_of f) h ≡ true }
    ensures { (many : ℕ) → reads_from (field_of f) + reads_many (field_of f) ≤ many → result ≡ showsBy zone_f many h (field_of f) }
{
    let right = 2 * (f.r + f.input) - 3 - h;
    let kind = f.kind;
    match kind {
        Kind::Copy => true,
        Kind::Pack => right < 2 || right % 2 == 0 && right / 2 + 1 < 2 * f.output,
        Kind::Unpack => right < 2 || right <= f.output,
    }
}

// Of a field that reads half h: covered later, or dropped by it.
fn reason_of(f: Field, h: usize) -> Cause
    requires field_inside { FieldInside 4096 4096 f }
    requires h_value { readsBy (field_of f) h ≡ true }
    ensures { (many : ℕ) → reads_from (field_of f) + reads_many (field_of f) ≤ many → number_of result ≡ reason_of zone_f many h (field_of f) }
{
    if shows(f, h) {
        Cause::Covered
    } else {
        Cause::Dropped
    }
}

// The last field that reads half h decides; where none does, it is never read.
pub fn reason(fields: &[u16], h: usize) -> Cause
    requires { RowInside fields.now 4096 4096 }
    ensures { (n m : ℕ) → RowInside fields.now n m → number_of result ≡ reason_by zone_f (2 * n) h 1 (fields_in fields.now) }
{
    let mut reason = Cause::NeverRead;
    for k in 0..fields.len() / 5 {
        let f = rows::field_at(fields, k);
        if reads(f, h) {
            reason = reason_of(f, h);
        }
    }
    reason
}
