// Permitted values: whether a record's halves have them (refusal 13), and whether the fields of a plan ask for any. Document 01, "Half bytes".
#![tactic(auto)]

ghost use Rattle.std.specs.Prelude.{◌≡◌, ◌&&◌, ℕ, ◌/◌, ◌%◌, ◌≤◌, eqb, length};
ghost use Rattle.rules.specs.Halves.{halves};
ghost use Rattle.rules.specs.Permitted.{digit, sign, kind_allows};
ghost use Rattle.rules.specs.Output.{may_be};
ghost use Rattle.rules.specs.Lent.{zone_f};
ghost use Rattle.terms.specs.Meaning.{kind_of};
ghost use Rattle.rows.specs.Flat.{kind_at, Readable};
ghost use Rattle.values.specs.Promise.{Passes, Permits, FieldsAsk};

use terms::{Kind, ZONE};

// The digit 0 with F before it.
const ZERO: u8 = 16 * ZONE;

// The digit 9 with F before it.
const NINE: u8 = ZERO + 9;

// 0 to 9.
fn is_digit(half: u8) -> bool
    ensures { result ≡ digit half }
{
    half <= 9
}

// A to F.
fn is_sign(half: u8) -> bool
    ensures { result ≡ sign half }
{
    (10..=15).contains(&half)
}

// A digit with F before it.
fn is_zoned(byte: u8) -> bool
    ensures { result ≡ (eqb (byte / 16) zone_f && digit (byte % 16)) }
{
    (ZERO..=NINE).contains(&byte)
}

// Two digits.
fn are_digits(byte: u8) -> bool
    ensures { result ≡ (digit (byte / 16) && digit (byte % 16)) }
{
    is_digit(byte / 16) && is_digit(byte % 16)
}

// A sign before a digit: the last byte of what is packed.
fn is_zoned_end(byte: u8) -> bool
    ensures { result ≡ (sign (byte / 16) && digit (byte % 16)) }
{
    is_sign(byte / 16) && is_digit(byte % 16)
}

// A digit before a sign: the last byte of what is unpacked.
fn is_packed_end(byte: u8) -> bool
    ensures { result ≡ (digit (byte / 16) && sign (byte % 16)) }
{
    is_digit(byte / 16) && is_sign(byte % 16)
}

// Whether every byte but the last passes one test, and the last one another.
#[tactic(auto, unfolding(crate::specs::Promise::Passes))]
fn pass<F: Fn(u8) -> bool, G: Fn(u8) -> bool>(input: &[u8], each: F, end: G) -> bool
    requires some { 1 ≤ length input.now }
    requires each_callable { F.IsAlwaysCallable each }
    requires end_callable { G.IsAlwaysCallable end }
    ensures { Passes (F.post each) (G.post end) input.now result }
{
    let last = input.len() - 1;
    for byte in &input[..last] {
        if !each(*byte) {
            return false;
        }
    }
    end(input[last])
}

// Whether a field of a kind may have this input, whatever its output size. A copy takes any halves, so they are not looked at. The kind is compared as the number of the
// row: by the enum, runs with short fields were slower (docs/DECISIONS.md, D180).
fn input_permitted(kind: u16, input: &[u8]) -> bool
    requires { 1 ≤ length input.now }
    ensures { (m : ℕ) → result ≡ may_be (kind_allows zone_f (kind_of (kind_at kind) (length input.now) m)) 0 (halves input.now) }
{
    if kind == 0 {
        return true;
    }
    if kind == 1 {
        return pass(input, is_zoned, is_zoned_end);
    }
    pass(input, are_digits, is_packed_end)
}

// Whether the halves of a record are permitted, field by field: halves that no field reads may be any.
pub fn permitted(fields: &[u16], record: &[u8]) -> bool
    requires { Readable fields.now (length «record».now) }
    ensures { Permits fields.now «record».now result }
{
    for i in 0..fields.len() / 5 {
        let f = rows::field_at(fields, i);
        let from = f.r - 1;
        let end = from + f.input;
        if !input_permitted(fields[5 * i], &record[from..end]) {
            return false;
        }
    }
    true
}

// Whether some field asks something of the halves that it reads: a copy takes any.
pub fn asks(fields: &[u16]) -> bool
    ensures { FieldsAsk fields.now result }
{
    for i in 0..fields.len() / 5 {
        let kind = rows::field_at(fields, i).kind;
        if !matches!(kind, Kind::Copy) {
            return true;
        }
    }
    false
}
