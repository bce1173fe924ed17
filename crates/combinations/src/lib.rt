// The combinations that document 01 requires of the parameters, and that every field lies inside its records: refusals 8 and 9.
#![tactic(auto)]

ghost use Rattle.std.specs.Prelude.{◌≡◌, true, ◌&&◌, ◌||◌, ◌+◌, ◌≤◌, leb, eqb};
ghost use Rattle.rules.specs.Plan.{selects as ruleSelects, numbers as ruleNumbers, wanted as ruleWanted, inside};
ghost use Rattle.terms.specs.Meaning.{mode_of, format_of, size_of, field_of};
ghost use Rattle.rows.specs.Kept.{fields_in};
ghost use Rattle.combinations.specs.Lines.{copy_lines, count_line, lengths_equal, fixed_lines, FormatFair, format_lines, copy_equal, card_line, all_lines, key_line, lower_of};
ghost use Rattle.combinations.specs.Promise.{first_outside, answer_of, right_lines, fault, combined_of, FieldFair, FieldsFair, AskedFair};

use terms::{Asked, Field, Format, Mode, Size};

// ---- how many numbers

// How many numbers stand in A or B, and how many should.
fn numbers(size: Size) -> usize
    ensures { result ≡ ruleNumbers (size_of size) }
{
    match size {
        Size::Two { n: _, m: _ } => 2,
        Size::One { g: _ } => 1,
    }
}

fn wanted(mode: Mode, format: Format) -> usize
    ensures { result ≡ ruleWanted (mode_of mode) (format_of format) }
{
    match format {
        Format::FF => 2,
        Format::FU => 1,
        Format::FV => if terms::selects(mode) { 2 } else { 1 },
        Format::FS => 1,
    }
}

// ---- the lines of the paper

// FU only with TC. TC only with R1.
fn copies(mode: Mode, format: Format, first: usize) -> bool
    ensures { result ≡ copy_lines (mode_of mode) (format_of format) first }
{
    if terms::is_tc(mode) {
        first == 1
    } else {
        !terms::is_fu(format)
    }
}

// FF: two numbers each. FU and FS: one. FV: two with TF or TRF, else one.
fn counts(mode: Mode, format: Format, a: Size, b: Size) -> bool
    ensures { result ≡ count_line (mode_of mode) (format_of format) (size_of a) (size_of b) }
{
    let want = wanted(mode, format);
    numbers(a) == want && numbers(b) == want
}

// TC: A equals B, where as many numbers stand in both.
fn equal(a: Size, b: Size) -> bool
    ensures { result ≡ lengths_equal (size_of a) (size_of b) }
{
    terms::record_length(a) == terms::record_length(b)
        && terms::block_length(a) == terms::block_length(b)
}

// FF: m a multiple of n, in A and in B; TR: equal record lengths; TF: equal m divided by n.
fn fixed(mode: Mode, n: usize, m: usize, n2: usize, m2: usize) -> bool
    requires { (1 ≤ n) × (1 ≤ n2) }
    ensures { result ≡ fixed_lines (mode_of mode) n m n2 m2 }
{
    let alike = match mode {
        Mode::TC => true,
        Mode::TF => m / n == m2 / n2,
        Mode::TR => n == n2,
        Mode::TRF => true,
    };
    m % n == 0 && m2 % n2 == 0 && alike
}

// FV with two numbers: n+8 at most m, in A and in B.
fn roomy(n: usize, m: usize, n2: usize, m2: usize) -> bool
    requires { (n ≤ 4096) × (n2 ≤ 4096) }
    ensures { result ≡ (leb (n + 8) m && leb (n2 + 8) m2) }
{
    n + 8 <= m && n2 + 8 <= m2
}

// By the format, where as many numbers stand as are wanted. FS only with TC and TR.
fn by_format(mode: Mode, format: Format, a: Size, b: Size) -> bool
    requires format_fair { FormatFair (size_of a) (size_of b) }
    requires b_value { count_line (mode_of mode) (format_of format) (size_of a) (size_of b) ≡ true }
    ensures { result ≡ format_lines (mode_of mode) (format_of format) (size_of a) (size_of b) }
{
    let n = terms::record_length(a);
    let m = terms::block_length(a);
    let n2 = terms::record_length(b);
    let m2 = terms::block_length(b);
    match format {
        Format::FF => fixed(mode, n, m, n2, m2),
        Format::FU => true,
        Format::FV => !terms::selects(mode) || roomy(n, m, n2, m2),
        Format::FS => !terms::selects(mode),
    }
}

// TC: A equals B.
fn copied(mode: Mode, a: Size, b: Size) -> bool
    ensures { result ≡ copy_equal (mode_of mode) (size_of a) (size_of b) }
{
    !terms::is_tc(mode) || equal(a, b)
}

// TF and TRF need an FS card.
fn carded(mode: Mode, fs: usize) -> bool
    ensures { result ≡ card_line (mode_of mode) fs }
{
    !terms::selects(mode) || fs != 0
}

// The combinations whose place is 1.
#[tactic(auto, unfolding(crate::specs::Lines::all_lines))]
fn sound(mode: Mode, format: Format, a: Size, b: Size, first: usize, fs: usize) -> bool
    requires { FormatFair (size_of a) (size_of b) }
    ensures { result ≡ all_lines (mode_of mode) (format_of format) (size_of a) (size_of b) first fs }
{
    copies(mode, format, first)
        && counts(mode, format, a, b)
        && copied(mode, a, b)
        && carded(mode, fs)
        && by_format(mode, format, a, b)
}

// Keys only in FF with TF or TRF; 0 is no key.
fn keys_allowed(mode: Mode, format: Format, key: usize) -> bool
    ensures { result ≡ key_line (mode_of mode) (format_of format) key }
{
    key == 0 || terms::selects(mode) && terms::is_ff(format)
}

// All that the U card is asked.
#[tactic(auto, unfolding(crate::specs::Promise::right_lines))]
fn right(asked: Asked) -> bool
    requires { FormatFair (size_of asked.input) (size_of asked.output) }
    ensures { result ≡ right_lines asked }
{
    let mode = asked.mode;
    let format = asked.format;
    let input = asked.input;
    let output = asked.output;
    keys_allowed(mode, format, asked.key)
        && sound(mode, format, input, output, asked.first, asked.fs)
}

// TC and TR allow no FS card.
fn cards_allowed(mode: Mode, fs: usize) -> bool
    ensures { result ≡ (ruleSelects (mode_of mode) || eqb fs 0) }
{
    terms::selects(mode) || fs == 0
}

// The card of what is given where it is not allowed: CV only with FV, a field taken from the key only with keys. Of the cards 0 is none.
fn fault(allowed: bool, card: usize) -> Option<usize>
    ensures { result ≡ fault allowed card }
{
    if allowed || card == 0 {
        None
    } else {
        Some(card)
    }
}

// The lower of two cards.
fn lower(a: Option<usize>, b: Option<usize>) -> Option<usize>
    ensures { result ≡ lower_of a b }
{
    match (a, b) {
        (Some(x), Some(y)) => Some(x.min(y)),
        (Some(x), None) => Some(x),
        (None, other) => other,
    }
}

// ---- fields

// Whether a field lies inside records of so many bytes.
fn lies_inside(f: Field, a: usize, b: usize) -> bool
    requires { FieldFair f }
    ensures { result ≡ inside a b (field_of f) }
{
    f.r + f.input - 1 <= a && f.t + f.output - 1 <= b
}

// The number of the first field, from 1, that is outside its records.
fn first_outside(fields: &[u16], a: usize, b: usize) -> Option<usize>
    requires { FieldsFair fields.now }
    ensures { result ≡ first_outside a b 1 (fields_in fields.now) }
{
    for i in 0..fields.len() / 5 {
        if !lies_inside(rows::field_at(fields, i), a, b) {
            return Some(i + 1);
        }
    }
    None
}

// Refusals 8 and 9: a combination that document 01 does not allow, or a field outside its records.
#[derive(Clone, Copy, Debug, PartialEq, Eq)]
pub enum Unsound {
    Broken { place: usize },
    Outside { field: usize },
}

// Place 1 before an FS card in TC or TR before CV outside FV and a field taken from the key without keys; then the fields.
pub fn combine(asked: Asked, fields: &[u16]) -> Result<(), Unsound>
    requires { AskedFair asked fields.now }
    ensures { answer_of result ≡ combined_of asked (fields_in fields.now) }
{
    if !right(asked) {
        return Err(Unsound::Broken { place: 1 });
    }
    let mode = asked.mode;
    if !cards_allowed(mode, asked.fs) {
        return Err(Unsound::Broken { place: 2 });
    }
    let format = asked.format;
    let cv = fault(terms::is_fv(format), asked.cv);
    let keyed = fault(asked.key != 0, asked.keyed);
    if let Some(place) = lower(cv, keyed) {
        return Err(Unsound::Broken { place });
    }
    let input = asked.input;
    let output = asked.output;
    let a = terms::record_length(input);
    let b = terms::record_length(output);
    match first_outside(fields, a, b) {
        Some(field) => Err(Unsound::Outside { field }),
        None => Ok(()),
    }
}
