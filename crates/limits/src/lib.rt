// The limits of numbers on cards: which number is the first outside its own, by its column. Refusal 7 of document 01, with the columns of document 02, order 1.
#![tactic(auto)]

ghost use Rattle.std.specs.Prelude.{◌≡◌, cond, ◌-◌, ◌≤◌};
ghost use Rattle.rules.specs.Base.{within};
ghost use Rattle.rules.specs.Words.{outside_column, first_column};
ghost use Rattle.rules.specs.Asked.{least, size_numbers, input_numbers};
ghost use Rattle.terms.specs.Meaning.{format_of, size_of, input_of, OneSize};
ghost use Rattle.limits.specs.Limits.{Reaches, shifted, size_places, input_places, most_of, field_outside, parameter_outside};

use readers::{Places, UParameter};
use terms::{Field, Format, Input, Kind, Part, Size};

// The column of a number that is outside its limits, or 0.
// Kept 0 for none, here and in all of this file: the rules and the answers to C give a column so, and an Option would be turned back into that number.
fn number_outside(low: usize, high: usize, number: usize, column: usize) -> usize
    ensures { result ≡ cond (within low high number) 0 column }
{
    if (low..=high).contains(&number) {
        return 0;
    }
    column
}

// The first of two columns or cards; 0 is none.
pub fn first_of(noted: usize, next: usize) -> usize
    ensures { result ≡ first_column noted next }
{
    if noted == 0 {
        return next;
    }
    noted
}

// The most that a field's sizes may be.
fn most(kind: Kind) -> usize
    ensures { result ≡ most_of kind }
{
    match kind {
        Kind::Copy => 4096,
        Kind::Pack | Kind::Unpack => 16,
    }
}

// The column of the first number of a field that is outside its limits, or 0. The field begins at this column.
pub fn field_outside(part: Part, field: Field, places: Places, column: usize) -> usize
    requires { OneSize field.kind field.input field.output × (1 ≤ column) × Reaches column places.r × Reaches column places.input × Reaches column places.output × Reaches column places.t }
    ensures { result ≡ field_outside part field places column }
{
    let kind = field.kind;
    let most = most(kind);
    let r = number_outside(1, 4096, field.r, column + places.r);
    let input = number_outside(1, most, field.input, column + places.input);
    let output = number_outside(1, most, field.output, column + places.output);
    let t = number_outside(1, 4096, field.t, column + places.t);
    first_of(first_of(r, input), first_of(output, t))
}

// The least that a single size may be.
fn least(format: Format) -> usize
    ensures { result ≡ least (format_of format) }
{
    match format {
        Format::FF | Format::FU => 1,
        Format::FV | Format::FS => 9,
    }
}

// The column of the first number of A or B that is outside its limits, or 0, where F is this. The parameter begins at this column.
fn size_outside(format: Format, size: Size, second: usize, column: usize) -> usize
    requires { Reaches column 3 × Reaches column second }
    ensures { result ≡ outside_column (shifted column (size_places size second)) (size_numbers (format_of format) (size_of size)) }
{
    match size {
        Size::Two { n, m } => {
            let first = number_outside(1, 4096, n, column + 3);
            first_of(first, number_outside(1, 32760, m, column + second))
        }
        Size::One { g } => number_outside(least(format), 32760, g, column + 3),
    }
}

// What a key of so many bytes leaves of 4,096.
fn left(key: usize) -> usize
    ensures { result ≡ 4096 - key }
{
    4096usize.saturating_sub(key)
}

// The same of what A says.
fn input_outside(format: Format, input: Input, second: usize, column: usize) -> usize
    requires { Reaches column 5 × Reaches column second }
    ensures { result ≡ outside_column (shifted column (input_places input second)) (input_numbers (format_of format) (input_of input)) }
{
    match input {
        Input::Plain(size) => size_outside(format, size, second, column),
        Input::Keyed { key, data } => {
            let first = number_outside(1, 4096, key, column + 5);
            first_of(first, number_outside(1, left(key), data, column + second))
        }
    }
}

// The column of the first number of a parameter that is outside its limits, or 0, where F is this.
pub fn parameter_outside(
    format: Format,
    parameter: UParameter,
    second: usize,
    column: usize,
) -> usize
    requires { Reaches column 5 × Reaches column second }
    ensures { result ≡ parameter_outside (format_of format) parameter second column }
{
    match parameter {
        UParameter::InputIs(input) => input_outside(format, input, second, column),
        UParameter::OutputIs(size) => size_outside(format, size, second, column),
        UParameter::FirstIs(n) => number_outside(1, 65536, n, column + 1),
        UParameter::ModeIs(_)
        | UParameter::FormatIs(_)
        | UParameter::RewindIn
        | UParameter::RewindOut => 0,
    }
}
