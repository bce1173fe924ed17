// Key and data of a record, joined (document 02, order 5): what A is then, how long the key is, and where a field stands that counts through both.
#![tactic(auto)]

ghost use Rattle.std.specs.Prelude.{◌≡◌};
ghost use Rattle.terms.specs.Meaning.{field_of, part_of, card_field, laid_at, laid as laidField};
ghost use Rattle.keys.specs.Keys.{together, joined_of, key_of, Layable};

use terms::{Field, Input, Part, Size};

// The bytes of key and data together; 0 where one of them is outside its limits, which is refused.
fn together(key: usize, own: usize) -> usize
    ensures { result ≡ together key own }
{
    if key <= 4096 && own <= 4096 {
        return key + own;
    }
    0
}

// What A is where key and data are joined.
pub fn joined(input: Input) -> Size
    ensures { result ≡ joined_of input }
{
    match input {
        Input::Plain(size) => size,
        Input::Keyed { key, data } => {
            let n = together(key, data);
            Size::Two { n, m: n }
        }
    }
}

// How long the key is; 0 where there is none, or one outside its limits, which is refused.
pub fn key_length(input: Input) -> usize
    ensures { result ≡ key_of input }
{
    match input {
        Input::Keyed { key, .. } if key <= 4096 => key,
        _ => 0,
    }
}

// Where a field that reads so many bytes from position r of its part on stands in the row, behind a key of so many bytes: it counts through key and data. One
// that is taken from the key and runs past it stands past every record.
fn laid_at(part: Part, r: usize, size: usize, key: usize) -> usize
    requires { Layable r size key }
    ensures { result ≡ laid_at key (part_of part) r size }
{
    match part {
        Part::Data => key + r,
        Part::Key => {
            if r + size <= key + 1 {
                return r;
            }
            8192
        }
    }
}

// The field as it stands there.
pub fn laid(part: Part, field: Field, key: usize) -> Field
    requires { Layable field.r field.input key }
    ensures { (field_of result ≡ laidField key (card_field part field)) × (result.output ≡ field.output) }
{
    Field {
        r: laid_at(part, field.r, field.input, key),
        ..field
    }
}
