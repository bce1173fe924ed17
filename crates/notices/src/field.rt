// The field that people are told of where a byte is lost or wrong: the last that reads it, or that writes it.
ghost use Rattle.std.specs.Prelude.{◌*◌, ◌≤◌, length, IfSome};

use terms::Field;

// A field of a plan by its number, from 1.
#[derive(Clone, Copy)]
pub struct Numbered {
    pub number: usize,
    pub field: Field,
}

// Whether a byte is among so many from a position on. Bytes and positions count from 1.
fn is_among(from: usize, size: usize, byte: usize) -> bool {
    from <= byte && byte - from < size
}

// The last field of which this holds.
fn last<F: Fn(Field) -> bool>(fields: &[u16], holds: F) -> Option<Numbered>
    requires { F.IsAlwaysCallable holds }
    ensures { IfSome result (λ last. (1 ≤ last.number) × (5 * last.number ≤ length fields.now)) }
{
    for k in (0..fields.len() / 5).rev() {
        let field = rows::field_at(fields, k);
        if holds(field) {
            return Some(Numbered {
                number: k + 1,
                field,
            });
        }
    }
    None
}

// The last field that reads a byte of the input, key and data counted through.
pub fn last_reader(fields: &[u16], byte: usize) -> Option<Numbered>
    ensures { IfSome result (λ last. (1 ≤ last.number) × (5 * last.number ≤ length fields.now)) }
{
    last(fields, |field| is_among(field.r, field.input, byte))
}

// The last field that writes a byte of the output.
pub fn last_writer(fields: &[u16], byte: usize) -> Option<Numbered>
    ensures { IfSome result (λ last. (1 ≤ last.number) × (5 * last.number ≤ length fields.now)) }
{
    last(fields, |field| is_among(field.t, field.output, byte))
}
