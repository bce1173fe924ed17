// What becomes of a half in a field of a plan.
ghost use Rattle.std.specs.Prelude.{◌≤◌};

use notices::Numbered;
use std::io::Print;
use terms::{Field, Kind};

// A number of a field, which on a card is 1 to 4,096: said so that sums of them are seen to fit.
fn within(n: usize) -> usize
    ensures { (1 ≤ result) × (result ≤ 4096) }
{
    n.clamp(1, 4096)
}

// How many digits go into what a field writes: to pack, all halves are digits but the sign, and else each byte has one.
pub(crate) fn digits(f: Field) -> usize {
    let m = within(f.output);
    match f.kind {
        Kind::Copy | Kind::Unpack => m,
        Kind::Pack => 2 * m - 1,
    }
}

// How many bytes stand behind a byte in what the field reads.
fn behind(f: Field, byte: usize) -> usize
    ensures { result ≤ 8191 }
{
    (within(f.r) + within(f.input) - 1).saturating_sub(byte)
}

// How many bytes stand in the output behind a half of a byte that has so many behind it in the input. The last byte of a pack or unpack goes to
// the last byte; of the others, leftwards, a pack puts two digits into a byte, and an unpack each half into one of its own.
fn moved(kind: Kind, behind: usize, is_low: bool) -> usize
    requires { behind ≤ 8191 }
{
    if behind == 0 {
        return 0;
    }
    match kind {
        Kind::Copy => behind,
        Kind::Pack => behind.div_ceil(2),
        Kind::Unpack => 2 * behind - usize::from(is_low),
    }
}

// The byte of the output, from 1, into which a field puts a half of the input record.
pub(crate) fn output_byte(f: Field, half: usize) -> usize {
    let back = moved(f.kind, behind(f, half / 2 + 1), half % 2 == 1);
    (within(f.t) + within(f.output) - 1).saturating_sub(back)
}

// Says a field by its number, its item and its card.
pub(crate) fn say_field(to: &impl Print, deck: &[u8], key: usize, numbered: Numbered) {
    notices::field_on_card(to, deck, key, numbered.number, numbered.field);
}
