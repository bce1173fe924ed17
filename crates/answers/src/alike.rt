// What is answered where twins are asked for, and what is left of an output of which a part was lent, as words of a line.
ghost use Rattle.std.specs.Prelude.{◌≤◌, length};

use crate::{digest, shown, text};
use std::io::Print;
use twins::Twins;
use words::phrase;

fn tell_answer(to: &impl Print, answer: Twins) {
    shown::numbers(
        to,
        &[
            answer.refusal,
            answer.place,
            answer.column,
            answer.reason,
            answer.length,
        ],
    );
}

// The twins of a deck into the first bytes of an output that was marked.
pub(crate) fn tell(to: &impl Print, deck: &[u8], out: &mut [u8], lent: usize)
    requires { lent ≤ length out.old }
{
    let answer = bhexodana::bhx_twins(deck, &mut out[..lent]);
    tell_answer(to, answer);
    phrase(to, format_args!(" {} ", digest::of_bytes(out).number));
    shown::written(to, answer.refusal, text::first(out, answer.length));
}
