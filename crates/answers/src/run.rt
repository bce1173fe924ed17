// What a run answers, and what it leaves of an output of which a part was lent, as words of a line.
ghost use Rattle.std.specs.Prelude.{◌≤◌, length};

use crate::{digest, shown, text};
use outcomes::Ran;
use std::io::Print;
use words::phrase;

// Fills all of an output with a pattern, against which it is seen which bytes a run changes.
pub(crate) fn mark(out: &mut [u8]) {
    for (i, byte) in out.iter_mut().enumerate() {
        *byte = (i % 251) as u8;
    }
}

fn tell_answer(to: &impl Print, answer: Ran) {
    shown::numbers(
        to,
        &[
            answer.refusal,
            answer.place,
            answer.column,
            answer.length,
            answer.records,
            answer.blocks,
        ],
    );
}

// The run of a deck over a reel into the first bytes of an output that was marked.
pub(crate) fn tell(to: &impl Print, deck: &[u8], reel: &[u8], out: &mut [u8], lent: usize)
    requires { lent ≤ length out.old }
{
    let answer = bhexodana::bhx_run(deck, reel, &mut out[..lent]);
    tell_answer(to, answer);
    phrase(to, format_args!(" {} ", digest::of_bytes(out).number));
    shown::written(to, answer.refusal, text::first(out, answer.length));
}
