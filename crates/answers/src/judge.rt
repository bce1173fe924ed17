// What is answered of a reel from elsewhere, as words of a line.
use crate::shown;
use std::io::Print;

pub(crate) fn tell(to: &impl Print, deck: &[u8], ours: &[u8], theirs: &[u8]) {
    let answer = bhexodana::bhx_judge(deck, ours, theirs);
    shown::numbers(
        to,
        &[
            answer.refusal,
            answer.place,
            answer.column,
            answer.yes,
            answer.number,
        ],
    );
}
