// What every answer shows alike.
use std::io::Print;
use words::{phrase, say};

// The numbers of an answer, with a blank between.
pub(crate) fn numbers(to: &impl Print, numbers: &[usize]) {
    for (i, number) in numbers.iter().enumerate() {
        if i > 0 {
            say(to, b" ");
        }
        phrase(to, format_args!("{number}"));
    }
}

pub(crate) fn refusal(to: &impl Print, refusal: usize, place: usize, column: usize) {
    numbers(to, &[refusal, place, column]);
}

// Bytes in hex; `-` for none.
pub(crate) fn bytes(to: &impl Print, s: &[u8]) {
    if s.is_empty() {
        say(to, b"-");
    }
    for byte in s {
        say(to, &hexadecimal::hex(*byte));
    }
}

// What a call wrote, in hex where it is short; `-` where it was refused.
pub(crate) fn written(to: &impl Print, refusal: usize, s: &[u8]) {
    if refusal != 0 {
        say(to, b"-");
    } else if s.len() > 64 {
        say(to, b"..");
    } else {
        bytes(to, s);
    }
}
