// How programs say words: text, numbers, counts, and why a call of the system failed. They go to the writer that is lent, which programs take for standard error;
// what it does not take is lost.
#![tactic(auto)]

mod reason;

pub use reason::{because, fail};
use std::fmt::Display;
use std::io::Print;

// Says bytes, which need be no text: the name of a file or a card may be any.
pub fn say(to: &impl Print, text: &[u8]) {
    let _ = to.write_all(text);
}

// Says a text, a number, or what `format_args!` makes of them.
pub fn phrase(to: &impl Print, what: impl Display + Drop) {
    let _ = to.print(what);
}

pub fn number(to: &impl Print, n: usize) {
    phrase(to, n);
}

// Says so many of what has this name.
pub fn many(to: &impl Print, count: usize, name: &[u8]) {
    phrase(to, format_args!("{count} "));
    say(to, name);
    if count != 1 {
        phrase(to, "s");
    }
}
