// What programs tell people: the line of numbers on standard output, and in plain words on standard error what was refused, where, and what was found, or what
// a plan loses. Which words a refusal of 1 to 10 has stands in `deck`: what stands on the cards say the crates `line_words` and `card_words`, and what does not
// go together (refusal 8) `combination`; 16, by which a plan that keeps has no twins, is said here. Those of a reel are said where the reel is at hand, by `reports`. What is
// said of records that are not taken stands in `taken`.
#![tactic(auto)]

mod combination;
mod deck;
mod field;
mod taken;

pub use card_words::field_on_card;
pub use field::{Numbered, last_reader, last_writer};
use plans::DeckPlan;
use std::io::Print;
pub use taken::{left_out, none_taken};
pub use words::{because, fail, many, number, phrase, say};

// The numbers on standard output, with a blank between.
pub fn line(rt: &HostRuntime, numbers: &[usize]) {
    for (i, number) in numbers.iter().enumerate() {
        if i > 0 {
            phrase(rt, " ");
        }
        phrase(rt, number);
    }
    if let Err(why) = rt.write_all(b"\n") {
        fail(&rt.stderr(), b"standard output", why);
    }
}

// A byte of an input record, from 1: behind a key of so many bytes people count those of the data from 1 again, as cards do.
fn byte(to: &impl Print, n: usize, key: usize) {
    if key == 0 {
        phrase(to, n);
    } else if n <= key {
        phrase(to, format_args!("{n} of the key"));
    } else {
        phrase(to, format_args!("{} of the data", n - key));
    }
}

// Half 2i is the high half of byte i, from 0, through the key first.
pub fn half_of_byte(to: &impl Print, place: usize, key: usize) {
    let half = if place % 2 == 0 { "high" } else { "low" };
    phrase(to, format_args!("the {half} half of byte "));
    byte(to, place / 2 + 1, key);
}

fn half(to: &impl Print, place: usize, key: usize) {
    phrase(to, format_args!("half byte {place}, "));
    half_of_byte(to, place, key);
    phrase(to, " of the input record");
}

// A refusal of a deck, by its number, its place and its column, or 0 for none; the deck has the card.
pub fn refused(to: &impl Print, deck: &[u8], refusal: usize, place: usize, column: usize) {
    phrase(to, format_args!("refused by {refusal}"));
    if refusal < 11 {
        deck::explain(to, deck, refusal, place, column);
    } else {
        phrase(
            to,
            ": the plan keeps: no two records become alike, so there are no twins to show",
        );
    }
    phrase(to, "\n");
    line_words::show(to, deck, place, column);
}

// A half byte of the first n bytes is lost, or the tail, whose place is 2n.
fn lost(to: &impl Print, n: usize, key: usize, place: usize) {
    phrase(to, "the plan loses: ");
    if place / 2 == n {
        phrase(
            to,
            format_args!(
                "the tail, all data past the first {n} bytes, is dropped; records that differ only there become alike\n"
            ),
        );
        return;
    }
    half(to, place, key);
    phrase(
        to,
        ", is not in the output; records that differ only there become alike\n",
    );
}

// What an accepted plan loses, if it loses anything.
pub fn loss(to: &impl Print, plan: DeckPlan) {
    if plan.answer.keeping == 0 {
        let asked = plan.asked;
        let input = asked.input;
        lost(to, terms::record_length(input), asked.key, plan.answer.lost);
        phrase(to, "'./bhexodana twins DECK' shows two such records\n");
    }
}
