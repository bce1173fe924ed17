// What a run over a reel, or the judging of one from elsewhere, was refused for, in plain words on standard error: refusals 11 to 15, 17 and 18, each with what was
// found in that reel; those of the deck are said by `notices`. The words of 11, 12, 17 and 18, of the reel and its blocks, stand in the crate `block_words`, those of 13
// in `half`, and those of 14 and 15 in `length`.
#![tactic(auto)]

mod half;
mod length;

use block_words::{Asks, Whose};
use plans::DeckPlan;
use std::io::Print;
use terms::Asked;
pub use words::many;
use words::phrase;

// The plan of a deck, without its fields.
fn plan_of(deck: &[u8]) -> DeckPlan {
    let mut row = [0u16; 320];
    plans::plan_deck(deck, &mut row)
}

// What A asks of the blocks of the input.
fn by_a(asked: Asked) -> Asks {
    Asks {
        whose: Whose::A,
        form: tasks::form_of(tasks::task_of(asked)),
        is_keyed: asked.key > 0,
        is_single: terms::record_length(asked.input) == 0,
    }
}

// What B asks of the blocks of a reel from elsewhere, which have no keys.
fn by_b(asked: Asked) -> Asks {
    Asks {
        whose: Whose::B,
        form: tasks::form_under(tasks::task_of(asked)),
        is_keyed: false,
        is_single: terms::record_length(asked.output) == 0,
    }
}

// A refusal of a run by its number, its place and its column, or 0 for none; the deck has the card, and the reel what was found.
pub fn refused(
    to: &impl Print,
    deck: &[u8],
    reel: &[u8],
    refusal: usize,
    place: usize,
    column: usize,
) {
    if refusal < 11 {
        notices::refused(to, deck, refusal, place, column);
        return;
    }
    phrase(to, format_args!("refused by {refusal}"));
    match refusal {
        11 => block_words::no_reel(to, b"the input", reel),
        12 => block_words::wrong_block(to, by_a(plan_of(deck).asked), reel, place),
        13 => half::explain(to, deck, reel, place),
        14 => length::explain(to, plan_of(deck).asked, reel, place),
        _ => length::too_long(to, place),
    }
    phrase(to, "\n");
}

// Refusals 17 and 18 of a reel from elsewhere.
pub fn refused_theirs(to: &impl Print, deck: &[u8], theirs: &[u8], refusal: usize, place: usize) {
    phrase(to, format_args!("refused by {refusal}"));
    if refusal == 17 {
        block_words::no_reel(to, b"theirs", theirs);
    } else {
        block_words::wrong_block(to, by_b(plan_of(deck).asked), theirs, place);
    }
    phrase(to, "\n");
}
