// What refusal 5 found: which of T, F, A and B are missing on the U card.
use crate::card;
use std::io::Print;
use words::phrase;

// Whether no parameter of the card has this letter.
fn is_missing(card: &[u8], letter: u8) -> bool {
    card::parameter(card, letter).is_none()
}

// Says a letter that is missing, after others or before some.
fn name(to: &impl Print, letter: &str, missing: bool, after: bool, before: bool) {
    if !missing {
        return;
    }
    if after {
        if before {
            phrase(to, ", ");
        } else {
            phrase(to, " and ");
        }
    }
    phrase(to, letter);
}

// Says what refusal 5 found on the U card, the first of the deck.
pub fn lacking(to: &impl Print, deck: &[u8]) {
    let card = card::uncommented(card::card_at(deck, 1));
    let t = is_missing(card, b'T');
    let f = is_missing(card, b'F');
    let a = is_missing(card, b'A');
    let b = is_missing(card, b'B');
    phrase(to, "the U card lacks ");
    name(to, "T", t, false, false);
    name(to, "F", f, t, a || b);
    name(to, "A", a, t || f, b);
    name(to, "B", b, t || f || a, false);
}
