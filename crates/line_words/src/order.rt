// What refusal 2 found: which card is out of order, or missing (document 01, "The deck").
use crate::card;
use lines::CardKind;
use std::io::Print;
use words::phrase;

// Whether the card of a place is an END card.
fn is_end(deck: &[u8], place: usize) -> bool {
    lines::kind(card::card_at(deck, place)) == Some(CardKind::End)
}

// Says which card stands first in place of the U card.
fn first_card(to: &impl Print, kind: Option<CardKind>) {
    phrase(to, "the first card is the U card, and this is an ");
    match kind {
        Some(CardKind::End) => phrase(to, "END card"),
        _ => phrase(to, "FS card"),
    }
}

fn too_many(to: &impl Print, place: usize) {
    phrase(to, "this is card ");
    phrase(to, place);
    phrase(to, "; a deck has at most 64");
}

// Says why a card is at fault behind one that is not the END card. An FS or END card is so past the 64th alone.
fn before_end(to: &impl Print, kind: CardKind, place: usize) {
    match kind {
        CardKind::Utility => phrase(to, "this is a second U card; a deck has one"),
        _ => too_many(to, place),
    }
}

// Says that there is no card where END should stand, behind the last.
fn no_end(to: &impl Print, last: usize) {
    phrase(
        to,
        "the END card is missing; the last card of the deck is card ",
    );
    phrase(to, last);
}

// Says why a card is at fault that is not the first. It is the first at fault, so that an END card before it is the one just before. Where no card is at fault
// there is none at the place.
fn later_card(to: &impl Print, kind: Option<CardKind>, deck: &[u8], place: usize, before: usize) {
    if is_end(deck, before) {
        phrase(to, "card ");
        phrase(to, before);
        phrase(to, " is the END card, and nothing stands behind it");
        return;
    }
    match kind {
        None => no_end(to, before),
        Some(kind) => before_end(to, kind, place),
    }
}

// Says what can be at fault at a place of a deck that is not at hand. One that is longer than the room has far more than 64 cards, so none is missing.
fn unseen(to: &impl Print, place: usize) {
    if place < 2 {
        phrase(
            to,
            "the deck is empty, or is longer than 65,536 bytes and begins with no U card",
        );
        return;
    }
    if place > 64 {
        too_many(to, place);
        return;
    }
    phrase(to, "this is a second U card, or a card behind the END card");
}

// Says what refusal 2 found at a place.
pub fn disorder(to: &impl Print, deck: &[u8], place: usize) {
    if deck.len() == 0 {
        unseen(to, place);
        return;
    }
    let kind = lines::kind(card::card_at(deck, place));
    if place < 2 {
        first_card(to, kind);
        return;
    }
    later_card(to, kind, deck, place, place - 1);
}
