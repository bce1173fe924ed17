// What refusals 1 to 10, of a deck, say. A refusal's number, place and column stay three numbers: they come from four answers, which C sees as they are, so that a struct
// would be made at each call just to be taken apart here.
use crate::{combination, half};
use cards::CardRefusal;
use std::io::Print;
use terms::Asked;
use words::phrase;

// What refusal 3 says.
fn unread(to: &impl Print) {
    phrase(
        to,
        "what stands on this card cannot be read from this column on; look at its letters, commas, slashes and parentheses, and for a blank that ends it too early",
    );
}

// What refusal 4 says.
fn twice(to: &impl Print, deck: &[u8], place: usize, column: usize) {
    phrase(
        to,
        "a parameter, or CV, stands here for the second time; the first stands at ",
    );
    line_words::first(to, deck, place, column);
}

// What refusals 1 to 5 and 7, of lines and cards by themselves, say.
fn reading(to: &impl Print, deck: &[u8], refusal: usize, place: usize, column: usize) {
    match refusal {
        1 => line_words::no_card(to, deck, place),
        2 => line_words::disorder(to, deck, place),
        3 => unread(to),
        4 => twice(to, deck, place, column),
        5 => line_words::lacking(to, deck),
        _ => card_words::outside_limits(to, deck, place, column),
    }
}

// What the cards ask for.
fn read(deck: &[u8]) -> Result<Asked, CardRefusal> {
    let mut row = [0u16; 320];
    cards::read_deck(deck, &mut row)
}

// What refusals 8 and 9, of cards that could be read, say.
fn asking(to: &impl Print, deck: &[u8], refusal: usize, place: usize) {
    let Ok(asked) = read(deck) else {
        phrase(to, "the cards do not go together");
        return;
    };
    if refusal == 8 {
        combination::broken(to, asked, place);
    } else {
        card_words::outside_records(to, deck, asked, place);
    }
}

// How long the key is that the cards give, or 0.
fn key(deck: &[u8]) -> usize {
    match read(deck) {
        Ok(asked) => asked.key,
        Err(_) => 0,
    }
}

// A card and a column, a field, a half byte.
fn where_it_is(to: &impl Print, deck: &[u8], refusal: usize, place: usize, column: usize) {
    phrase(to, ", at ");
    match refusal {
        9 => phrase(to, format_args!("field {place}")),
        10 => half(to, place, key(deck)),
        _ => line_words::spot(to, place, column),
    }
}

pub(crate) fn explain(to: &impl Print, deck: &[u8], refusal: usize, place: usize, column: usize) {
    where_it_is(to, deck, refusal, place, column);
    phrase(to, ": ");
    match refusal {
        6 => phrase(to, "the 65th field stands on this card; 64 are allowed"),
        8 | 9 => asking(to, deck, refusal, place),
        10 => phrase(
            to,
            "no value of this half byte would do for all fields that read it",
        ),
        _ => reading(to, deck, refusal, place, column),
    }
}
