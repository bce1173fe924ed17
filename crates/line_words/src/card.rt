// The card of a refusal: where it begins and ends, it shown with a caret under a column, and where the first stands of what stands there twice. At 4 the operands
// are right by their grammar, so that a single byte tells what it is part of.
ghost use Rattle.std.specs.Prelude.{◌≤◌, length, IfSome};

use lines::CardRead;
use std::io::Print;
use words::{phrase, say};

pub const BLANK: u8 = b' ';

pub const COMMA: u8 = b',';

// Says a card, and a column of it where there is one: a number, 0 for none, as in the answers that C sees.
pub fn spot(to: &impl Print, card: usize, column: usize) {
    phrase(to, "card ");
    phrase(to, card);
    if column > 0 {
        phrase(to, ", column ");
        phrase(to, column);
    }
}

// Where the line of a place, from 1, begins; where the deck ends, if there is none.
fn start(deck: &[u8], place: usize) -> usize {
    let mut at = 0;
    for _ in 1..place {
        let Some(line) = lines::line(deck, at) else {
            return at;
        };
        at = line.next;
    }
    at
}

// The card of a place; no bytes where there is none.
pub fn card_at(deck: &[u8], place: usize) -> &[u8] {
    let at = start(deck, place);
    match lines::line(deck, at) {
        Some(line) => &deck[at..line.end],
        None => &deck[..0],
    }
}

// The card up to where its operand ends: a comment may say anything.
pub fn uncommented(card: &[u8]) -> &[u8] {
    match lines::card(card) {
        Some(CardRead::UCard { end, .. } | CardRead::FsCard { end, .. }) => &card[..end],
        Some(CardRead::EndCard) | None => &card[..0],
    }
}

// Shows the card, and a caret under the column. A card has at most 80 bytes, and the column may be one past its end.
pub fn show(to: &impl Print, deck: &[u8], place: usize, column: usize) {
    if column == 0 || column > 81 {
        return;
    }
    say(to, card_at(deck, place));
    phrase(to, "\n");
    let blanks = [BLANK; 80];
    let n = column - 1;
    say(to, &blanks[..n]);
    phrase(to, "^\n");
}

// The byte in a column; a blank where there is none.
pub fn byte(card: &[u8], column: usize) -> u8 {
    if column == 0 {
        return BLANK;
    }
    match card.get(column - 1) {
        Some(byte) => *byte,
        None => BLANK,
    }
}

// The column of the first byte that passes a test.
pub(crate) fn column_where<F: Fn(u8) -> bool>(bytes: &[u8], passes: F) -> Option<usize>
    requires { F.IsAlwaysCallable passes }
    ensures { IfSome result (λ column. (1 ≤ column) × (column ≤ length bytes.now)) }
{
    for (i, byte) in bytes.iter().enumerate() {
        if passes(*byte) {
            return Some(i + 1);
        }
    }
    None
}

// The column of the first such byte.
pub fn column_of(card: &[u8], byte: u8) -> Option<usize>
    ensures { IfSome result (λ column. (1 ≤ column) × (column ≤ length card.now)) }
{
    column_where(card, |other| other == byte)
}

// The column of the first parameter with this letter: it begins behind a comma, or behind the card's `// U ` or `// UTT `. What else stands behind a blank or
// a comma, the U itself and numbers in parentheses, begins with no letter of a parameter.
pub fn parameter(card: &[u8], letter: u8) -> Option<usize>
    ensures { IfSome result (λ column. (1 ≤ column) × (column ≤ length card.now)) }
{
    let mut before = BLANK;
    for (i, byte) in card.iter().enumerate() {
        if *byte == letter && (before == BLANK || before == COMMA) {
            return Some(i + 1);
        }
        before = *byte;
    }
    None
}

// The column of the first CV on a card. Nothing else on an FS card has a C.
fn cv(deck: &[u8], place: usize) -> Option<usize> {
    column_of(uncommented(card_at(deck, place)), b'C')
}

// Says where the first CV stands, on an FS card before this place or at it.
fn first_cv(to: &impl Print, deck: &[u8], place: usize) {
    let card = (2..place)
        .find(|card| cv(deck, *card).is_some())
        .unwrap_or(place);
    spot(to, card, cv(deck, card).unwrap_or(0));
}

// Says where the first one stands of what stands here for the second time. A U card, the first of a deck, has parameters, and any other CV.
pub fn first(to: &impl Print, deck: &[u8], place: usize, column: usize) {
    if place > 1 {
        first_cv(to, deck, place);
        return;
    }
    let card = uncommented(card_at(deck, place));
    spot(to, 1, parameter(card, byte(card, column)).unwrap_or(0));
}
