// A field of a plan as people find it: by its number, its item as on a card, and its card.
use std::io::Print;
use terms::{Field, Kind};
use words::phrase;

// Says the two sizes of a pack or unpack, behind its letter.
fn sizes(to: &impl Print, letter: &str, f: Field) {
    phrase(to, "(");
    phrase(to, letter);
    phrase(to, ",");
    phrase(to, f.input);
    phrase(to, ",");
    phrase(to, f.output);
    phrase(to, ")");
}

// Says where a field begins to read as a card does, behind a key of so many bytes.
fn start(to: &impl Print, r: usize, key: usize) {
    if r <= key {
        phrase(to, "(K,");
        phrase(to, r);
        phrase(to, ")");
        return;
    }
    phrase(to, r - key);
}

// Says a field as an item of a card.
fn item(to: &impl Print, f: Field, key: usize) {
    start(to, f.r, key);
    phrase(to, ",");
    match f.kind {
        Kind::Copy => phrase(to, f.input),
        Kind::Pack => sizes(to, "P", f),
        Kind::Unpack => sizes(to, "U", f),
    }
    phrase(to, ",");
    phrase(to, f.t);
}

// Says a field of a deck by its number, from 1, its item and its card, behind a key of so many bytes. There is no field 0.
pub fn field_on_card(to: &impl Print, deck: &[u8], key: usize, place: usize, f: Field) {
    let Some(before) = place.checked_sub(1) else {
        return;
    };
    phrase(to, "field ");
    phrase(to, place);
    phrase(to, ", ");
    item(to, f, key);
    phrase(to, " on card ");
    phrase(to, cards::field_card(deck, before));
}
