// What refusal 9 found: which bytes a field reads or writes, and where its records end (document 01, "Every field lies inside its records"; document 02, order
// 5). The field is taken from its card: one that runs past the key stands in no row as it was written.
use crate::field;
use readers::CardItem;
use std::io::Print;
use terms::{Asked, Field, Part};
use words::phrase;

const SLASH: u8 = b'/';

// ---- the item on its card

// How many fields stand before a field, from 0, on the card that it stands on.
fn fields_before(deck: &[u8], field: usize, card: usize) -> usize {
    (0..field)
        .rev()
        .take_while(|before| cards::field_card(deck, *before) == card)
        .count()
}

// What stands on an FS card from the item of a field on, behind so many fields. An item begins behind a slash or `// FS `, and of those CV is no field.
fn from_item(card: &[u8], fields: usize) -> Option<&[u8]> {
    let mut left = fields;
    let mut before = SLASH;
    for i in 6..card.len() {
        if before == SLASH && card[i] != b'C' {
            if left == 0 {
                return Some(&card[i..]);
            }
            left -= 1;
        }
        before = card[i];
    }
    None
}

// The item of a field, from 1.
fn item_of(deck: &[u8], number: usize) -> Option<CardItem> {
    let field = number.checked_sub(1)?;
    let place = cards::field_card(deck, field);
    let card = line_words::uncommented(line_words::card_at(deck, place));
    let items = from_item(card, fields_before(deck, field, place))?;
    let found = readers::item(items).ok()?;
    Some(found.value)
}

// ---- its bytes

// The last of so many bytes from a place on.
fn last(from: usize, size: usize) -> usize {
    if from > 4096 || size > 4096 || size == 0 {
        return from;
    }
    from + size - 1
}

fn bytes(to: &impl Print, from: usize, last: usize) {
    if from == last {
        phrase(to, " byte ");
        phrase(to, from);
        return;
    }
    phrase(to, " bytes ");
    phrase(to, from);
    phrase(to, " to ");
    phrase(to, last);
}

fn length(to: &impl Print, size: usize) {
    phrase(to, size);
    if size == 1 {
        phrase(to, " byte");
    } else {
        phrase(to, " bytes");
    }
}

// Says how long a record is, or in FV the part of it that each record has.
fn record(to: &impl Print, asked: Asked, name: &str, size: usize) {
    phrase(to, ", and the ");
    if terms::is_fv(asked.format) {
        phrase(to, "fixed part of the ");
    }
    phrase(to, name);
    phrase(to, " record has ");
    length(to, size);
}

fn key_part(to: &impl Print, size: usize) {
    phrase(to, " of the key, and the key has ");
    length(to, size);
}

fn data_part(to: &impl Print, size: usize) {
    phrase(to, " of the data, and the data have ");
    length(to, size);
}

// How many bytes the part has that a field reads.
fn room(asked: Asked, part: Part) -> usize {
    match part {
        Part::Key => asked.key,
        Part::Data => terms::record_length(asked.input).saturating_sub(asked.key),
    }
}

// Says how long the part is.
fn part_size(to: &impl Print, asked: Asked, part: Part, size: usize) {
    match part {
        Part::Key => key_part(to, size),
        Part::Data => {
            if asked.key == 0 {
                record(to, asked, "input", size);
            } else {
                data_part(to, size);
            }
        }
    }
}

fn reads(to: &impl Print, asked: Asked, part: Part, f: Field) {
    phrase(to, ", reads");
    bytes(to, f.r, last(f.r, f.input));
    part_size(to, asked, part, room(asked, part));
}

fn writes(to: &impl Print, asked: Asked, f: Field) {
    phrase(to, ", writes");
    bytes(to, f.t, last(f.t, f.output));
    record(to, asked, "output", terms::record_length(asked.output));
}

// Says a field, from 1, as on its card: r counts in its part.
fn named(to: &impl Print, deck: &[u8], place: usize, part: Part, f: Field) {
    match part {
        Part::Key => field::field_on_card(to, deck, f.r, place, f),
        Part::Data => field::field_on_card(to, deck, 0, place, f),
    }
}

// Says what refusal 9 found of a field, from 1, of a deck that could be read.
pub fn outside_records(to: &impl Print, deck: &[u8], asked: Asked, place: usize) {
    let Some(CardItem::Field { part, field, .. }) = item_of(deck, place) else {
        phrase(to, "this field reaches outside its records");
        return;
    };
    named(to, deck, place, part, field);
    if room(asked, part) < last(field.r, field.input) {
        reads(to, asked, part, field);
    } else {
        writes(to, asked, field);
    }
}
