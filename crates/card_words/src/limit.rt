// What refusal 7 found: the number as it stands, and its limits. The operands are right by their grammar, so that a single byte tells what it is part of.
use line_words::{BLANK, COMMA};
use readers::{Placed, UParameter};
use std::io::Print;
use terms::Input;
use words::{phrase, say};

// The byte behind the digits with which a part begins; a blank where there is none.
fn behind_digits(part: &[u8]) -> u8 {
    part.iter()
        .copied()
        .find(|byte| !byte.is_ascii_digit())
        .unwrap_or(BLANK)
}

// Whether a parenthesis is open behind a part.
fn is_open(part: &[u8]) -> bool {
    let mut inside = false;
    for byte in part {
        match *byte {
            b'(' => inside = true,
            b')' => inside = false,
            _ => {}
        }
    }
    inside
}

// Says the limits of a number behind a parenthesis of the U card, which begins a part of it: a comma follows the first of two. Only FV has a V, and only FS an S, before
// or behind.
fn size_limits(to: &impl Print, card: &[u8], part: &[u8]) {
    if behind_digits(part) == COMMA {
        phrase(to, "1 to 4,096");
    } else if line_words::column_of(card, b'V').is_some()
        || line_words::column_of(card, b'S').is_some()
    {
        phrase(to, "9 to 32,760");
    } else {
        phrase(to, "1 to 32,760");
    }
}

// Says the limits of a number of the U card: of R, of the key or of the data, of the second of two in A or B, or of another in A or B.
fn u_limits(to: &impl Print, card: &[u8], before: u8, part: &[u8]) {
    match before {
        b'R' => phrase(to, "1 to 65,536"),
        b'=' => phrase(to, "1 to 4,096"),
        COMMA => phrase(to, "1 to 32,760"),
        _ => size_limits(to, card, part),
    }
}

// Whether what stands before a number ends with K and a comma.
fn is_of_key(before: &[u8]) -> bool {
    matches!(before, [.., b'K', _])
}

// Says the limits of a number of an FS card, before which stands this: in parentheses are sizes to pack or unpack, or a place in the key.
fn fs_limits(to: &impl Print, before: &[u8]) {
    if is_open(before) && !is_of_key(before) {
        phrase(to, "1 to 16");
    } else {
        phrase(to, "1 to 4,096");
    }
}

// The digits with which a part begins.
fn digits(part: &[u8]) -> &[u8] {
    let behind = part.iter().position(|byte| !byte.is_ascii_digit());
    &part[..behind.unwrap_or(part.len())]
}

// How many bytes A gives to key and data.
#[derive(Clone, Copy)]
struct Lengths {
    key: usize,
    data: usize,
}

// What a part of the U card says of key and data that begins with A.
fn lengths_in(part: &[u8]) -> Option<Lengths> {
    match readers::parameter(part) {
        Ok(
            Placed {
                value: UParameter::InputIs(Input::Keyed { key, data }),
                ..
            },
        ) => Some(Lengths { key, data }),
        _ => None,
    }
}

// The same of a U card.
fn lengths_on(card: &[u8]) -> Option<Lengths> {
    let column = line_words::parameter(card, b'A')?;
    lengths_in(&card[column - 1..])
}

// Says what key and data are together, where each is within its own limits, and whether that was said.
fn together(to: &impl Print, lengths: Lengths) -> bool {
    let Lengths { key, data } = lengths;
    if key == 0 || data == 0 || key > 4096 || data > 4096 {
        return false;
    }
    phrase(to, "key and data have ");
    phrase(to, key);
    phrase(to, " and ");
    phrase(to, data);
    phrase(to, " bytes, which are ");
    phrase(to, key + data);
    phrase(to, " together; at most 4,096 are allowed");
    true
}

// Says the limits of a number, which begins a part of its card, before which stands this.
fn limits(to: &impl Print, card: &[u8], place: usize, before: &[u8], part: &[u8]) {
    phrase(to, "this number, ");
    say(to, digits(part));
    phrase(to, ", is outside its limits, which are ");
    if place > 1 {
        fs_limits(to, before);
    } else {
        u_limits(to, card, line_words::byte(before, before.len()), part);
    }
}

// Says what refusal 7 found of the number whose first digit stands in the column.
pub fn outside_limits(to: &impl Print, deck: &[u8], place: usize, column: usize) {
    let card = line_words::uncommented(line_words::card_at(deck, place));
    if column == 0 || card.len() < column {
        return;
    }
    let before = column - 1;
    if line_words::byte(card, before) == b'=' {
        if let Some(lengths) = lengths_on(card) {
            if together(to, lengths) {
                return;
            }
        }
    }
    limits(to, card, place, &card[..before], &card[before..]);
}
