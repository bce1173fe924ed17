// Refusal 13: which byte of a record a field may not read. Document 01, "Half bytes".
use std::io::Print;
use terms::{Asked, Field, Kind, ZONE};
use words::{phrase, say};

// A half of a byte, by its value: the one that comes first, or the other.
#[derive(Clone, Copy)]
enum Half {
    High(u8),
    Low(u8),
}

// A byte that a field may not read: its position in the record, from 1, and the field with its number, from 1.
#[derive(Clone, Copy)]
struct Refused {
    position: usize,
    byte: u8,
    number: usize,
    field: Field,
}

// How many bytes are left of what a field reads, from a position on, counted from 1, if the field reads there.
fn left(f: Field, position: usize) -> Option<usize> {
    let before = position.checked_sub(f.r)?;
    f.input.checked_sub(before).filter(|left| *left > 0)
}

fn is_digit(half: u8) -> bool {
    half <= 9
}

// Whether a half of a byte may be packed: F before a digit, in the last byte a sign before it.
fn packs(is_last: bool, half: Half) -> bool {
    match half {
        Half::High(sign) if is_last => !is_digit(sign),
        Half::High(zone) => zone == ZONE,
        Half::Low(digit) => is_digit(digit),
    }
}

// Whether a half of a byte may be unpacked: a digit, and behind the last one a sign.
fn unpacks(is_last: bool, half: Half) -> bool {
    match half {
        Half::Low(sign) if is_last => !is_digit(sign),
        Half::High(digit) | Half::Low(digit) => is_digit(digit),
    }
}

// Whether a field may not read a half of the byte at a position.
fn refuses(f: Field, position: usize, half: Half) -> bool {
    match (left(f, position), f.kind) {
        (None, _) | (_, Kind::Copy) => false,
        (Some(left), Kind::Pack) => !packs(left == 1, half),
        (Some(left), Kind::Unpack) => !unpacks(left == 1, half),
    }
}

// The first field that may not read a half of the byte at a position, behind its number.
fn first_refusing(fields: &[u16], position: usize, half: Half) -> Option<(usize, Field)> {
    for i in 0..fields.len() / 5 {
        let field = rows::field_at(fields, i);
        if refuses(field, position, half) {
            return Some((i + 1, field));
        }
    }
    None
}

// The same for a byte, of which the high half comes first.
fn refusing(fields: &[u16], position: usize, byte: u8) -> Option<(usize, Field)> {
    let high = Half::High(byte / 16);
    let low = Half::Low(byte % 16);
    first_refusing(fields, position, high).or_else(|| first_refusing(fields, position, low))
}

// The first byte of a record that a field may not read.
fn first_refused(fields: &[u16], record: &[u8]) -> Option<Refused> {
    for (i, byte) in record.iter().enumerate() {
        let position = i + 1;
        if let Some((number, field)) = refusing(fields, position, *byte) {
            return Some(Refused {
                position,
                byte: *byte,
                number,
                field,
            });
        }
    }
    None
}

// Says a position of a record, behind a key of so many bytes.
fn say_position(to: &impl Print, position: usize, key: usize) {
    if key == 0 {
        phrase(to, format_args!("byte {position} of the record"));
    } else if position <= key {
        phrase(to, format_args!("byte {position} of the key"));
    } else {
        phrase(to, format_args!("byte {} of the data", position - key));
    }
}

// What a field asks of a byte, be it the last one that it reads or not.
fn asked_by(kind: Kind, is_last: bool) -> &'static str {
    match (kind, is_last) {
        (Kind::Copy, _) => "to copy, a byte is any",
        (Kind::Pack, true) => "to pack, the last byte is a sign, hex A to F, and a digit",
        (Kind::Pack, false) => "to pack, a byte is hex F and a digit",
        (Kind::Unpack, true) => "to unpack, the last byte is a digit and a sign, hex A to F",
        (Kind::Unpack, false) => "to unpack, each half byte is a digit",
    }
}

// Says which field may not read a byte, and why.
fn say_refused(to: &impl Print, deck: &[u8], key: usize, refused: Refused) {
    let field = refused.field;
    notices::field_on_card(to, deck, key, refused.number, field);
    phrase(to, ", reads ");
    say_position(to, refused.position, key);
    phrase(to, ", which is hex ");
    say(to, &hexadecimal::hex(refused.byte));
    phrase(to, ": ");
    phrase(
        to,
        asked_by(field.kind, left(field, refused.position) == Some(1)),
    );
}

// What is said where nothing else was found.
fn say_wrong(to: &impl Print) {
    phrase(to, "this record has a half byte that a field may not read");
}

// Says the first byte of the record of a place that a field may not read, and the first such field.
fn say_record(
    to: &impl Print,
    deck: &[u8],
    asked: Asked,
    fields: &[u16],
    reel: &[u8],
    place: usize,
) {
    let form = tasks::form_of(tasks::task_of(asked));
    let mut room = gathers::record_room();
    let found = gathers::gather(form, reel, place, &mut room);
    match found.bytes.and_then(|record| first_refused(fields, record)) {
        Some(refused) => say_refused(to, deck, asked.key, refused),
        None => say_wrong(to),
    }
}

// Says which byte of the record of a place, from 1, a field may not read. A deck that runs has a plan.
pub(crate) fn explain(to: &impl Print, deck: &[u8], reel: &[u8], place: usize) {
    phrase(to, format_args!(", at record {place} of the input: "));
    let mut row = [0u16; 320];
    let plan = plans::plan_deck(deck, &mut row);
    if plan.answer.refusal != 0 {
        say_wrong(to);
        return;
    }
    let asked = plan.asked;
    let end = 5 * asked.count;
    say_record(to, deck, asked, &row[..end], reel, place);
}
