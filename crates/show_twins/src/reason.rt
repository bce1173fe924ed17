// Why the twins become alike, in words: the reason is that of the last field that reads the lost half.
use crate::fields;
use notices::{Numbered, half_of_byte, many, phrase};
use std::io::Print;
use terms::Asked;

fn not_read(to: &impl Print, key: usize, lost: usize) {
    phrase(to, "no field reads ");
    half_of_byte(to, lost, key);
}

fn dropped(to: &impl Print, deck: &[u8], key: usize, reader: Numbered, lost: usize) {
    fields::say_field(to, deck, key, reader);
    phrase(to, ", has room for ");
    many(to, fields::digits(reader.field), b"digit");
    phrase(to, ": the digit in ");
    half_of_byte(to, lost, key);
    phrase(to, " is dropped");
}

// The field that covers the half writes its byte last, so that it comes behind the one that reads it.
fn covered(
    to: &impl Print,
    deck: &[u8],
    key: usize,
    fields: &[u16],
    reader: Numbered,
    lost: usize,
) {
    let byte = fields::output_byte(reader.field, lost);
    fields::say_field(to, deck, key, reader);
    phrase(to, ", is the last that reads ");
    half_of_byte(to, lost, key);
    phrase(
        to,
        format_args!("; it writes it to byte {byte} of the output, and "),
    );
    if let Some(writer) = notices::last_writer(fields, byte) {
        fields::say_field(to, deck, key, writer);
    }
    phrase(to, ", covers that");
}

fn tail(to: &impl Print, asked: Asked) {
    let length = terms::record_length(asked.input);
    phrase(
        to,
        format_args!(
            "the tail, all data past the first {length} bytes, is dropped: CV is not given"
        ),
    );
}

// Says one of the reasons 1 to 4.
pub(crate) fn explain(
    to: &impl Print,
    deck: &[u8],
    asked: Asked,
    fields: &[u16],
    reason: usize,
    lost: usize,
) {
    let key = asked.key;
    let reader = notices::last_reader(fields, lost / 2 + 1);
    match (reason, reader) {
        (2, Some(reader)) => dropped(to, deck, key, reader, lost),
        (3, Some(reader)) => covered(to, deck, key, fields, reader, lost),
        (4, _) => tail(to, asked),
        _ => not_read(to, key, lost),
    }
    phrase(to, "\n");
}
