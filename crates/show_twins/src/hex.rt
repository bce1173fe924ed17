// Records in hexadecimal: rows of 16 bytes in groups of 4, each behind the position of its first byte. Of two records the rows stand one
// under the other, with carets under the digits in which they differ. Rows that repeat the one above show nothing new and are left out.
ghost use Rattle.std.specs.Prelude.{◌+◌, ◌<◌, ◌^◌};

use crate::room;
use notices::{phrase, say};
use std::io::{Cursor, Print, Write};

const BLANK: u8 = b' ';

// A byte in which two records differ, and what stands under its two digits: a caret or a blank.
#[derive(Clone, Copy)]
pub(crate) struct Difference {
    byte: usize,
    high: u8,
    low: u8,
}

// The record that stands under another, and where it differs.
#[derive(Clone, Copy)]
struct Second<'a> {
    record: &'a [u8],
    difference: Difference,
}

fn caret(differs: bool) -> u8 {
    if differs { b'^' } else { BLANK }
}

// The lost half, or of the tail the whole byte that is there for it.
pub(crate) fn lost_digits(lost: usize, is_tail: bool) -> Difference {
    Difference {
        byte: lost / 2,
        high: caret(is_tail || lost % 2 == 0),
        low: caret(is_tail || lost % 2 == 1),
    }
}

// Where the digits of a byte begin, counted from 0, in every row: a row starts at a multiple of 16 bytes.
fn column(byte: usize) -> usize
    ensures { result < 50 }
{
    let i = byte % 16;
    16 + 2 * i + i / 4
}

// Puts bytes into a row, of which the first begins a row.
fn put_bytes(row: &mut [u8], bytes: &[u8]) {
    for (i, byte) in bytes.iter().enumerate() {
        room::put(row, column(i), &hexadecimal::hex(*byte));
    }
}

// The bytes of the row that begins at a place, counted from 0; none past the record's end.
fn bytes_at(record: &[u8], at: usize) -> &[u8] {
    let row = room::behind(record, at);
    &row[..row.len().min(16)]
}

// Says a row of a record, of whose first byte the position is given, which people count from 1 and which ends before column 6.
fn say_record(to: &impl Print, position: Option<usize>, name: &str, bytes: &[u8]) {
    let mut row = [BLANK; 52];
    if let Some(position) = position {
        let _ = write!(Cursor::new(&mut row[..6]), "{position:>6}");
    }
    room::put(&mut row, 8, name.as_bytes());
    put_bytes(&mut row, bytes);
    say(to, row.trim_ascii_end());
    phrase(to, "\n");
}

fn say_carets(to: &impl Print, difference: Difference) {
    let mut row = [BLANK; 52];
    let Difference { byte, high, low } = difference;
    room::put(&mut row, column(byte), &[high, low]);
    say(to, row.trim_ascii_end());
    phrase(to, "\n");
}

// Says the row at a place of a record, or of two with the carets where they differ in this row.
fn say_row(to: &impl Print, first: &[u8], second: Option<Second>, at: usize)
    requires { at + 1 < 2 ^ 64 }
{
    let bytes = bytes_at(first, at);
    let Some(Second { record, difference }) = second else {
        say_record(to, Some(at + 1), "", bytes);
        return;
    };
    say_record(to, Some(at + 1), "first", bytes);
    say_record(to, None, "second", bytes_at(record, at));
    if difference.byte / 16 == at / 16 {
        say_carets(to, difference);
    }
}

// Whether the row at a place has the bytes of the row above.
fn repeats(record: &[u8], at: usize) -> bool {
    at >= 16 && bytes_at(record, at) == bytes_at(record, at - 16)
}

// Says that the rows above, up to a byte, were left out.
fn say_left_out(to: &impl Print, byte: usize) {
    phrase(to, format_args!("        the same up to byte {byte}\n"));
}

// Says the rows of so many bytes.
fn say_rows(to: &impl Print, first: &[u8], second: Option<Second>, length: usize) {
    let mut is_left_out = false;
    for at in (0..length).step_by(16) {
        let repeats_second = second.is_none_or(|second| repeats(second.record, at));
        let repeated = repeats(first, at) && repeats_second;
        if !repeated {
            if is_left_out {
                say_left_out(to, at);
            }
            say_row(to, first, second, at);
        }
        is_left_out = repeated;
    }
    if is_left_out {
        say_left_out(to, length);
    }
}

// Says two records, of which the second is not the shorter.
pub(crate) fn pair(to: &impl Print, first: &[u8], second: &[u8], difference: Difference) {
    let below = Second {
        record: second,
        difference,
    };
    say_rows(to, first, Some(below), second.len());
}

// Says one record.
pub(crate) fn single(to: &impl Print, record: &[u8]) {
    say_rows(to, record, None, record.len());
}
