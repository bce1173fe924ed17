// Refusals 12 and 18: in what a block breaks its rule. Document 01, "Blocks and records".
use crate::{segment, word};
use pieces::{Cursor, Form};
use std::fmt;
use std::io::Print;
use terms::Format;
use words::{many, phrase};

// Whose numbers are asked of blocks: A's of the input, or B's of a reel from elsewhere.
#[derive(Clone, Copy)]
pub enum Whose {
    A,
    B,
}

// What A or B asks of blocks: their form, whether they have a key, and whether a single number stands there, g and not n and m.
#[derive(Clone, Copy)]
pub struct Asks {
    pub whose: Whose,
    pub form: Form,
    pub is_keyed: bool,
    pub is_single: bool,
}

// As its letter on the U card.
impl fmt::Display for Whose {
    fn fmt<W: fmt::Write>(&self, f: &mut fmt::Formatter<W>) -> fmt::Result {
        match self {
            Whose::A => f.write_str("A"),
            Whose::B => f.write_str("B"),
        }
    }
}

// What is said where nothing else was found.
fn say_wrong(to: &impl Print, asks: Asks) {
    let whose = asks.whose;
    phrase(
        to,
        format_args!("this block is not one that the U card's F and {whose} allow"),
    );
}

fn say_size(to: &impl Print, b: &[u8]) {
    phrase(to, "it has ");
    many(to, b.len(), b"byte");
}

// Whether a block is longer than m, or g, which is then said.
fn said_too_long(to: &impl Print, asks: Asks, b: &[u8]) -> bool {
    let m = asks.form.m;
    let is_longer = b.len() > m;
    if is_longer {
        let letter = if asks.is_single { 'g' } else { 'm' };
        say_size(to, b);
        phrase(
            to,
            format_args!(", more than {}'s {letter}, {m}", asks.whose),
        );
    }
    is_longer
}

// In FF: a block that is not too long has no whole records. With keys it is one record.
fn fixed(to: &impl Print, asks: Asks, b: &[u8]) {
    let n = asks.form.n;
    if asks.is_keyed {
        say_size(to, b);
        phrase(to, format_args!(", and key and data have {n}"));
    } else if !said_too_long(to, asks, b) {
        say_size(to, b);
        phrase(
            to,
            format_args!(", which is no multiple of the record length, {n}"),
        );
    }
}

// The least data of a record.
fn least_data(form: Form) -> usize {
    if form.selects { form.n } else { 1 }
}

// The place of the first record in a block of FV that is wrong, or where the block ends.
fn first_wrong(form: Form, b: &[u8]) -> usize {
    let least = least_data(form);
    let mut at = Cursor { at: 4 };
    while let Ok(Some(piece)) = pieces::piece(form, b, at) {
        if piece.length < least {
            return at.at;
        }
        at = piece.next;
    }
    at.at
}

// Says that a record whose word is right has too few data.
fn say_few(to: &impl Print, asks: Asks, b: &[u8], at: usize) {
    let length = word::length(b, at);
    if length >= 4 {
        phrase(to, "it has ");
        many(to, length - 4, b"byte");
        phrase(
            to,
            format_args!(" of data, fewer than {}'s n, {}", asks.whose, asks.form.n),
        );
    }
}

// In FV, of the records of a block whose own word is right.
fn records(to: &impl Print, asks: Asks, b: &[u8]) {
    let at = first_wrong(asks.form, b);
    if at < b.len() {
        word::say_piece(to, "record", at);
        if !word::said_piece(to, "record", b, at, 0) {
            say_few(to, asks, b, at);
        }
    } else {
        say_wrong(to, asks);
    }
}

// Whether a block with words is too long or too short, or its own word is wrong, which is then said.
fn said_wrong(to: &impl Print, asks: Asks, name: &str, b: &[u8]) -> bool {
    if said_too_long(to, asks, b) {
        return true;
    }
    if b.len() < 5 {
        say_size(to, b);
        phrase(
            to,
            format_args!(", and a block has at least 9: its word, that of a {name}, and a byte"),
        );
        return true;
    }
    word::said_wrong(to, b)
}

fn variable(to: &impl Print, asks: Asks, b: &[u8]) {
    if !said_wrong(to, asks, "record", b) {
        records(to, asks, b);
    }
}

// In FU the block is the record.
fn undefined(to: &impl Print, asks: Asks, b: &[u8]) {
    if !said_too_long(to, asks, b) {
        say_wrong(to, asks);
    }
}

// In FS. Blocks count from 0.
fn spanned(to: &impl Print, asks: Asks, reel: &[u8], i: usize) {
    if !said_wrong(to, asks, "segment", reels::block(reel, i)) {
        segment::explain(to, reel, i);
    }
}

// Says the first thing by which the block of a place, from 1, breaks its rule.
pub fn wrong_block(to: &impl Print, asks: Asks, reel: &[u8], place: usize) {
    match asks.whose {
        Whose::A => phrase(to, format_args!(", at block {place} of the input: ")),
        Whose::B => phrase(to, format_args!(", at block {place} of theirs: ")),
    }
    if place == 0 {
        say_wrong(to, asks);
        return;
    }
    let i = place - 1;
    let b = reels::block(reel, i);
    match asks.form.format {
        Format::FF => fixed(to, asks, b),
        Format::FV => variable(to, asks, b),
        Format::FU => undefined(to, asks, b),
        Format::FS => spanned(to, asks, reel, i),
    }
}
