// What the cards of a deck ask for, as words of a line.
use std::io::Print;
use terms::{Asked, Field, Size};
use words::phrase;

// What A says: key and data are told apart again.
fn tell_input(to: &impl Print, input: Size, key: usize) {
    let n = terms::record_length(input);
    if key == 0 || n < key {
        phrase(to, format_args!(" A={input}"));
    } else {
        phrase(to, format_args!(" A=K={key},D={}", n - key));
    }
}

// Where a field begins, as on its card; one that is taken from the key and runs past it stands past every record.
fn tell_place(to: &impl Print, r: usize, key: usize) {
    if r == 8192 {
        phrase(to, ":past");
    } else if r <= key {
        phrase(to, format_args!(":K{r}"));
    } else {
        phrase(to, format_args!(":{}", r - key));
    }
}

fn tell_field(to: &impl Print, field: Field, key: usize, card: usize) {
    phrase(to, format_args!(" {}", field.kind));
    tell_place(to, field.r, key);
    phrase(
        to,
        format_args!(",{},{},{}@{card}", field.input, field.output, field.t),
    );
}

fn tell_fields(to: &impl Print, deck: &[u8], fields: &[u16], key: usize) {
    for i in 0..fields.len() / 5 {
        let card = cards::field_card(deck, i);
        tell_field(to, rows::field_at(fields, i), key, card);
    }
}

pub(crate) fn tell(to: &impl Print, deck: &[u8], asked: Asked, fields: &[u16]) {
    phrase(to, format_args!(" {} {}", asked.mode, asked.format));
    tell_input(to, asked.input, asked.key);
    phrase(to, format_args!(" B={}", asked.output));
    phrase(
        to,
        format_args!(
            " R={} fs={} cv={} {}",
            asked.first, asked.fs, asked.cv, asked.count
        ),
    );
    tell_fields(to, deck, fields, asked.key);
}
