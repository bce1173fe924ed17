// What refusal 1 found: the first reason why a line is no card (document 01, "The deck"). How a file came to be, its code, its line ends and its tabs, is
// said before what stands on the card.
use crate::card;
use crate::card::BLANK;
use std::io::Print;
use words::{phrase, say};

const TAB: u8 = 0x09;

const RETURN: u8 = 0x0D;

// What `// `, with which a card begins, is in EBCDIC.
const EBCDIC: [u8; 3] = [0x61, 0x61, 0x40];

// ---- how a line begins

// Whether the line, in capital letters, begins with the text.
fn begins_in_capitals(line: &[u8], text: &[u8]) -> bool {
    text.len() <= line.len()
        && line
            .iter()
            .zip(text)
            .all(|(byte, capital)| byte.to_ascii_uppercase() == *capital)
}

// The column of the first small letter.
fn small(line: &[u8]) -> Option<usize> {
    card::column_where(line, |byte| byte.is_ascii_lowercase())
}

// The column of the first byte that is not printable.
fn unprintable(line: &[u8]) -> Option<usize> {
    card::column_where(line, |byte| byte < 0x20 || 0x7E < byte)
}

// ---- the shapes of cards

// Whether the line would be a card in capital letters.
fn is_card_in_capitals(line: &[u8]) -> bool {
    if begins_in_capitals(line, b"// U ") {
        return true;
    }
    if begins_in_capitals(line, b"// UTT ") {
        return true;
    }
    if begins_in_capitals(line, b"// FS ") {
        return true;
    }
    if begins_in_capitals(line, b"// END") {
        return card::byte(line, 7) == BLANK;
    }
    false
}

// Says that no blank follows where one has to.
fn no_blank(to: &impl Print, text: &str) {
    phrase(to, "a blank is missing behind '");
    phrase(to, text);
    phrase(to, "'");
}

// Says what follows END.
fn behind_end(to: &impl Print, byte: u8) {
    phrase(
        to,
        "'// END' stands alone or has a blank behind it, and column 7 has '",
    );
    say(to, &[byte]);
    phrase(to, "'");
}

// Says which program's card a U card with two letters behind the U is: they are its initials (document 001).
fn initials(to: &impl Print, first: u8, second: u8) {
    phrase(to, "the initials ");
    say(to, &[first, second]);
    phrase(
        to,
        " are not those of tape to tape, whose card begins with '// U ' or '// UTT '",
    );
}

// Says what is wrong with a line that begins as a U card does.
fn u_shape(to: &impl Print, line: &[u8]) {
    if line.starts_with(b"// UTT") {
        no_blank(to, "// UTT");
        return;
    }
    let first = card::byte(line, 5);
    let second = card::byte(line, 6);
    if second == BLANK {
        no_blank(to, "// U");
        return;
    }
    if card::byte(line, 7) == BLANK {
        initials(to, first, second);
        return;
    }
    no_blank(to, "// U");
}

// Says what is wrong with the shape of a line of 1 to 80 printable bytes. UPSI is of job control, and no U card.
fn shape(to: &impl Print, line: &[u8]) {
    if is_card_in_capitals(line) {
        phrase(to, "cards are in capital letters, and column ");
        phrase(to, small(line).unwrap_or(0));
        phrase(to, " has a small one");
        return;
    }
    if line.starts_with(b"// U") && !line.starts_with(b"// UPSI ") {
        u_shape(to, line);
        return;
    }
    if line.starts_with(b"// FS") {
        no_blank(to, "// FS");
        return;
    }
    if line.starts_with(b"// END") {
        behind_end(to, card::byte(line, 7));
        return;
    }
    phrase(
        to,
        "this line begins with none of '// U ', '// UTT ', '// FS ' and is not '// END'",
    );
}

// ---- lines

// Says which byte is not printable.
fn byte_in(to: &impl Print, line: &[u8], column: usize) {
    phrase(to, "column ");
    phrase(to, column);
    phrase(to, " has the byte hex ");
    say(to, &hexadecimal::hex(card::byte(line, column)));
    phrase(to, ", which is no printable one of ASCII");
}

// Says what is wrong with the bytes of a line, how many they are, or their shape.
fn written(to: &impl Print, line: &[u8]) {
    if line.len() == 0 {
        phrase(to, "this line is empty");
        return;
    }
    if let Some(column) = unprintable(line) {
        byte_in(to, line, column);
        return;
    }
    if line.len() > lines::LONGEST {
        phrase(to, "this line has ");
        phrase(to, line.len());
        phrase(to, " bytes; a card has at most 80");
        return;
    }
    shape(to, line);
}

// Says why a line is no card.
fn explain(to: &impl Print, line: &[u8]) {
    if line.starts_with(&EBCDIC) {
        phrase(
            to,
            "the deck is in EBCDIC: this line begins with hex 61 61 40, which is '// ' there; a deck is in ASCII",
        );
        return;
    }
    if card::byte(line, line.len()) == RETURN {
        phrase(
            to,
            "this line ends with a carriage return, as lines of Windows do (CRLF); a card's line ends with a line feed alone",
        );
        return;
    }
    if let Some(column) = card::column_of(line, TAB) {
        phrase(to, "there is a tab in column ");
        phrase(to, column);
        phrase(to, "; a card has blanks");
        return;
    }
    written(to, line);
}

// Says what refusal 1 found in the line of a place. A deck that is longer than the room is not at hand.
pub fn no_card(to: &impl Print, deck: &[u8], place: usize) {
    if deck.len() == 0 {
        phrase(
            to,
            "this line is none of the cards: '// U ', '// UTT ', '// FS ' or '// END', 1 to 80 printable bytes, no tab and no carriage return",
        );
        return;
    }
    explain(to, card::card_at(deck, place));
}
