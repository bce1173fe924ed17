// Answers cases from files, a line for each; the lines that are expected are worked from documents 01 and 02.
//
// The arguments name the files. A case is one line of words with one blank between; a line that begins with `#` is a comment.
//   NAME half pack|unpack SOURCE M    what M bytes of hex 5A hold once SOURCE was packed or unpacked into them
//   NAME deck DECK                    the refusal, 1 to 7, its place and its column; or 0 0 0 and what the cards ask for
//   NAME reel DECK REEL               the refusal, 1 to 7, 11 or 12, its place and its column; or 0 0 0, the blocks, the records and the length of each
//   NAME plan DECK ENTRIES            refusal, place, column, keeping, lost place and field count; and the digest of a table of 70 entries of which
//                                     the first ENTRIES were lent. ENTRIES `-`: no table, and `-` for the digest
//   NAME run DECK REEL ROOM           refusal, place, column, length, records and blocks; the digest of an output of 70,000 bytes of which the first
//                                     ROOM were lent; and the reel written, `..` where it has over 64 bytes, `-` where the run was refused
//   NAME twins DECK ROOM              refusal, place, column, reason and length; the digest of an output of 70,000 bytes of which the first ROOM were
//                                     lent; and the two records, `..` where they have over 64 bytes, `-` where the call was refused
//   NAME judge DECK OURS THEIRS       refusal, place, column, yes and number
// Bytes are hex digits, or xCOUNT:HH for COUNT bytes HH, in parts joined by `+`; `-` is no byte.
#![tactic(auto)]

mod alike;
mod asked;
mod digest;
mod judge;
mod plan;
mod reel;
mod run;
mod shown;
mod text;

ghost use Rattle.std.specs.Prelude.{◌≡◌, length};

use std::fs::File;
use std::io::{Error, ErrorKind, Print, Result};
use words::{fail, phrase, say};

// Room for a whole file of cases.
fn file_room() -> [u8; 262144]
    ensures { 262144 ≡ length result }
{
    [0; 262144]
}

// Room for a deck or a reel; the longest reel has 65,536 bytes.
fn room() -> [u8; 70000]
    ensures { 70000 ≡ length result }
{
    [0; 70000]
}

// Packs or unpacks src into dst.
fn half_into(step: &[u8], src: &[u8], dst: &mut [u8]) {
    match step {
        b"pack" => halves::pack(src, dst),
        _ => halves::unpack(src, dst),
    };
}

// What all of dst holds once src was packed or unpacked into it.
fn say_half(to: &impl Print, step: &[u8], src: &[u8], dst: &mut [u8]) {
    half_into(step, src, dst);
    shown::bytes(to, dst);
}

fn half(to: &impl Print, words: &[u8]) {
    let (step, rest) = text::cut(words, b' ');
    let (source, count) = text::cut(rest, b' ');
    let mut src = io::buffer();
    let mut dst = [0x5Au8; 64];
    let m = text::number(count).min(dst.len());
    say_half(to, step, text::decode(source, &mut src), &mut dst[..m]);
}

fn deck(to: &impl Print, words: &[u8]) {
    let mut room = room();
    let deck = text::decode(words, &mut room);
    let mut row = [0u16; 320];
    match cards::read_deck(deck, &mut row) {
        Ok(asked) => {
            shown::refusal(to, 0, 0, 0);
            asked::tell(to, deck, asked, &row[..5 * asked.count]);
        }
        Err(refusal) => shown::refusal(to, refusal.number, refusal.place, refusal.column),
    }
}

fn deck_and_reel(to: &impl Print, words: &[u8]) {
    let (deck, reel) = text::cut(words, b' ');
    let mut bytes = room();
    let mut row = [0u16; 320];
    match cards::read_deck(text::decode(deck, &mut bytes), &mut row) {
        Ok(asked) => {
            let form = tasks::form_of(tasks::task_of(asked));
            reel::tell(to, form, text::decode(reel, &mut bytes));
        }
        Err(refusal) => shown::refusal(to, refusal.number, refusal.place, refusal.column),
    }
}

fn deck_and_table(to: &impl Print, words: &[u8]) {
    let (deck, entries) = text::cut(words, b' ');
    let mut room = room();
    let deck = text::decode(deck, &mut room);
    match entries {
        b"-" => plan::tell(to, deck),
        _ => plan::tell_into(to, deck, text::number(entries).min(70)),
    }
}

fn deck_and_output(to: &impl Print, words: &[u8]) {
    let (deck, rest) = text::cut(words, b' ');
    let (reel, count) = text::cut(rest, b' ');
    let mut deck_room = room();
    let deck = text::decode(deck, &mut deck_room);
    let mut reel_room = room();
    let reel = text::decode(reel, &mut reel_room);
    let mut out = room();
    run::mark(&mut out);
    let lent = text::number(count).min(out.len());
    run::tell(to, deck, reel, &mut out, lent);
}

fn deck_and_records(to: &impl Print, words: &[u8]) {
    let (deck, count) = text::cut(words, b' ');
    let mut deck_room = room();
    let deck = text::decode(deck, &mut deck_room);
    let mut out = room();
    run::mark(&mut out);
    let lent = text::number(count).min(out.len());
    alike::tell(to, deck, &mut out, lent);
}

fn deck_and_two_reels(to: &impl Print, words: &[u8]) {
    let (deck, rest) = text::cut(words, b' ');
    let (ours, theirs) = text::cut(rest, b' ');
    let mut deck_room = room();
    let deck = text::decode(deck, &mut deck_room);
    let mut ours_room = room();
    let ours = text::decode(ours, &mut ours_room);
    let mut theirs_room = room();
    let theirs = text::decode(theirs, &mut theirs_room);
    judge::tell(to, deck, ours, theirs);
}

fn case(to: &impl Print, line: &[u8]) {
    let (name, rest) = text::cut(line, b' ');
    let (subject, words) = text::cut(rest, b' ');
    say(to, name);
    say(to, b" ");
    match subject {
        b"half" => half(to, words),
        b"deck" => deck(to, words),
        b"reel" => deck_and_reel(to, words),
        b"plan" => deck_and_table(to, words),
        b"run" => deck_and_output(to, words),
        b"twins" => deck_and_records(to, words),
        b"judge" => deck_and_two_reels(to, words),
        _ => phrase(to, "is no case"),
    }
    say(to, b"\n");
}

// An empty line is a comment too.
fn is_comment(line: &[u8]) -> bool {
    matches!(line, [] | [b'#', ..])
}

fn lines(to: &impl Print, all: &[u8]) {
    for line in all.split(|b| *b == b'\n') {
        if !is_comment(line) {
            case(to, line);
        }
    }
}

// The file, open to read. A name that is no text names none.
fn open(rt: &HostRuntime, path: &[u8]) -> Result<File> {
    let text = str::from_utf8(path).map_err(|_| Error::from(ErrorKind::InvalidInput))?;
    File::open(rt, text)
}

// The cases of a file, as many as its room takes.
fn cases(rt: &HostRuntime, file: File) {
    let mut all = file_room();
    let mut from = file;
    let n = match inputs::fill(&mut from, &mut all) {
        Ok(n) => n,
        Err(failure) => failure.length,
    };
    lines(rt, &all[..n]);
    if n == 262144 {
        phrase(rt, "a file of cases is too long\n");
    }
}

fn file(rt: &HostRuntime, argument: usize) {
    let mut path = io::buffer();
    let length = inputs::argument(rt, argument, &mut path);
    match open(rt, &path[..length]) {
        Ok(file) => cases(rt, file),
        Err(why) => fail(&rt.stderr(), &path[..length], why),
    }
}

fn main(rt: HostRuntime) {
    for i in 1..inputs::argument_count(&rt) {
        file(&rt, i);
    }
}
