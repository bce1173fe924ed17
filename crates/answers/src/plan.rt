// What a plan answers, and what it leaves of a table of which a part was lent, as words of a line.
ghost use Rattle.std.specs.Prelude.{◌≡◌, ◌≤◌, ◌<◌, take, drop};
ghost use Rattle.bhexodana.specs.Promise.{PlannedInto};

use crate::digest::Digest;
use crate::shown;
use plans::Planned;
use std::array;
use std::io::Print;
use terms::Entry;
use words::phrase;

// What a plan answers, and the whole table after it.
#[derive(Clone, Copy)]
struct Lent {
    answer: Planned,
    table: [Entry; 70],
}

// The plan of a deck into the first entries of a table; the others stay.
fn lend(deck: &[u8], before: [Entry; 70], entries: usize) -> Lent
    requires { entries ≤ 70 }
    ensures { PlannedInto deck.now (take entries before) result.answer (take entries result.table) × (drop entries result.table ≡ drop entries before) }
{
    let mut table = before;
    let answer = bhexodana::bhx_plan_into(deck, &mut table[..entries]);
    Lent { answer, table }
}

// An entry that no plan has, since its kind is over 2; another at each place.
fn mark(i: u16) -> Entry
    requires { i < 70 }
{
    Entry {
        kind: (i + 7) as u8,
        part: 0,
        r: i + 1000,
        input: i + 2000,
        output: i + 3000,
        t: i + 4000,
    }
}

fn with_entry(digest: Digest, entry: Entry) -> Digest {
    // Kind and part as one number, which is the kind where the part is data.
    let first = u16::from(entry.kind) + 256 * u16::from(entry.part);
    digest
        .with(first)
        .with(entry.r)
        .with(entry.input)
        .with(entry.output)
        .with(entry.t)
}

fn tell_answer(to: &impl Print, answer: Planned) {
    shown::numbers(
        to,
        &[
            answer.refusal,
            answer.place,
            answer.column,
            answer.keeping,
            answer.lost,
            answer.fields,
        ],
    );
}

// The plan of a deck with no table.
pub(crate) fn tell(to: &impl Print, deck: &[u8]) {
    tell_answer(to, bhexodana::bhx_plan(deck));
    phrase(to, " -");
}

// The plan of a deck into a table of so many entries.
pub(crate) fn tell_into(to: &impl Print, deck: &[u8], entries: usize)
    requires { entries ≤ 70 }
{
    let marks = array::from_fn(|i| mark(i as u16));
    let after = lend(deck, marks, entries);
    tell_answer(to, after.answer);
    let digest = after
        .table
        .iter()
        .fold(Digest::new(), |digest, entry| with_entry(digest, *entry));
    phrase(to, format_args!(" {}", digest.number));
}
