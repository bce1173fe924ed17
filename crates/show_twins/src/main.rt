// Shows two records that a deck's plan makes one: show_twins DECK [records FILE] [reel FILE]. Prints one line: refusal, place, column, reason,
// length. The records, why they become alike and what they become is shown on standard error. They are also written to the files that are
// asked for: their bytes alone, and a reel that a run of the deck takes. What is refused, and a file that cannot be read or written, is said
// in plain words on standard error; such a file gives no line.
#![tactic(auto)]

mod arguments;
mod blocks;
mod fields;
mod hex;
mod outcome;
mod reason;
mod room;

ghost use Rattle.std.specs.Prelude.{◌≡◌, length};
ghost use Rattle.rows.specs.Fair.{PlanFair};

use arguments::Wanted;
use inputs::NoDeck;
use std::io::Print;
use terms::Asked;

// Room for the longest twins: each has at most 4,096 bytes, and one more where the tail is shown.
fn twins_room() -> [u8; 8193]
    ensures { 8193 ≡ length result }
{
    [0; 8193]
}

fn refused(rt: &HostRuntime, deck: &[u8], refusal: usize, place: usize, column: usize) {
    notices::line(rt, &[refusal, place, column, 0, 0]);
    notices::refused(&rt.stderr(), deck, refusal, place, column);
}

// Whether the file, if one is asked for, now holds the bytes of both records.
fn write_records(rt: &HostRuntime, path: Option<&[u8]>, bytes: &[u8]) -> bool {
    match path {
        Some(path) => files::write(rt, path, bytes, None),
        None => true,
    }
}

// The same for their reel, which a run of the deck takes: copies of the first stand in for the records before R.
fn write_reel(
    rt: &HostRuntime,
    path: Option<&[u8]>,
    asked: Asked,
    first: &[u8],
    second: &[u8],
) -> bool {
    let Some(path) = path else {
        return true;
    };
    let mut room = io::large_buffer();
    let Some(reel) = blocks::reel(asked.format, asked.first, first, second, &mut room) else {
        files::say_name(&rt.stderr(), path);
        notices::phrase(
            &rt.stderr(),
            ": not written: with the records before R the reel would have more than 65,536 bytes\n",
        );
        return true;
    };
    files::write(rt, path, reel, None)
}

// What people see: the records, why they become alike, and what they become.
fn explain(
    to: &impl Print,
    deck: &[u8],
    asked: Asked,
    fields: &[u16],
    reason: usize,
    lost: usize,
    first: &[u8],
    second: &[u8],
)
    requires { PlanFair asked fields.now }
{
    notices::phrase(to, "two records that this deck makes one:\n");
    hex::pair(to, first, second, hex::lost_digits(lost, reason == 4));
    reason::explain(to, deck, asked, fields, reason, lost);
    notices::phrase(to, "both become:\n");
    outcome::show(to, asked, fields, first);
}

// The twins are of one length but for the tail, so that the first ends in the middle. The files come first: one that is not written gives no line.
fn show(
    rt: &HostRuntime,
    deck: &[u8],
    asked: Asked,
    fields: &[u16],
    reason: usize,
    lost: usize,
    both: &[u8],
    records: Option<&[u8]>,
    reel: Option<&[u8]>,
)
    requires { PlanFair asked fields.now }
{
    let n = both.len() / 2;
    let first = room::front(both, n);
    let second = room::behind(both, n);
    if write_records(rt, records, both) && write_reel(rt, reel, asked, first, second) {
        notices::line(rt, &[0, 0, 0, reason, both.len()]);
        explain(
            &rt.stderr(),
            deck,
            asked,
            fields,
            reason,
            lost,
            first,
            second,
        );
    }
}

// A deck that has twins has a plan, so that its second refusal does not arise.
fn show_twins(rt: &HostRuntime, deck: &[u8], records: Option<&[u8]>, reel: Option<&[u8]>) {
    let mut room = twins_room();
    let twins = bhexodana::bhx_twins(deck, &mut room);
    if twins.refusal != 0 {
        refused(rt, deck, twins.refusal, twins.place, twins.column);
        return;
    }
    let mut row = [0u16; 320];
    let plan = plans::plan_deck(deck, &mut row);
    if plan.answer.refusal == 0 {
        let asked = plan.asked;
        let both = room::front(&room, twins.length);
        let end = 5 * asked.count;
        show(
            rt,
            deck,
            asked,
            &row[..end],
            twins.reason,
            plan.answer.lost,
            both,
            records,
            reel,
        );
    }
}

fn show_files(rt: &HostRuntime, deck: &[u8], records: Option<&[u8]>, reel: Option<&[u8]>) {
    let mut cards = io::large_buffer();
    match files::deck(rt, deck, &mut cards) {
        Ok(n) => show_twins(rt, &cards[..n], records, reel),
        // A deck that is longer than the room is refused without a column, so its cards are not asked for.
        Err(NoDeck::Refused(refusal)) => refused(rt, b"", refusal.number, refusal.place, 0),
        Err(NoDeck::Failed { .. }) => {}
    }
}

fn show_named(rt: &HostRuntime, wanted: Wanted) {
    let mut first = io::buffer();
    let deck = files::name(rt, 1, &mut first);
    let mut second = io::buffer();
    let records = arguments::file(rt, wanted.records, &mut second);
    let mut third = io::buffer();
    let reel = arguments::file(rt, wanted.reel, &mut third);
    if let (Some(deck), Ok(records), Ok(reel)) = (deck, records, reel) {
        show_files(rt, deck, records, reel);
    }
}

fn main(rt: HostRuntime) {
    match arguments::read(&rt) {
        Some(wanted) => show_named(&rt, wanted),
        None => notices::phrase(
            &rt.stderr(),
            "usage: show_twins DECK [records FILE] [reel FILE]\n",
        ),
    }
}
