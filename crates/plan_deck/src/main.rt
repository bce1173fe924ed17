// Reads a deck from standard input and prints the plan's line: refusal, place, 1 for keeping or 0, lost place or 0; with the argument `table` then the lines of `table`.
// What the plan's line means in plain words goes to standard error, where the deck is refused, the plan loses or R leaves records out; with it the card, where a column of
// it is refused.
#![tactic(auto)]

mod table;

use inputs::NoDeck;

fn refused(rt: &HostRuntime, deck: &[u8], refusal: usize, place: usize, column: usize) {
    notices::line(rt, &[refusal, place, 0, 0]);
    notices::refused(&rt.stderr(), deck, refusal, place, column);
}

// Whether the table is asked for.
fn wants_table(rt: &HostRuntime) -> bool {
    let mut room = io::buffer();
    let n = inputs::argument(rt, 1, &mut room);
    matches!(&room[..n], b"table")
}

// A deck that is here as a whole.
fn whole(rt: &HostRuntime, deck: &[u8]) {
    let mut row = [0u16; 320];
    let p = plans::plan_deck(deck, &mut row);
    if p.answer.refusal != 0 {
        refused(rt, deck, p.answer.refusal, p.answer.place, p.answer.column);
        return;
    }
    notices::line(rt, &[0, 0, p.answer.keeping, p.answer.lost]);
    notices::loss(&rt.stderr(), p);
    let asked = p.asked;
    notices::left_out(&rt.stderr(), asked.first);
    if wants_table(rt) {
        let end = 5 * asked.count;
        table::print(rt, deck, asked, &row[..end]);
    }
}

fn main(rt: HostRuntime) {
    let mut room = io::large_buffer();
    match inputs::deck(&mut rt.stdin(), &mut room) {
        Ok(n) => whole(&rt, &room[..n]),
        // A deck that is longer than the room is refused without a column, so its cards are not asked for.
        Err(NoDeck::Refused(refusal)) => refused(&rt, b"", refusal.number, refusal.place, 0),
        Err(NoDeck::Failed { why, .. }) => notices::fail(&rt.stderr(), b"standard input", why),
    }
}
