// Converts reels as a deck asks, which is planned once. Prints a line for each reel: refusal, place, length, records, blocks. An output is written only where
// its run is finished. What the plan loses, which records R leaves out, what is refused, a run that took no record, and a file that cannot be read or written, is
// said in plain words on standard error; such a file gives no line. A refused deck gives one line, and no reel is tried.
//
//     convert_reels --check DECK REEL          says all that a run would say, and writes nothing
//     convert_reels --file MODE DECK OUT REEL  into OUT, which gets this mode, in octal, or for - the one that the system gives a new file
//     convert_reels DECK OUTDIR REEL..         each into OUTDIR under its own name, which stands behind the numbers and before the words
//     convert_reels DECK OUTDIR                the same, the names from standard input, one to a line
//     convert_reels --null DECK OUTDIR         the same, a NUL behind each name and each printed line
//     convert_reels --modes DECK OUTDIR        the same, and before each name the mode of its output, in octal, or nothing, and a blank
#![tactic(auto)]

mod destination;
mod entry;
mod form;
mod line;
mod list;
mod mode;
mod one;
mod series;

use form::Form;
use inputs::NoDeck;

const USAGE: &str = "\
usage: convert_reels --check DECK REEL
       convert_reels --file MODE DECK OUT REEL
       convert_reels DECK OUTDIR REEL..
       convert_reels [--null | --modes] DECK OUTDIR <LIST
";

fn refused(rt: &HostRuntime, form: Form, deck: &[u8], refusal: usize, place: usize, column: usize) {
    line::print(rt, outcomes::refused(refusal, place, column), b"", form.end);
    notices::refused(&rt.stderr(), deck, refusal, place, column);
}

// What is said of the deck comes before any reel.
fn convert(rt: &HostRuntime, form: Form, deck: &[u8]) {
    let mut row = [0u16; 320];
    let plan = plans::plan_deck(deck, &mut row);
    if plan.answer.refusal != 0 {
        refused(
            rt,
            form,
            deck,
            plan.answer.refusal,
            plan.answer.place,
            plan.answer.column,
        );
        return;
    }
    notices::loss(&rt.stderr(), plan);
    let asked = plan.asked;
    notices::left_out(&rt.stderr(), asked.first);
    let end = 5 * asked.count;
    series::convert(rt, form, deck, asked, &row[..end]);
}

fn convert_named(rt: &HostRuntime, form: Form) {
    let mut room = io::buffer();
    let Some(path) = files::name(rt, form.deck, &mut room) else {
        return;
    };
    let mut cards = io::large_buffer();
    match files::deck(rt, path, &mut cards) {
        Ok(n) => convert(rt, form, &cards[..n]),
        // A deck that is longer than the room is refused without a column, so its cards are not asked for.
        Err(NoDeck::Refused(refusal)) => refused(rt, form, b"", refusal.number, refusal.place, 0),
        Err(NoDeck::Failed { .. }) => {}
    }
}

fn main(rt: HostRuntime) {
    match form::read(&rt) {
        Some(form) => convert_named(&rt, form),
        None => notices::phrase(&rt.stderr(), USAGE),
    }
}
