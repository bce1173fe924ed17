// Judges a reel from elsewhere: judge_reel DECK OURS THEIRS. Prints one line: refusal, place, column, 1 where theirs is a true conversion of ours or 0,
// and the number, in the output, of the first record that disagrees or lacks a partner, or 0. What that means is said in plain words on standard error, and so
// is a file that cannot be read; such a file gives no line.
#![tactic(auto)]

mod difference;
mod verdict;

use inputs::NoDeck;
use std::io::Print;

// Says that TC and TF are refused, where the plan is not refused so by itself.
fn say_refused(
    to: &impl Print,
    deck: &[u8],
    ours: &[u8],
    refusal: usize,
    place: usize,
    column: usize,
) {
    let mut row = [0u16; 320];
    let plan = plans::plan_deck(deck, &mut row);
    if refusal == 8 && (plan.answer.refusal != 8 || plan.answer.place != place) {
        notices::phrase(
            to,
            "refused by 8, at card 1: a reel from elsewhere is judged with TR or TRF alone, and this deck has TC or TF\n",
        );
        return;
    }
    reports::refused(to, deck, ours, refusal, place, column);
}

// A deck that judges has a plan, so that its second refusal does not arise.
fn explain(to: &impl Print, deck: &[u8], apart: usize, ours: &[u8], theirs: &[u8]) {
    let mut row = [0u16; 320];
    let plan = plans::plan_deck(deck, &mut row);
    if plan.answer.refusal != 0 {
        return;
    }
    if apart == 0 {
        verdict::yes(to, plan, theirs);
        return;
    }
    let asked = plan.asked;
    let end = 5 * asked.count;
    verdict::no(to, deck, asked, &row[..end], apart, ours, theirs);
}

fn judge(rt: &HostRuntime, deck: &[u8], ours: &[u8], theirs: &[u8]) {
    let judged = bhexodana::bhx_judge(deck, ours, theirs);
    notices::line(
        rt,
        &[
            judged.refusal,
            judged.place,
            judged.column,
            judged.yes,
            judged.number,
        ],
    );
    if judged.refusal > 16 {
        reports::refused_theirs(&rt.stderr(), deck, theirs, judged.refusal, judged.place);
        return;
    }
    if judged.refusal != 0 {
        say_refused(
            &rt.stderr(),
            deck,
            ours,
            judged.refusal,
            judged.place,
            judged.column,
        );
        return;
    }
    explain(&rt.stderr(), deck, judged.number, ours, theirs);
}

fn judge_files(rt: &HostRuntime, deck: &[u8], ours: &[u8], theirs: &[u8]) {
    let mut cards = io::large_buffer();
    let read = files::deck(rt, deck, &mut cards);
    if let Err(NoDeck::Failed { .. }) = read {
        return;
    }
    let mut blocks = files::reel_room();
    let Ok(ours) = files::reel(rt, ours, &mut blocks) else {
        return;
    };
    let mut others = files::reel_room();
    let Ok(theirs) = files::reel(rt, theirs, &mut others) else {
        return;
    };
    match read {
        Ok(n) => judge(rt, &cards[..n], ours, theirs),
        // A deck that is longer than the room is refused without a column, so its cards are not asked for.
        Err(NoDeck::Refused(refusal)) => {
            notices::line(rt, &[refusal.number, refusal.place, 0, 0, 0]);
            notices::refused(&rt.stderr(), b"", refusal.number, refusal.place, 0);
        }
        Err(NoDeck::Failed { .. }) => {}
    }
}

fn judge_named(rt: &HostRuntime) {
    let mut first = io::buffer();
    let deck = files::name(rt, 1, &mut first);
    let mut second = io::buffer();
    let ours = files::name(rt, 2, &mut second);
    let mut third = io::buffer();
    let theirs = files::name(rt, 3, &mut third);
    if let (Some(deck), Some(ours), Some(theirs)) = (deck, ours, theirs) {
        judge_files(rt, deck, ours, theirs);
    }
}

fn main(rt: HostRuntime) {
    if inputs::argument_count(&rt) == 4 {
        judge_named(&rt);
        return;
    }
    notices::phrase(&rt.stderr(), "usage: judge_reel DECK OURS THEIRS\n");
}
