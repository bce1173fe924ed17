// Is a reel from elsewhere a true conversion of ours? Refusals 1 to 14 as for a run, with TC and TF under 8, then 17 and 18 of the foreign reel, and then the first record
// that disagrees or lacks a partner. Document 02, order 7. Nothing is lent but to read, and no reel is built.
#![tactic(auto)]

ghost use Rattle.std.specs.Prelude.{◌≡◌, true, ◌≤◌, ◌<◌};
ghost use Rattle.rules.specs.Asked.{asked_of};
ghost use Rattle.rules.specs.Judge.{is_filling, judge, judge_answer, judgement};
ghost use Rattle.rules.specs.Lent.{zone_f};
ghost use Rattle.rules.proofs.Judge.JudgeSteps.{copies_blocks};
ghost use Rattle.terms.specs.Meaning.{mode_of, plan_in};
ghost use Rattle.rows.specs.Kept.{fields_in};
ghost use Rattle.rows.specs.Fair.{PlanFair};
ghost use Rattle.checks.specs.Promise.{SomePlanGiven};
ghost use Rattle.verdicts.specs.Promise.{refused_with, told_as, judged_of, OursRead, OfOurs, OfPlan, OursSpanned, OfSpanned, OfNumbers, NotJudged};

use reels::ReelError;
use terms::{Asked, Mode, Task};

// What is answered: refusal, place and column; 1 for a true conversion or 0, and the number, from 1 in the output, of the first record that disagrees or lacks a
// partner, or 0. In C it lies as it stands here.
#[repr(C)]
#[derive(Clone, Copy)]
pub struct Judged {
    pub refusal: usize,
    pub place: usize,
    pub column: usize,
    pub yes: usize,
    pub number: usize,
}

// Refused, the last two are 0. Each step below ends in the C struct, and nobody looks into it again: an error and `?` would add a type and a conversion.
fn refused(refusal: usize, place: usize, column: usize) -> Judged
    ensures { result ≡ refused_with refusal place column }
{
    Judged {
        refusal,
        place,
        column,
        yes: 0,
        number: 0,
    }
}

// Yes where no record disagrees or lacks a partner. The struct, as C sees it, writes 0 for none.
fn told(number: Option<usize>) -> Judged
    ensures { result ≡ told_as number }
{
    Judged {
        refusal: 0,
        place: 0,
        column: 0,
        yes: usize::from(number.is_none()),
        number: number.unwrap_or(0),
    }
}

// ---- in FF and FV

// The foreign reel is read whole before records are compared.
fn judge_blocks(task: Task, fields: &[u16], ours: &[u8], theirs: &[u8]) -> Judged
    requires { OursRead task fields.now ours.now }
    ensures { OfOurs task fields.now ours.now theirs.now result }
{
    match reels::read_reel(tasks::form_under(task), theirs) {
        Ok(_) => told(pairs::first_apart(task, fields, ours, theirs)),
        Err(ReelError::NotReel) => refused(17, 0, 0),
        Err(ReelError::BadBlock { block }) => refused(18, block, 0),
    }
}

// A run with no room goes as far as 15, since every reel has a header: whatever else it is refused with is at fault with ours.
fn in_blocks(task: Task, fields: &[u16], ours: &[u8], theirs: &[u8]) -> Judged
    requires { SomePlanGiven task fields.now }
    ensures { OfPlan task fields.now ours.now theirs.now result }
{
    let ran = checks::check(task, fields, ours, 0);
    if ran.refusal != 15 {
        return refused(ran.refusal, ran.place, 0);
    }
    judge_blocks(task, fields, ours, theirs)
}

// ---- in FS

// The same, with blocks of at most m bytes, where so many records of ours are passed over and so many are left.
fn judge_spans(m: usize, ours: &[u8], passed: usize, count: usize, theirs: &[u8]) -> Judged
    requires { OursSpanned ours.now passed count × (m < 65536) }
    ensures { OfSpanned m ours.now passed count theirs.now result }
{
    match turns::read_spanned(m, theirs) {
        Ok(found) => told(span_pairs::first_apart(ours, passed, count, theirs, found.records)),
        Err(ReelError::NotReel) => refused(17, 0, 0),
        Err(ReelError::BadBlock { block: bad }) => refused(18, bad, 0),
    }
}

// Ours has blocks of at most g bytes, and records are taken from number `first` on. No field is selected and nothing is filled, so that 13 and 14 do not occur.
fn in_spans(g: usize, m: usize, first: usize, ours: &[u8], theirs: &[u8]) -> Judged
    requires { (g < 65536) × (m < 65536) × (1 ≤ first) × (first ≤ 65536) }
    ensures { OfNumbers g m first ours.now theirs.now result }
{
    match turns::read_spanned(g, ours) {
        Ok(found) => {
            let passed = (first - 1).min(found.records);
            judge_spans(m, ours, passed, found.records - passed, theirs)
        }
        Err(ReelError::NotReel) => refused(11, 0, 0),
        Err(ReelError::BadBlock { block }) => refused(12, block, 0),
    }
}

// ---- of a plan, and of a deck

fn judge_plan(asked: Asked, fields: &[u16], ours: &[u8], theirs: &[u8]) -> Judged
    requires { PlanFair asked fields.now }
    ensures { result ≡ judged_of (judge_answer (judgement (plan_in zone_f asked (fields_in fields.now)) ours.now theirs.now)) }
{
    if terms::is_fs(asked.format) {
        let g = terms::block_length(asked.input);
        let m = terms::block_length(asked.output);
        return in_spans(g, m, asked.first, ours, theirs);
    }
    let task = tasks::task_of(asked);
    in_blocks(task, fields, ours, theirs)
}

// TR or TRF.
fn fills(mode: Mode) -> bool
    ensures { result ≡ is_filling (mode_of mode) }
{
    matches!(mode, Mode::TR | Mode::TRF)
}

// Whether the cards of a deck ask for TC or TF, which keep the blocks of the input.
fn keeps_blocks(deck: &[u8]) -> bool
    ensures { result ≡ copies_blocks (asked_of deck.now) }
{
    let mut row = [0u16; 320];
    match cards::read_deck(deck, &mut row) {
        Ok(asked) => !fills(asked.mode),
        Err(_) => false,
    }
}

// A deck that is refused. TC and TF are asked before the other places of 8, and before 9 and 10; 1 to 7 come before them.
fn refused_deck(deck: &[u8], refusal: usize, place: usize, column: usize) -> Judged
    ensures { NotJudged deck.now refusal place column result }
{
    if keeps_blocks(deck) {
        return refused(8, 1, 0);
    }
    refused(refusal, place, column)
}

// Whether theirs is a true conversion of ours by a deck.
pub fn judge_deck(deck: &[u8], ours: &[u8], theirs: &[u8]) -> Judged
    ensures { result ≡ judged_of (judge_answer (judge deck.now ours.now theirs.now)) }
{
    let mut row = [0u16; 320];
    let plan = plans::plan_deck(deck, &mut row);
    if plan.answer.refusal != 0 {
        return refused_deck(
            deck,
            plan.answer.refusal,
            plan.answer.place,
            plan.answer.column,
        );
    }
    let asked = plan.asked;
    let mode = asked.mode;
    if !fills(mode) {
        return refused(8, 1, 0);
    }
    let end = 5 * asked.count;
    judge_plan(asked, &row[..end], ours, theirs)
}
