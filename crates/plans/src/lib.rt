// From a deck to its plan: refusals 1 to 10, keeping and the lost place.
#![tactic(auto)]

mod verdict;

ghost use Rattle.std.specs.Prelude.{◌≡◌, [], ◌*◌, ◌≤◌, length, take};
ghost use Rattle.rows.specs.Kept.{row_of};
ghost use Rattle.plans.specs.Verdict.{verdict_answer, SaysSome};
ghost use Rattle.plans.specs.Promise.{refused_plan, refused_deck_plan, planned_by, Verdicts, Plans};

use terms::Asked;
pub use verdict::tail_kept;

// What a plan answers: refusal, place, column, 1 for keeping or 0, lost place or 0, field count. In C it lies as it stands here.
#[repr(C)]
#[derive(Clone, Copy)]
pub struct Planned {
    pub refusal: usize,
    pub place: usize,
    pub column: usize,
    pub keeping: usize,
    pub lost: usize,
    pub fields: usize,
}

// Refused, the others are 0.
pub fn refused(number: usize, place: usize, column: usize) -> Planned
    ensures { result ≡ refused_plan number place column }
{
    Planned {
        refusal: number,
        place,
        column,
        keeping: 0,
        lost: 0,
        fields: 0,
    }
}

// ---- the plan of a deck

// What a plan answers, and the plan but for its fields, which stand in a row: what the deck asks for, or nothing where it is refused. No Result: the exports to C
// return the answer of both cases as it stands here.
#[derive(Clone, Copy)]
pub struct DeckPlan {
    pub answer: Planned,
    pub asked: Asked,
}

fn refused_deck(number: usize, place: usize, column: usize) -> DeckPlan
    ensures { result ≡ refused_deck_plan number place column }
{
    let answer = refused(number, place, column);
    let asked = cards::nothing_asked();
    DeckPlan { answer, asked }
}

// It keeps where there is no lost place.
fn accepted(asked: Asked, lost: Option<usize>) -> DeckPlan
    ensures { result ≡ planned_by asked (verdict_answer (Ok lost)) }
{
    let answer = Planned {
        refusal: 0,
        place: 0,
        column: 0,
        keeping: usize::from(lost.is_none()),
        lost: lost.unwrap_or(0),
        fields: asked.count,
    };
    DeckPlan { answer, asked }
}

// What the cards ask for, judged. No byte of a card is at fault for 8 to 10, so these have no column.
fn judged(asked: Asked, row: &[u16]) -> DeckPlan
    requires count_in_bounds { 5 * asked.count ≤ length row.now }
    requires says_some { SaysSome asked (take (5 * asked.count) row.now) }
    ensures { Verdicts asked (take (5 * asked.count) row.now) result }
{
    let end = 5 * asked.count;
    match verdict::weigh_plan(asked, &row[..end]) {
        Ok(lost) => accepted(asked, lost),
        Err(refused) => refused_deck(refused.number, refused.place, 0),
    }
}

// The plan of a deck. Its fields go into the lent row, which holds none before; a refused deck leaves none in it.
pub fn plan_deck(deck: &[u8], row: &mut [u16; 320]) -> DeckPlan
    requires { row.old ≡ row_of [] }
    ensures { Plans deck.now result row.new }
{
    match cards::read_deck(deck, row) {
        Ok(asked) => {
            let plan = judged(asked, row);
            if plan.answer.refusal != 0 {
                rows::clear(row);
            }
            plan
        }
        Err(refusal) => refused_deck(refusal.number, refusal.place, refusal.column),
    }
}
