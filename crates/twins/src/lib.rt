// For a deck whose plan loses, two input records that it makes one, and the reason (document 02, order 3).
#![tactic(auto)]

ghost use Rattle.std.specs.Prelude.{◌≡◌};
ghost use Rattle.rules.specs.Plan.{lost_at};
ghost use Rattle.rules.specs.Lent.{zone_f};
ghost use Rattle.rules.specs.Twins.{reason as reasonFor};
ghost use Rattle.terms.specs.Meaning.{plan_in};
ghost use Rattle.rows.specs.Kept.{fields_in};
ghost use Rattle.rows.specs.Fair.{PlanFair};
ghost use Rattle.twins.specs.Promise.{refused_twins, Loses, ShownInto, TwinsWritten};

use terms::Asked;

// What is answered: refusal, place, column, the reason, and how many bytes were written. In C it lies as it stands here.
#[repr(C)]
#[derive(Clone, Copy)]
pub struct Twins {
    pub refusal: usize,
    pub place: usize,
    pub column: usize,
    pub reason: usize,
    pub length: usize,
}

// Refused, reason and length are 0.
fn refused(number: usize, place: usize, column: usize) -> Twins
    ensures { result ≡ refused_twins number place column }
{
    Twins {
        refusal: number,
        place,
        column,
        reason: 0,
        length: 0,
    }
}

// The reason of a plan that loses: the tail, or what becomes of the lost half.
fn why(asked: Asked, fields: &[u16], lost: usize) -> usize
    requires plan_fair { PlanFair asked fields.now }
    requires lost_value { lost ≡ lost_at (plan_in zone_f asked (fields_in fields.now)) }
    ensures { result ≡ reasonFor (plan_in zone_f asked (fields_in fields.now)) }
{
    let input = asked.input;
    if lost == 2 * terms::record_length(input) {
        return 4;
    }
    usize::from(u8::from(reasons::reason(fields, lost)))
}

// Of a plan that loses: refusal 15, or both records.
fn show(asked: Asked, fields: &[u16], lost: usize, out: &mut [u8]) -> Twins
    requires plan_fair { PlanFair asked fields.now }
    requires loses { Loses (plan_in zone_f asked (fields_in fields.now)) lost }
    ensures { ShownInto (plan_in zone_f asked (fields_in fields.now)) out.old result out.new }
{
    let input = asked.input;
    let n = terms::record_length(input);
    let length = twin_records::needed(n, lost);
    if out.len() < length {
        return refused(15, length, 0);
    }
    let mut values = [0u8; 8192];
    keeping::lowest_halves(fields, &mut values);
    twin_records::put_twins(&values, n, lost, out);
    Twins {
        refusal: 0,
        place: 0,
        column: 0,
        reason: why(asked, fields, lost),
        length,
    }
}

// The two records of a deck whose plan loses. A plan that keeps is 16, before 15. A refusal changes no byte.
pub fn twins_of(deck: &[u8], out: &mut [u8]) -> Twins
    ensures { TwinsWritten deck.now out.old result out.new }
{
    let mut row = [0u16; 320];
    let p = plans::plan_deck(deck, &mut row);
    if p.answer.refusal != 0 {
        return refused(p.answer.refusal, p.answer.place, p.answer.column);
    }
    if p.answer.keeping != 0 {
        return refused(16, 0, 0);
    }
    let asked = p.asked;
    let end = 5 * asked.count;
    show(asked, &row[..end], p.answer.lost, out)
}
