// What users call: the plan of a deck, the plan into a table that the caller lends, the run of a deck over a reel, the twins of a deck, and whether a reel from
// elsewhere is a true conversion. The crate bhexodana_c exports them for C and Fortran.
#![tactic(auto)]

ghost use Rattle.std.specs.Prelude.{◌≡◌, ◌++◌, ◌≤◌, length, take, drop};
ghost use Rattle.bhexodana.specs.Promise.{PlanOf, PlannedInto, RanInto, TwinsInto, JudgedAs};

use outcomes::Ran;
use plans::Planned;
use terms::Entry;
use twins::Twins;
use verdicts::Judged;

// The first `count` entries go into the lent table, and the others stay.
fn store(table: &mut [Entry], entries: [Entry; 64], count: usize)
    requires { (count ≤ 64) × (count ≤ length table.old) }
    ensures { table.new ≡ take count entries ++ drop count table.old }
{
    table[..count].copy_from_slice(&entries[..count]);
}

// The plan of a deck.
pub fn bhx_plan(deck: &[u8]) -> Planned
    ensures { PlanOf deck.now result }
{
    let mut row = [0u16; 320];
    let p = plans::plan_deck(deck, &mut row);
    p.answer
}

// The plan of a deck, stored into a table that the caller lends. A refusal changes no entry.
pub fn bhx_plan_into(deck: &[u8], table: &mut [Entry]) -> Planned
    ensures { PlannedInto deck.now table.old result table.new }
{
    let p = tables::plan_for(deck, table.len());
    store(table, p.entries, p.store);
    p.answer
}

// The run of a deck over a reel, into an output that the caller lends. A refusal changes no byte.
pub fn bhx_run(deck: &[u8], reel: &[u8], out: &mut [u8]) -> Ran
    ensures { RanInto deck.now reel.now out.old result out.new }
{
    let mut row = [0u16; 320];
    let p = plans::plan_deck(deck, &mut row);
    if p.answer.refusal != 0 {
        return outcomes::refused(p.answer.refusal, p.answer.place, p.answer.column);
    }
    let asked = p.asked;
    let end = 5 * asked.count;
    runs::run_plan(asked, &row[..end], reel, out)
}

// For a deck whose plan loses, two input records that it makes one, into an output that the caller lends. A refusal changes no byte.
pub fn bhx_twins(deck: &[u8], out: &mut [u8]) -> Twins
    ensures { TwinsInto deck.now out.old result out.new }
{
    twins::twins_of(deck, out)
}

// Whether theirs is a true conversion of ours by a deck of TR or TRF. Nothing is lent but to read.
pub fn bhx_judge(deck: &[u8], ours: &[u8], theirs: &[u8]) -> Judged
    ensures { JudgedAs deck.now ours.now theirs.now result }
{
    verdicts::judge_deck(deck, ours, theirs)
}
