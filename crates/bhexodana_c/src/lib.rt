// What callers in C and Fortran link: the functions of the crate bhexodana under their own names, with the same promises.
#![tactic(auto)]

ghost use Rattle.bhexodana.specs.Promise.{PlanOf, PlannedInto, RanInto, TwinsInto, JudgedAs};

use outcomes::Ran;
use plans::Planned;
use terms::Entry;
use twins::Twins;
use verdicts::Judged;

// The plan of a deck.
#[unsafe(no_mangle)]
pub extern "C" fn bhx_plan(deck: &[u8]) -> Planned
    ensures { PlanOf deck.now result }
{
    bhexodana::bhx_plan(deck)
}

// The plan of a deck, stored into a table that the caller lends. A refusal changes no entry.
#[unsafe(no_mangle)]
pub extern "C" fn bhx_plan_into(deck: &[u8], table: &mut [Entry]) -> Planned
    ensures { PlannedInto deck.now table.old result table.new }
{
    bhexodana::bhx_plan_into(deck, table)
}

// The run of a deck over a reel, into an output that the caller lends. A refusal changes no byte.
#[unsafe(no_mangle)]
pub extern "C" fn bhx_run(deck: &[u8], reel: &[u8], out: &mut [u8]) -> Ran
    ensures { RanInto deck.now reel.now out.old result out.new }
{
    bhexodana::bhx_run(deck, reel, out)
}

// For a deck whose plan loses, two input records that it makes one, into an output that the caller lends. A refusal changes no byte.
#[unsafe(no_mangle)]
pub extern "C" fn bhx_twins(deck: &[u8], out: &mut [u8]) -> Twins
    ensures { TwinsInto deck.now out.old result out.new }
{
    bhexodana::bhx_twins(deck, out)
}

// Whether theirs is a true conversion of ours by a deck of TR or TRF. Nothing is lent but to read.
#[unsafe(no_mangle)]
pub extern "C" fn bhx_judge(deck: &[u8], ours: &[u8], theirs: &[u8]) -> Judged
    ensures { JudgedAs deck.now ours.now theirs.now result }
{
    bhexodana::bhx_judge(deck, ours, theirs)
}
