// What a verdict means, in words: that theirs is a true conversion, or which record is apart and why.
ghost use Rattle.std.specs.Prelude.{◌≤◌, length};
ghost use Rattle.rows.specs.Fair.{PlanFair};

use crate::difference;
use notices::phrase;
use plans::DeckPlan;
use reports::many;
use std::io::Print;
use terms::Asked;

// Says that theirs is true, and what the plan loses: where it loses, other inputs may have the same conversion.
pub(crate) fn yes(to: &impl Print, plan: DeckPlan, theirs: &[u8]) {
    let asked = plan.asked;
    let task = tasks::task_of(asked);
    let mut nothing = gathers::record_room();
    let found = gathers::gather(tasks::form_under(task), theirs, 0, &mut nothing);
    phrase(to, "theirs is a true conversion of ours, of ");
    many(to, found.records, b"record");
    phrase(to, "\n");
    notices::loss(to, plan);
}

// How many records of our input are passed over: those before R, which is 1 to 65,536.
fn passed(first: usize) -> usize
    ensures { result ≤ 65535 }
{
    first.saturating_sub(1).min(65535)
}

// The number in our input of a record of the output. No reel has more than 65,536 records.
fn in_input(passed: usize, apart: usize) -> usize
    requires { passed ≤ 65535 }
{
    passed + apart.min(65536)
}

// How many records of our input are left behind those that are passed over.
fn left(records: usize, passed: usize) -> usize {
    records.saturating_sub(passed)
}

// Says which record of the output is apart, and which one it is in our input; where ours has none, theirs has it.
fn say_record(to: &impl Print, apart: usize, place: usize, is_ours: bool) {
    phrase(to, format_args!("record {apart} of "));
    if is_ours {
        phrase(
            to,
            format_args!("the output, record {place} of our input, "),
        );
    } else {
        phrase(to, "theirs ");
    }
}

// Says that a record has no partner, by the counts of both sides.
fn say_counts(to: &impl Print, ours: usize, theirs: usize) {
    phrase(to, "lacks a partner: ours gives ");
    many(to, ours, b"record");
    phrase(to, format_args!(", theirs has {theirs}"));
}

// Says how a record of theirs is apart from one of ours: by its length, or by a byte.
fn say_pair(to: &impl Print, deck: &[u8], asked: Asked, fields: &[u16], ours: &[u8], theirs: &[u8])
    requires { PlanFair asked fields.now × (length ours.now ≤ 65536) }
{
    let n = tasks::output_length(tasks::task_of(asked), ours.len());
    if n == theirs.len() {
        difference::explain(to, deck, asked, fields, ours, theirs);
        return;
    }
    phrase(to, "has another length: ours gives ");
    many(to, n, b"byte");
    phrase(to, format_args!(", theirs has {}", theirs.len()));
}

// Says which record is apart, by its number in the output, and why.
pub(crate) fn no(
    to: &impl Print,
    deck: &[u8],
    asked: Asked,
    fields: &[u16],
    apart: usize,
    ours: &[u8],
    theirs: &[u8],
)
    requires { PlanFair asked fields.now }
{
    let task = tasks::task_of(asked);
    let before = passed(asked.first);
    let place = in_input(before, apart);
    let mut room = gathers::record_room();
    let taken = gathers::gather(tasks::form_of(task), ours, place, &mut room);
    let mut other = gathers::record_room();
    let found = gathers::gather(tasks::form_under(task), theirs, apart, &mut other);
    phrase(to, "theirs is no true conversion of ours: ");
    say_record(to, apart, place, place <= taken.records);
    match (taken.bytes, found.bytes) {
        (Some(ours), Some(theirs)) => say_pair(to, deck, asked, fields, ours, theirs),
        _ => say_counts(to, left(taken.records, before), found.records),
    }
    phrase(to, "\n");
}
