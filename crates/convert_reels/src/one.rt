// One reel: read, run over the plan, written and told.
ghost use Rattle.io.specs.Counts.{IsPrefixLen};
ghost use Rattle.rows.specs.Fair.{PlanFair};

use crate::destination::Destination;
use crate::entry::Entry;
use crate::form::Form;
use crate::{destination, entry, line};
use outcomes::Ran;
use std::io::Print;
use terms::Asked;

// The name as it stands behind the numbers and before the words: empty where one reel is converted.
fn told(form: Form, name: &[u8]) -> &[u8] {
    if form.folder {
        return name;
    }
    &name[..0]
}

// Whose words follow, where many are converted.
fn head(to: &impl Print, name: &[u8]) {
    if name.len() > 0 {
        files::say_name(to, name);
        notices::phrase(to, ": ");
    }
}

// A run that is refused.
fn refused(rt: &HostRuntime, deck: &[u8], reel: &[u8], ran: Ran, name: &[u8], end: u8) {
    line::print(rt, ran, name, end);
    head(&rt.stderr(), name);
    reports::refused(&rt.stderr(), deck, reel, ran.refusal, ran.place, ran.column);
}

// A run that is finished.
fn finished(rt: &HostRuntime, ran: Ran, first: usize, name: &[u8], end: u8) {
    line::print(rt, ran, name, end);
    if ran.records == 0 {
        head(&rt.stderr(), name);
        notices::none_taken(&rt.stderr(), first);
    }
}

// The run over the plan: a finished one leaves its reel at the front of the room.
fn run(asked: Asked, fields: &[u16], reel: &[u8], room: &mut [u8]) -> Ran
    requires { PlanFair asked fields.now }
    ensures { IsPrefixLen result.length room.new }
{
    runs::run_plan(asked, fields, reel, room)
}

// Whether the output is in its file, if it has one.
fn is_stored(
    rt: &HostRuntime,
    form: Form,
    destination: Destination,
    name: &[u8],
    bytes: &[u8],
) -> bool {
    let Some(out) = destination.out else {
        return true;
    };
    let mut room = io::buffer();
    let path = destination::name(form, out, name, &mut room);
    files::write(rt, path, bytes, destination.mode)
}

// The reel that is named. The output's room is the longest reel's: a longer one is refused in any room.
fn convert_named(
    rt: &HostRuntime,
    form: Form,
    deck: &[u8],
    asked: Asked,
    fields: &[u16],
    destination: Destination,
    name: &[u8],
)
    requires { PlanFair asked fields.now }
{
    let mut blocks = files::reel_room();
    let Ok(reel) = files::reel(rt, name, &mut blocks) else {
        return;
    };
    let mut room = io::large_buffer();
    let ran = run(asked, fields, reel, &mut room);
    if ran.refusal != 0 {
        refused(rt, deck, reel, ran, told(form, name), form.end);
        return;
    }
    let length = ran.length;
    if is_stored(rt, form, destination, name, &room[..length]) {
        finished(rt, ran, asked.first, told(form, name), form.end);
    }
}

// The reel of an entry. Where entries have no modes the output gets the given one.
pub(crate) fn convert(
    rt: &HostRuntime,
    form: Form,
    deck: &[u8],
    asked: Asked,
    fields: &[u16],
    given: Destination,
    entry: &[u8],
)
    requires { PlanFair asked fields.now }
{
    if let Some(Entry { name, mode }) = entry::read(&rt.stderr(), form, entry, given.mode) {
        let out = given.out;
        convert_named(
            rt,
            form,
            deck,
            asked,
            fields,
            Destination { out, mode },
            name,
        );
    }
}
