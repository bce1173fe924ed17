// In which byte a record of theirs differs from what ours gives, and which field writes it, in words.
ghost use Rattle.std.specs.Prelude.{◌≤◌, length};
ghost use Rattle.rows.specs.Flat.{Fielded};
ghost use Rattle.rows.specs.Fair.{PlanFair};

use notices::{Numbered, phrase, say};
use std::io::Print;
use terms::{Asked, Task};

// A byte, by its position from 1, in which two records differ, and what stands there in each.
#[derive(Clone, Copy)]
struct Difference {
    position: usize,
    ours: u8,
    theirs: u8,
}

// The first byte in which two records differ.
fn first_difference(ours: &[u8], theirs: &[u8]) -> Option<Difference> {
    for (at, byte) in ours.iter().enumerate() {
        let other = theirs.get(at)?;
        if byte != other {
            return Some(Difference {
                position: at + 1,
                ours: *byte,
                theirs: *other,
            });
        }
    }
    None
}

// Says what writes a position: a field, or with CV the tail. In TR there is neither.
fn say_writer(to: &impl Print, deck: &[u8], asked: Asked, fields: &[u16], position: usize) {
    if let Some(Numbered { number, field }) = notices::last_writer(fields, position) {
        phrase(to, "; ");
        notices::field_on_card(to, deck, asked.key, number, field);
        phrase(to, ", writes it");
    } else if asked.cv > 0 {
        phrase(to, "; it is of the tail, which CV carries");
    }
}

// Says the first byte in which theirs differs from what has to be there.
fn say_byte(
    to: &impl Print,
    deck: &[u8],
    asked: Asked,
    fields: &[u16],
    ours: &[u8],
    theirs: &[u8],
) {
    let Some(
        Difference {
            position,
            ours,
            theirs,
        },
    ) = first_difference(ours, theirs)
    else {
        return;
    };
    phrase(to, format_args!(" in byte {position}: ours gives "));
    say(to, &hexadecimal::hex(ours));
    phrase(to, ", theirs has ");
    say(to, &hexadecimal::hex(theirs));
    say_writer(to, deck, asked, fields, position);
}

// Writes what our record gives over a copy of theirs: the fields, and with CV the tail. Where nothing is written, theirs may have anything.
fn write_over(task: Task, fields: &[u16], ours: &[u8], copy: &mut [u8])
    requires fielded { Fielded fields.now (length ours.now) (length copy.old) }
    requires n_in_bounds { (task.n ≤ length ours.now) × (task.width ≤ length copy.old) }
{
    records::put_fields(fields, ours, copy);
    if task.carries {
        let n = task.n;
        files::put(copy, task.width, &ours[n..]);
    }
}

// Says where theirs then differs from the copy.
fn say_over(
    to: &impl Print,
    deck: &[u8],
    asked: Asked,
    task: Task,
    fields: &[u16],
    ours: &[u8],
    theirs: &[u8],
    copy: &mut [u8],
)
    requires fielded { Fielded fields.now (length ours.now) (length copy.old) }
    requires n_in_bounds { (task.n ≤ length ours.now) × (task.width ≤ length copy.old) }
{
    write_over(task, fields, ours, copy);
    say_byte(to, deck, asked, fields, copy, theirs);
}

// The same in TRF. A record of ours has A's n bytes or more, and one of theirs, which is as long as ours gives, B's n.
fn say_selected(
    to: &impl Print,
    deck: &[u8],
    asked: Asked,
    fields: &[u16],
    ours: &[u8],
    theirs: &[u8],
)
    requires { PlanFair asked fields.now }
{
    let task = tasks::task_of(asked);
    let mut copy = gathers::record_room();
    let m = files::put(&mut copy, 0, theirs);
    if ours.len() < task.n {
        return;
    }
    if m < task.width {
        return;
    }
    say_over(to, deck, asked, task, fields, ours, theirs, &mut copy[..m]);
}

// Says in which byte theirs differs from what our record gives. TR carries records unchanged.
pub(crate) fn explain(
    to: &impl Print,
    deck: &[u8],
    asked: Asked,
    fields: &[u16],
    ours: &[u8],
    theirs: &[u8],
)
    requires { PlanFair asked fields.now }
{
    phrase(to, "differs");
    let mode = asked.mode;
    if terms::selects(mode) {
        say_selected(to, deck, asked, fields, ours, theirs);
    } else {
        say_byte(to, deck, asked, fields, ours, theirs);
    }
}
