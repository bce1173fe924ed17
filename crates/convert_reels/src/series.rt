// The reels, one after another: those that arguments name, or a list.
ghost use Rattle.std.specs.Prelude.{◌≡◌, length};
ghost use Rattle.rows.specs.Fair.{PlanFair};

use crate::destination::Destination;
use crate::form::Form;
use crate::list::Place;
use crate::{destination, list, one};
use terms::Asked;

// More than a mode, a blank and the longest name: what fills it is too long.
const ENTRY: usize = 4128;

fn entry_room() -> [u8; ENTRY]
    ensures { 4128 ≡ length result }
{
    [0; ENTRY]
}

// Puts the name that an argument gives into the room and answers its length, or 0 where it is no name.
fn put_argument(rt: &HostRuntime, argument: usize, room: &mut [u8]) -> usize {
    let mut given = io::buffer();
    match files::name(rt, argument, &mut given) {
        Some(name) => files::put(room, 0, name),
        None => 0,
    }
}

// The next argument: `taken` are before it, and `got` are there.
fn next_argument(rt: &HostRuntime, place: Place, room: &mut [u8]) -> Place {
    if place.got <= place.taken {
        return Place {
            got: 0,
            taken: 0,
            held: 0,
        };
    }
    Place {
        got: place.got,
        taken: place.taken + 1,
        held: put_argument(rt, place.taken, room),
    }
}

fn first(rt: &HostRuntime, form: Form) -> Place {
    match form.reel {
        Some(reel) => Place {
            got: inputs::argument_count(rt),
            taken: reel,
            held: 0,
        },
        None => Place {
            got: 0,
            taken: 0,
            held: 0,
        },
    }
}

fn next(rt: &HostRuntime, form: Form, place: Place, bytes: &mut [u8], entry: &mut [u8]) -> Place {
    match form.reel {
        Some(_) => next_argument(rt, place, entry),
        None => list::next(rt, place, form.end, bytes, entry),
    }
}

// One turn more than there are reels finds none left; the turns end as those of the list do.
fn convert_all(
    rt: &HostRuntime,
    form: Form,
    deck: &[u8],
    asked: Asked,
    fields: &[u16],
    destination: Destination,
)
    requires { PlanFair asked fields.now }
{
    let mut bytes = io::large_buffer();
    let mut room = entry_room();
    let mut place = first(rt, form);
    for _ in 0..u64::MAX {
        place = next(rt, form, place, &mut bytes, &mut room);
        one::convert(
            rt,
            form,
            deck,
            asked,
            fields,
            destination,
            files::front(&room, place.held),
        );
        if place.got == 0 {
            break;
        }
    }
}

// Where one reel is asked for and its destination is wrong, the name of the reel is looked at all the same, so that all that is wrong is said at once.
fn look(rt: &HostRuntime, form: Form) {
    if let (false, Some(reel)) = (form.folder, form.reel) {
        let mut room = io::buffer();
        files::name(rt, reel, &mut room);
    }
}

pub(crate) fn convert(rt: &HostRuntime, form: Form, deck: &[u8], asked: Asked, fields: &[u16])
    requires { PlanFair asked fields.now }
{
    let mut room = io::buffer();
    match destination::read(rt, form, &mut room) {
        Some(destination) => convert_all(rt, form, deck, asked, fields, destination),
        None => look(rt, form),
    }
}
