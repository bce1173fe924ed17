// The next entry of the list on standard input: names, each with what ends it behind it, but for the last, where it may be missing.
ghost use Rattle.io.specs.Counts.{IsPrefixLen};

use std::io::Read;

// An entry stands in a room of a fixed size with its length beside it: names come from outside, and no memory is taken for them.
// How many bytes the last read brought, how many of these are taken, and how many the entry has. After the end of the list a read brings none.
#[derive(Clone, Copy)]
pub(crate) struct Place {
    pub(crate) got: usize,
    pub(crate) taken: usize,
    pub(crate) held: usize,
}

// What one read brings into the room; 0 at the end, or where it fails.
fn read_some(rt: &HostRuntime, room: &mut [u8]) -> usize
    ensures { IsPrefixLen result room.new }
{
    match rt.stdin().read(room) {
        Ok(n) => n,
        Err(why) => {
            notices::fail(&rt.stderr(), b"standard input", why);
            0
        }
    }
}

// Reads on where all is taken.
fn filled(rt: &HostRuntime, place: Place, bytes: &mut [u8]) -> Place {
    if place.taken < place.got {
        return place;
    }
    Place {
        got: read_some(rt, bytes),
        taken: 0,
        held: place.held,
    }
}

// One byte more is taken, and the entry has so many.
fn passed(place: Place, held: usize) -> Place {
    if place.got <= place.taken {
        return place;
    }
    Place {
        got: place.got,
        taken: place.taken + 1,
        held,
    }
}

// Puts one byte more into the entry, if it goes in, and answers how long it is then.
fn hold(byte: u8, held: usize, entry: &mut [u8]) -> usize {
    if held < entry.len() {
        entry[held] = byte;
        return held + 1;
    }
    held
}

// A proved loop has to end, and nothing says that the list does: it takes at most so many turns, more than any run uses up.
pub(crate) fn next(
    rt: &HostRuntime,
    from: Place,
    end: u8,
    bytes: &mut [u8],
    entry: &mut [u8],
) -> Place {
    let mut place = Place {
        got: from.got,
        taken: from.taken,
        held: 0,
    };
    for _ in 0..u64::MAX {
        place = filled(rt, place, bytes);
        let at = place.taken;
        if place.got == 0 || bytes.len() <= at {
            break;
        }
        let byte = bytes[at];
        if byte == end {
            return passed(place, place.held);
        }
        place = passed(place, hold(byte, place.held, entry));
    }
    place
}
