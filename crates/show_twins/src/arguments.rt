// Which files the arguments ask for behind the deck: `records FILE` and `reel FILE`, in either order, each at most once.
ghost use Rattle.std.specs.Prelude.{◌≤◌, length, IfOk, IfSome};

// The argument that names each file, if it is asked for.
#[derive(Clone, Copy)]
pub(crate) struct Wanted {
    pub(crate) records: Option<usize>,
    pub(crate) reel: Option<usize>,
}

// An argument that names no file.
#[derive(Clone, Copy)]
pub(crate) struct NoName;

// What is asked for with what a word asks for too, behind which the argument stands that names its file.
fn with(rt: &HostRuntime, wanted: Wanted, word: usize, file: usize) -> Option<Wanted> {
    let mut room = io::buffer();
    let n = inputs::argument(rt, word, &mut room);
    let Wanted { records, reel } = wanted;
    match &room[..n] {
        b"records" if records.is_none() => Some(Wanted {
            records: Some(file),
            reel,
        }),
        b"reel" if reel.is_none() => Some(Wanted {
            records,
            reel: Some(file),
        }),
        _ => None,
    }
}

// What the arguments ask for, if they can be understood. The program's own name counts among them.
pub(crate) fn read(rt: &HostRuntime) -> Option<Wanted> {
    let nothing = Wanted {
        records: None,
        reel: None,
    };
    match inputs::argument_count(rt) {
        2 => Some(nothing),
        4 => with(rt, nothing, 2, 3),
        6 => with(rt, with(rt, nothing, 2, 3)?, 4, 5),
        _ => None,
    }
}

// The name of a file, in the room, if one is asked for.
pub(crate) fn file<'a>(
    rt: &HostRuntime,
    argument: Option<usize>,
    room: &'a mut [u8],
) -> Result<Option<&'a [u8]>, NoName>
    ensures { IfOk result (λ given. IfSome given (λ name. length name.now ≤ length room.old)) }
{
    match argument {
        Some(argument) => match files::name(rt, argument, room) {
            Some(name) => Ok(Some(name)),
            None => Err(NoName),
        },
        None => Ok(None),
    }
}
