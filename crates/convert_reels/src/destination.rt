// Where the outputs go, as the arguments give it: a folder, or a file and its mode.
ghost use Rattle.std.specs.Prelude.{◌≡◌, ◌≤◌, ◌⊎◌, length, IfSome};

use crate::form::Form;
use crate::mode;
use crate::mode::NoMode;

// The folder or file, or none where nothing is written; and the mode, if one is given.
#[derive(Clone, Copy)]
pub(crate) struct Destination<'a> {
    pub(crate) out: Option<&'a [u8]>,
    pub(crate) mode: Option<u32>,
}

// The mode that an argument gives, or none for `-`; what is no mode is said.
fn argument_mode(rt: &HostRuntime, argument: usize) -> Result<Option<u32>, NoMode> {
    let mut room = io::buffer();
    let n = inputs::argument(rt, argument, &mut room);
    let mode = match &room[..n] {
        b"-" => Ok(None),
        b"" => Err(NoMode),
        digits => mode::read(digits),
    };
    if mode.is_err() {
        notices::phrase(
            &rt.stderr(),
            "the mode has to be digits in octal, at most 7777, or -\n",
        );
    }
    mode
}

fn mode(rt: &HostRuntime, form: Form) -> Result<Option<u32>, NoMode> {
    match form.mode {
        Some(argument) => argument_mode(rt, argument),
        None => Ok(None),
    }
}

// None where the mode or the name is wrong; all that is wrong is said.
pub(crate) fn read<'a>(rt: &HostRuntime, form: Form, room: &'a mut [u8]) -> Option<Destination<'a>>
    ensures { IfSome result (λ destination. IfSome destination.out (λ out. length out.now ≤ length room.old)) }
{
    let mode = mode(rt, form);
    let out = match form.out {
        Some(argument) => Some(files::name(rt, argument, room)?),
        None => None,
    };
    Some(Destination {
        out,
        mode: mode.ok()?,
    })
}

// The output's name, in the room. One that fills the room is longer than any that a file may have.
pub(crate) fn name<'a>(form: Form, out: &'a [u8], reel: &[u8], room: &'a mut [u8]) -> &'a [u8]
    ensures { (length result.now ≤ length room.old) ⊎ (result.now ≡ out.now) }
{
    if form.folder {
        return files::put_in(room, out, reel);
    }
    out
}
