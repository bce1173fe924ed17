// The arguments that a program was started with, as bytes: its own name is number 0.
ghost use Rattle.io.specs.Counts.{IsPrefixLen};
ghost use Rattle.std.specs.Io.{ReadsAtMost};

use std::env::{Env, FillError};
use std::io::Error;

// The system's numbers for an argument that is longer than the room, and for one that is missing.
const NAME_TOO_LONG: i32 = 36;

const INVALID: i32 = 22;

fn is_missing(env: &impl Env, i: usize) -> bool {
    let mut room = [0u8; 1];
    matches!(env.arg(i, &mut room), Err(FillError::NotPresent))
}

// How many there are, the program's own name among them.
pub fn argument_count(env: &impl Env) -> usize {
    for i in 0..usize::MAX {
        if is_missing(env, i) {
            return i;
        }
    }
    usize::MAX
}

// Puts an argument into the room and answers its length, or says why that cannot be done.
pub fn read_argument(env: &impl Env, i: usize, room: &mut [u8]) -> Result<usize, Error>
    ensures { ReadsAtMost result room.new }
{
    match env.arg(i, room) {
        Ok(n) => Ok(n),
        Err(FillError::TooLong) => Err(Error::from_raw_os_error(NAME_TOO_LONG)),
        Err(FillError::NotPresent) => Err(Error::from_raw_os_error(INVALID)),
    }
}

// The same, with 0 for one that is missing or longer than the room: to those who ask both are as one of no bytes, so an Option would be no plainer.
pub fn argument(env: &impl Env, i: usize, room: &mut [u8]) -> usize
    ensures { IsPrefixLen result room.new }
{
    match env.arg(i, room) {
        Ok(n) => n,
        Err(_) => 0,
    }
}
