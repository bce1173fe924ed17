// What the arguments give: names of files, and the deck and the reel that two of them name. What fails is said on standard error.
ghost use Rattle.std.specs.Prelude.{◌≡◌, ◌≤◌, length, replicate, IfSome, IfOk, IfErr};
ghost use Rattle.io.specs.Counts.{IsPrefixLen};
ghost use Rattle.inputs.specs.Reading.{known_of, bytes_known};

use crate::{paths, shown};
use inputs::{NoDeck, ReadFailure};
use std::fs::File;
use std::io::Result as IoResult;

// The name that an argument gives, in the room.
pub fn name<'a>(rt: &HostRuntime, argument: usize, room: &'a mut [u8]) -> Option<&'a [u8]>
    ensures { IfSome result (λ name. length name.now ≤ length room.old) }
{
    match inputs::read_argument(rt, argument, room) {
        Ok(0) => {
            notices::phrase(
                &rt.stderr(),
                "an argument is empty; it has to name a file\n",
            );
            None
        }
        Ok(n) => Some(&room[..n]),
        Err(why) => {
            notices::fail(&rt.stderr(), b"an argument", why);
            None
        }
    }
}

// The file, open to read; where it cannot be opened, that is said.
fn open(rt: &HostRuntime, path: &[u8]) -> IoResult<File> {
    let opened = paths::open_read(rt, path);
    if let Err(why) = opened {
        shown::fail(&rt.stderr(), path, why);
    }
    opened
}

// The deck in a file: how many bytes it has. Where it cannot be read, that is said.
pub fn deck(rt: &HostRuntime, path: &[u8], room: &mut [u8; 65536]) -> Result<usize, NoDeck>
    ensures { IsPrefixLen (bytes_known (known_of result)) room.new }
{
    let mut from = match open(rt, path) {
        Ok(file) => file,
        Err(why) => return Err(NoDeck::Failed { before: Ok(0), why }),
    };
    let read = inputs::deck(&mut from, room);
    if let Err(NoDeck::Failed { why, .. }) = read {
        shown::fail(&rt.stderr(), path, why);
    }
    read
}

// Room for one byte more than the longest reel has: a file that fills it is no reel, whatever follows. Its length is said besides, which lending the array as a
// slice needs.
pub fn reel_room() -> [u8; 65537]
    ensures { (65537 ≡ length result) × (result ≡ replicate 65537 0) }
{
    [0; 65537]
}

// The first bytes of a file, as many as the room takes, in the room. Where they cannot be read, that is said, and the failure has how many were read before: none where
// the file cannot be opened.
pub fn reel<'a>(rt: &HostRuntime, path: &[u8], room: &'a mut [u8]) -> Result<&'a [u8], ReadFailure>
    ensures read { IfOk result (λ reel. length reel.now ≤ length room.old) }
    ensures failed { IfErr result (λ failure. failure.length ≤ length room.old) }
{
    let mut from = match open(rt, path) {
        Ok(file) => file,
        Err(why) => return Err(ReadFailure { length: 0, why }),
    };
    match inputs::fill(&mut from, room) {
        Ok(n) => Ok(&room[..n]),
        Err(failure) => {
            shown::fail(&rt.stderr(), path, failure.why);
            Err(failure)
        }
    }
}
