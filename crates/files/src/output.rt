// Writes a file so that no half-written one ever has its name: beside it first, hidden, under a name of its own, and then renamed. What fails is said on standard
// error.
use crate::{names, paths, room, shown};
use std::fs::{File, Permissions};
use std::io::{Cursor, ErrorKind, Result, Write};
use std::os::unix::fs::PermissionsExt;
use std::process;
use std::random::RandomSource;

// The name of a part.
type Name = Cursor<[u8; 4096]>;

// The name of the part that is written first: in the file's folder, hidden, the file's own name, but at most 200 bytes of it, since a name may have 255, and what tells
// apart the parts of one file: this process's number and four digits at random. A path that fills the room is longer than any that a file may have.
fn part_name(rt: &HostRuntime, path: &[u8]) -> Name {
    let mut random = [0u8; 2];
    let _ = rt.fill_bytes(&mut random);
    let [high, low] = random;
    let process = process::id(rt.process());
    let mut name = Cursor::new([0; 4096]);
    let _ = name.write_all(names::folder(path));
    let _ = name.write_all(b".");
    let _ = name.write_all(names::cut(names::own(path), 200));
    let _ = write!(name, ".{process}-{high:02x}{low:02x}.part");
    name
}

// A part, open to write, and its name.
#[derive(Drop)]
struct Part {
    file: File,
    name: Name,
}

fn try_part(rt: &HostRuntime, path: &[u8]) -> Result<Part> {
    let name = part_name(rt, path);
    let file = paths::create(rt, room::written(&name))?;
    Ok(Part { file, name })
}

// Makes the part. A name that is taken, as by a part that was left when a machine stopped, does not stand in the way.
fn make_part(rt: &HostRuntime, path: &[u8]) -> Result<Part> {
    for _ in 0..99 {
        match try_part(rt, path) {
            Err(why) if why.kind() == ErrorKind::AlreadyExists => {}
            made => return made,
        }
    }
    try_part(rt, path)
}

// Where no mode is given, the file gets the one that the system gives a new file.
fn set_mode(file: &File, mode: Option<u32>) -> Result<()> {
    match mode {
        Some(mode) => file.set_permissions(Permissions::from_mode(mode)),
        None => Ok(()),
    }
}

// Puts all bytes into the file, and on its device. It has its mode before it has a byte, so that none is ever seen by who may not see it.
fn fill(file: &mut File, bytes: &[u8], mode: Option<u32>) -> Result<()> {
    set_mode(file, mode)?;
    file.write_all(bytes)?;
    file.sync_all()
}

// Fills the part, which is closed then, and gives it the file's name.
fn fill_and_rename(
    rt: &HostRuntime,
    mut file: File,
    part: &[u8],
    bytes: &[u8],
    mode: Option<u32>,
    path: &[u8],
) -> Result<()> {
    fill(&mut file, bytes, mode)?;
    drop(file);
    paths::rename(rt, part, path)
}

// Fills the part and renames it, and answers whether that is done. Where it fails, that is said, and then the part is gone.
fn complete(rt: &HostRuntime, part: Part, bytes: &[u8], mode: Option<u32>, path: &[u8]) -> bool {
    let Part { file, name } = part;
    let named = room::written(&name);
    match fill_and_rename(rt, file, named, bytes, mode, path) {
        Ok(()) => true,
        Err(why) => {
            shown::fail(&rt.stderr(), path, why);
            let _ = paths::remove(rt, named);
            false
        }
    }
}

// Makes the part, fills it and renames it, and answers whether that is done.
fn replace(rt: &HostRuntime, path: &[u8], bytes: &[u8], mode: Option<u32>) -> bool {
    match make_part(rt, path) {
        Ok(part) => complete(rt, part, bytes, mode, path),
        Err(why) => {
            shown::fail(&rt.stderr(), path, why);
            false
        }
    }
}

// Whether a device or a pipe has the name, from which a rename would take it: the system refuses to bring these onto a device as invalid. What cannot be opened is left
// to the rename.
fn is_special(rt: &HostRuntime, path: &[u8]) -> bool {
    let Ok(file) = paths::open_update(rt, path) else {
        return false;
    };
    matches!(file.sync_all(), Err(why) if why.kind() == ErrorKind::InvalidInput)
}

// Whether the file now holds these bytes and has this mode, if one is given. Otherwise what had its name still has it.
pub fn write(rt: &HostRuntime, path: &[u8], bytes: &[u8], mode: Option<u32>) -> bool {
    if is_special(rt, path) {
        shown::say_name(&rt.stderr(), path);
        notices::phrase(
            &rt.stderr(),
            ": is a device or a pipe, and no file takes its place\n",
        );
        return false;
    }
    replace(rt, path, bytes, mode)
}
