// The system's files by names that are any bytes: std knows text alone, and a name that is none is refused as the system refuses what it cannot take.
use std::fs;
use std::fs::{File, OpenOptions};
use std::io::{Error, Result};

// The bytes of a path, with the zero that ends it.
const LONGEST: usize = 4096;

// The system's numbers for a path that is too long, and for one that it cannot take.
const NAME_TOO_LONG: i32 = 36;

const INVALID: i32 = 22;

// The path as text.
fn text(path: &[u8]) -> Result<&str> {
    if LONGEST <= path.len() {
        return Err(Error::from_raw_os_error(NAME_TOO_LONG));
    }
    if path.contains(&0) {
        return Err(Error::from_raw_os_error(INVALID));
    }
    match std::str::from_utf8(path) {
        Ok(text) => Ok(text),
        Err(_) => Err(Error::from_raw_os_error(INVALID)),
    }
}

pub(crate) fn open_read(rt: &HostRuntime, path: &[u8]) -> Result<File> {
    File::open(rt, text(path)?)
}

// Opens a file that is there to read and to write, and leaves its bytes as they are.
pub(crate) fn open_update(rt: &HostRuntime, path: &[u8]) -> Result<File> {
    OpenOptions::new()
        .read(true)
        .write(true)
        .open(rt, text(path)?)
}

// Makes a file, open to write. It fails where the name is taken.
pub(crate) fn create(rt: &HostRuntime, path: &[u8]) -> Result<File> {
    OpenOptions::new()
        .write(true)
        .create_new(true)
        .open(rt, text(path)?)
}

pub(crate) fn rename(rt: &HostRuntime, from: &[u8], to: &[u8]) -> Result<()> {
    fs::rename(rt, text(from)?, text(to)?)
}

pub(crate) fn remove(rt: &HostRuntime, path: &[u8]) -> Result<()> {
    fs::remove_file(rt, text(path)?)
}
