// How a name is shown to people: no byte of it reaches a terminal as a command. A name without a control character is shown as it is; of any other, what is put in the
// place of a control character or a backslash is what the shell's `printf %b` understands.
ghost use Rattle.std.specs.Prelude.{◌<◌, length};

use crate::room;
use std::io::{Cursor, Error, Print, Write};

// Whether bytes begin with a control character in UTF-8, U+0080 to U+009F.
fn begins_with_pair(bytes: &[u8]) -> bool {
    bytes.len() > 1 && bytes[0] == 0xC2 && (0x80..=0x9F).contains(&bytes[1])
}

// Whether the byte at a place is one of a control character.
fn is_control(name: &[u8], i: usize) -> bool
    requires { i < length name.now }
{
    name[i].is_ascii_control()
        || begins_with_pair(&name[i..])
        || i > 0 && begins_with_pair(&name[i - 1..])
}

// Whether a name has a control character.
fn is_odd(name: &[u8]) -> bool {
    for i in 0..name.len() {
        if is_control(name, i) {
            return true;
        }
    }
    false
}

// Writes a control character: those that have a letter of their own by it.
fn write_control(to: &mut impl Write, byte: u8) {
    let _ = match byte {
        b'\n' => to.write_all(b"\\n"),
        b'\t' => to.write_all(b"\\t"),
        b'\r' => to.write_all(b"\\r"),
        _ => write!(to, "\\x{byte:02x}"),
    };
}

// Writes the name as it is shown, with four bytes at most for each of its own.
fn write_name(to: &mut impl Write, name: &[u8]) {
    for (i, byte) in name.iter().enumerate() {
        if is_control(name, i) {
            write_control(to, *byte);
        } else if *byte == b'\\' {
            let _ = to.write_all(b"\\\\");
        } else {
            let _ = to.write_all(&[*byte]);
        }
    }
}

// Says a name, which has at most 4,096 bytes.
pub fn say_name(to: &impl Print, name: &[u8]) {
    if !is_odd(name) {
        notices::say(to, name);
        return;
    }
    let mut shown = Cursor::new([0; 16384]);
    write_name(&mut shown, name);
    notices::say(to, room::written(&shown));
}

// Says what failed with the file of this name, and why.
pub fn fail(to: &impl Print, path: &[u8], why: Error) {
    say_name(to, path);
    notices::because(to, why);
}
