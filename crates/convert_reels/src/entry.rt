// An entry of a list: the name of a reel, and where the form has modes, before it the mode of its output, in octal, or nothing, and a blank.
use crate::form::Form;
use crate::mode;
use crate::mode::NoMode;
use std::io::Print;

// The bytes of the longest name.
const LONGEST: usize = 4095;

// The name of a reel, and the mode of its output, if there is one.
#[derive(Clone, Copy)]
pub(crate) struct Entry<'a> {
    pub(crate) name: &'a [u8],
    pub(crate) mode: Option<u32>,
}

// The digits of the mode and the name, which stand before and behind the first blank. Where the form has no modes all is the name.
fn parts<'a>(form: Form, entry: &'a [u8]) -> Option<(&'a [u8], &'a [u8])> {
    if !form.modes {
        return Some((&entry[..0], entry));
    }
    let blank = entry.iter().position(|byte| *byte == b' ')?;
    Some((&entry[..blank], &entry[blank + 1..]))
}

// The mode; the given one where the form has no modes.
fn mode(form: Form, digits: &[u8], given: Option<u32>) -> Result<Option<u32>, NoMode> {
    if form.modes {
        mode::read(digits)
    } else {
        Ok(given)
    }
}

// Says that an entry has no blank, if it is one.
fn say_no_blank(to: &impl Print, entry: &[u8]) {
    if !entry.is_empty() {
        files::say_name(to, files::front(entry, 60));
        notices::phrase(
            to,
            ": before a name its mode, in octal, or nothing, and a blank have to stand\n",
        );
    }
}

// What an entry says. What is wrong with it is said; where no more is wrong than that nothing is named, nothing.
pub(crate) fn read<'a>(
    to: &impl Print,
    form: Form,
    entry: &'a [u8],
    given: Option<u32>,
) -> Option<Entry<'a>> {
    let Some((digits, name)) = parts(form, entry) else {
        say_no_blank(to, entry);
        return None;
    };
    if name.is_empty() {
        return None;
    }
    if LONGEST < name.len() {
        files::say_name(to, files::front(name, 60));
        notices::phrase(
            to,
            "..: this name has more than 4,095 bytes, and no file has such a one\n",
        );
        return None;
    }
    let Ok(mode) = mode(form, digits, given) else {
        files::say_name(to, name);
        notices::phrase(
            to,
            ": the mode before this name has to be digits in octal, at most 7777, or nothing\n",
        );
        return None;
    };
    Some(Entry { name, mode })
}
