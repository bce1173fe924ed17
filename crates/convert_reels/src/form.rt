// What the arguments ask for, by the first of them.

// The arguments that name the deck, the output's mode, the file or folder of the output, and the first reel: none where a list names them. Whether the output is a
// folder; whether modes stand before the names of a list; and what ends each of these and each printed line.
#[derive(Clone, Copy)]
pub(crate) struct Form {
    pub(crate) deck: usize,
    pub(crate) mode: Option<usize>,
    pub(crate) out: Option<usize>,
    pub(crate) reel: Option<usize>,
    pub(crate) folder: bool,
    pub(crate) modes: bool,
    pub(crate) end: u8,
}

// One reel into a file, or into none.
fn single(deck: usize, mode: Option<usize>, out: Option<usize>, reel: usize) -> Form {
    Form {
        deck,
        mode,
        out,
        reel: Some(reel),
        folder: false,
        modes: false,
        end: b'\n',
    }
}

// Many reels into a folder, whose argument stands behind the deck's.
fn many(deck: usize, out: usize, reel: Option<usize>, modes: bool, end: u8) -> Form {
    Form {
        deck,
        mode: None,
        out: Some(out),
        reel,
        folder: true,
        modes,
        end,
    }
}

// The form that a word asks for, and how many arguments it has, the program's own name among them.
fn worded(word: &[u8]) -> Option<(Form, usize)> {
    match word {
        b"--check" => Some((single(2, None, None, 3), 4)),
        b"--file" => Some((single(3, Some(2), Some(4), 5), 6)),
        b"--null" => Some((many(2, 3, None, false, 0), 4)),
        b"--modes" => Some((many(2, 3, None, true, 0), 4)),
        _ => None,
    }
}

// The form of so many arguments where the first is no word.
fn wordless(count: usize) -> Option<Form> {
    match count {
        0..=2 => None,
        3 => Some(many(1, 2, None, false, b'\n')),
        _ => Some(many(1, 2, Some(3), false, b'\n')),
    }
}

// What the arguments ask for, if they can be understood.
pub(crate) fn read(rt: &HostRuntime) -> Option<Form> {
    let count = inputs::argument_count(rt);
    let mut first = io::buffer();
    let n = inputs::argument(rt, 1, &mut first);
    match worded(&first[..n]) {
        Some((form, size)) => (count == size).then_some(form),
        None => wordless(count),
    }
}
