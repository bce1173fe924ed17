// What refusal 8 found: the first combination of parameters that is broken, in the order in which they are judged (document 01, "Combinations required"; document
// 02, orders 5 and 6).
use std::fmt::Display;
use std::io::Print;
use terms::{Asked, Format, Mode, Size};
use words::phrase;

// Says what is broken, where it is, and answers whether it is.
fn said(to: &impl Print, is_broken: bool, what: impl Display + Drop) -> bool {
    if is_broken {
        phrase(to, what);
    }
    is_broken
}

// The same of what goes only with another function or format than the deck has.
fn said_not_with(to: &impl Print, is_broken: bool, rule: &str, has: impl Display + Drop) -> bool {
    said(
        to,
        is_broken,
        format_args!("{rule}, and this deck has {has}"),
    )
}

// ---- the combinations; each says whether it was found broken, and then has said so

// Keys only in FF with TF or TRF.
fn key_broken(to: &impl Print, mode: Mode, format: Format, key: usize) -> bool {
    let is_keyed = key > 0;
    said_not_with(
        to,
        is_keyed && !terms::selects(mode),
        "a key in A goes only with TF or TRF",
        mode,
    ) || said_not_with(
        to,
        is_keyed && !terms::is_ff(format),
        "a key in A goes only with FF",
        format,
    )
}

// FU only with TC. TC only with R1.
fn copy_broken(to: &impl Print, mode: Mode, format: Format, first: usize) -> bool {
    let is_copy = terms::is_tc(mode);
    said_not_with(
        to,
        !is_copy && terms::is_fu(format),
        "FU goes only with TC",
        mode,
    ) || said(
        to,
        is_copy && first != 1,
        format_args!("TC goes only with R1, and this deck has R{first}"),
    )
}

// Whether A and B have two numbers: in FF, and in FV with TF or TRF.
fn wants_two(mode: Mode, format: Format) -> bool {
    match format {
        Format::FF => true,
        Format::FV => terms::selects(mode),
        Format::FU | Format::FS => false,
    }
}

// FF: two numbers each. FU and FS: one. FV: two with TF or TRF, else one.
fn count_broken(to: &impl Print, mode: Mode, format: Format, size: Size, name: &str) -> bool {
    let is_two = wants_two(mode, format);
    if matches!(size, Size::Two { .. }) == is_two {
        return false;
    }
    phrase(to, format_args!("in {format}"));
    if terms::is_fv(format) {
        phrase(to, format_args!(" with {mode}"));
    }
    if is_two {
        phrase(
            to,
            format_args!(" {name} has two numbers, (n,m), and this deck has one"),
        );
    } else {
        phrase(
            to,
            format_args!(" {name} has one number, (g), and this deck has two"),
        );
    }
    true
}

// TC: A equals B.
fn copy_differs(to: &impl Print, mode: Mode, a: Size, b: Size) -> bool {
    let is_equal = terms::record_length(a) == terms::record_length(b)
        && terms::block_length(a) == terms::block_length(b);
    said(
        to,
        terms::is_tc(mode) && !is_equal,
        format_args!("TC wants A equal to B, and here A is ({a}) and B is ({b})"),
    )
}

// TF and TRF need an FS card.
fn card_missing(to: &impl Print, mode: Mode, fs: usize) -> bool {
    said(
        to,
        terms::selects(mode) && fs == 0,
        "TF and TRF need an FS card, and there is none",
    )
}

// FF: m a multiple of n.
fn multiple_broken(to: &impl Print, size: Size, name: &str) -> bool {
    let n = terms::record_length(size);
    let m = terms::block_length(size);
    said(
        to,
        n > 0 && m % n > 0,
        format_args!("in FF m is a multiple of n, and in {name} {m} is none of {n}"),
    )
}

// TR with FF: equal record lengths.
fn lengths_differ(to: &impl Print, n: usize, n2: usize) -> bool {
    said(
        to,
        n != n2,
        format_args!("with TR the record lengths of A and B are equal, and these are {n} and {n2}"),
    )
}

// How many records fill a block.
fn records(size: Size) -> usize {
    terms::block_length(size)
        .checked_div(terms::record_length(size))
        .unwrap_or(0)
}

// TF with FF: equal m divided by n.
fn counts_differ(to: &impl Print, a: usize, b: usize) -> bool {
    said(
        to,
        a != b,
        format_args!(
            "with TF as many records stand in a block of A as in one of B, and these are {a} and {b}"
        ),
    )
}

fn fixed_broken(to: &impl Print, mode: Mode, a: Size, b: Size) -> bool {
    if multiple_broken(to, a, "A") || multiple_broken(to, b, "B") {
        return true;
    }
    match mode {
        Mode::TC | Mode::TRF => false,
        Mode::TF => counts_differ(to, records(a), records(b)),
        Mode::TR => lengths_differ(to, terms::record_length(a), terms::record_length(b)),
    }
}

// FV with two numbers: n+8 at most m.
fn room_broken(to: &impl Print, size: Size, name: &str) -> bool {
    let n = terms::record_length(size);
    let m = terms::block_length(size);
    said(
        to,
        m < 8 || m - 8 < n,
        format_args!("in FV n+8 is at most m, and in {name} n is {n} and m is {m}"),
    )
}

fn variable_broken(to: &impl Print, mode: Mode, a: Size, b: Size) -> bool {
    terms::selects(mode) && (room_broken(to, a, "A") || room_broken(to, b, "B"))
}

// Format FS only with TC and TR.
fn spanned_broken(to: &impl Print, mode: Mode) -> bool {
    said_not_with(
        to,
        terms::selects(mode),
        "format FS goes only with TC or TR",
        mode,
    )
}

// By the format, where as many numbers stand as are wanted.
fn format_broken(to: &impl Print, mode: Mode, format: Format, a: Size, b: Size) -> bool {
    match format {
        Format::FF => fixed_broken(to, mode, a, b),
        Format::FV => variable_broken(to, mode, a, b),
        Format::FU => false,
        Format::FS => spanned_broken(to, mode),
    }
}

// ---- the cards

// What A and B break.
fn sizes_broken(to: &impl Print, asked: Asked) -> bool {
    let mode = asked.mode;
    let format = asked.format;
    let input = asked.input;
    let output = asked.output;
    count_broken(to, mode, format, input, "A")
        || count_broken(to, mode, format, output, "B")
        || copy_differs(to, mode, input, output)
        || card_missing(to, mode, asked.fs)
        || format_broken(to, mode, format, input, output)
}

// What the U card breaks.
fn u_card_broken(to: &impl Print, asked: Asked) {
    let mode = asked.mode;
    let format = asked.format;
    let is_said = key_broken(to, mode, format, asked.key)
        || copy_broken(to, mode, format, asked.first)
        || sizes_broken(to, asked);
    if !is_said {
        phrase(to, "the parameters do not go together");
    }
}

// What an FS card breaks: with TC and TR there is none, CV goes only with FV, and (K,r) only where A gives a key.
fn fs_card_broken(to: &impl Print, asked: Asked, place: usize) {
    let mode = asked.mode;
    let format = asked.format;
    let is_said = said_not_with(
        to,
        !terms::selects(mode),
        "an FS card goes only with TF or TRF",
        mode,
    ) || said_not_with(
        to,
        asked.cv == place && !terms::is_fv(format),
        "CV goes only with FV",
        format,
    );
    if !is_said {
        phrase(
            to,
            "(K,r) goes only with a key in A, (K=l,D=l), and this deck has none",
        );
    }
}

// Says what refusal 8 found at a card of a deck that could be read: at the U card its parameters, elsewhere what an FS card may not be.
pub(crate) fn broken(to: &impl Print, asked: Asked, place: usize) {
    if place > 1 {
        fs_card_broken(to, asked, place);
    } else {
        u_card_broken(to, asked);
    }
}
