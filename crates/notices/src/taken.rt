// Which records of a reel are not taken: those before R, and all of a reel that has no more.
use std::io::Print;
use words::phrase;

// What a deck with R above 1 leaves out of every reel.
pub fn left_out(to: &impl Print, first: usize) {
    match first {
        0 | 1 => {}
        2 => phrase(to, "R is 2: record 1 of a reel is not taken\n"),
        _ => phrase(
            to,
            format_args!(
                "R is {first}: records 1 to {} of a reel are not taken\n",
                first - 1
            ),
        ),
    }
}

// That a finished run took no record, and why.
pub fn none_taken(to: &impl Print, first: usize) {
    if first < 2 {
        phrase(to, "the reel has no record\n");
        return;
    }
    phrase(
        to,
        format_args!("no record is taken: R is {first}, and the reel has fewer\n"),
    );
}
