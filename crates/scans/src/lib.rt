// A deck scanned piece by piece, as it is read: what its cards' order comes to, whatever its length (document 01, "The deck"): refusals 1 and 2.
#![tactic(auto)]

ghost use Rattle.std.specs.Prelude.{◌≡◌};
ghost use Rattle.lines.specs.Ordering.{answer_of};
ghost use Rattle.scans.specs.Scanning.{begun_kind, line_ended, with_byte, step_of, no_bytes, scan_from, scanned_of, settled};

use lines::{CardKind, Disorder, LINE_END, LONGEST, LinesSeen};

// How far a scan has come: what it must know of the bytes before to go on with the next. A deck can so be scanned piece by piece.
#[derive(Clone, Copy)]
pub struct Scanner {
    // What the lines that have ended come to.
    pub seen: LinesSeen,
    // The bytes of the line that is begun.
    pub begun: [u8; 80],
    // How many there are, counted up to 81, which is more than a card has; it is a count in both cases, so an Option would be no plainer.
    pub size: usize,
}

// Which card the begun line is. One of more than 80 bytes is none.
fn begun_kind(state: Scanner) -> Option<CardKind>
    ensures { result ≡ begun_kind state }
{
    if LONGEST < state.size {
        return None;
    }
    lines::kind(&state.begun[..state.size])
}

// The begun line has ended and is judged; the next has no bytes yet.
fn line_ended(state: Scanner) -> Scanner
    ensures { result ≡ line_ended state }
{
    let kind = begun_kind(state);
    let seen = lines::with_line(state.seen, kind);
    let begun = state.begun;
    Scanner {
        seen,
        begun,
        size: 0,
    }
}

// The begun line has a byte more. No byte past the 80th is kept, since the line is no card.
fn with_byte(state: Scanner, byte: u8) -> Scanner
    ensures { result ≡ with_byte state byte }
{
    let size = state.size;
    let mut next = state;
    if size < LONGEST {
        next.begun[size] = byte;
        next.size = size + 1;
        return next;
    }
    next.size = 81;
    next
}

fn step(state: Scanner, byte: u8) -> Scanner
    ensures { result ≡ step_of state byte }
{
    if byte == LINE_END {
        return line_ended(state);
    }
    with_byte(state, byte)
}

// A scan of no bytes.
pub fn begin() -> Scanner
    ensures { result ≡ no_bytes }
{
    Scanner {
        seen: LinesSeen::default(),
        begun: [0u8; 80],
        size: 0,
    }
}

// The scan goes on over the next piece of a deck.
pub fn scan(state: Scanner, piece: &[u8]) -> Scanner
    ensures { result ≡ scan_from state piece.now }
{
    let mut current = state;
    for byte in piece {
        current = step(current, *byte);
    }
    current
}

// What the scan comes to, where the deck ends here. A line that is begun is the last.
pub fn scanned(state: Scanner) -> Result<usize, Disorder>
    ensures { answer_of result ≡ scanned_of state }
{
    if state.size == 0 {
        return lines::order_of(state.seen);
    }
    let last = line_ended(state);
    lines::order_of(last.seen)
}

// Whether nothing that follows changes what the scan comes to: a line that is no card has ended, or the begun one is longer than any card.
pub fn is_settled(state: Scanner) -> bool
    ensures { result ≡ settled state }
{
    state.seen.bad.is_some() || LONGEST < state.size
}
