// The lines of a deck, what card a line is, and the order of the cards (document 01, "The deck"): refusals 1 and 2.
#![tactic(auto)]

ghost use Rattle.std.specs.Prelude.{◌≡◌, ℕ, Bool, true, ◌≤◌, ◌==◌, length, Some, Err};
ghost use Rattle.std.specs.List.{position_or_len};
ghost use Rattle.rules.specs.Base.{ascii, within, every};
ghost use Rattle.rules.specs.Answer.{refusal_of, place_of};
ghost use Rattle.rules.specs.Deck.{tidy, card_of};
ghost use Rattle.rules.specs.Order.{operands_of};
ghost use Rattle.lines.specs.Meaning.{BeginsSays, OperandEnds, CardSays, IsCard, inner, PassedSays, LineSays};
ghost use Rattle.lines.specs.Ordering.{card_kind_of, faulty, misplaced, closed, with_line, order_of, card_count, answer_of};

// The most bytes of a card.
pub const LONGEST: usize = 80;

// The most cards of a deck.
const CARDS: usize = 64;

const BLANK: u8 = 0x20;

pub const LINE_END: u8 = 0x0A;

// How many bytes are looked at at once where a line's end is looked for.
const BLOCK: usize = 8;

// Whether each byte passes a test. A loop with one way out is compiled to look at many bytes at once, which `all`, with two, is not.
fn each<F: Fn(u8) -> bool>(bytes: &[u8], passes: F) -> bool
    ghost test: { ℕ → Bool }
    requires callable { F.IsAlwaysCallable passes }
    requires tells { (b : ℕ) (r : Bool) → F.post passes b r → r ≡ test b }
    ensures { result ≡ every test bytes.now }
{
    let mut good = true;
    for byte in bytes {
        if !passes(*byte) {
            good = false;
        }
    }
    good
}

// How many bytes stand before the first of this one, or all where there is none.
fn bytes_before(bytes: &[u8], byte: u8) -> usize
    ensures inside { result ≤ length bytes.now }
    ensures value { result ≡ position_or_len (λ b. b == byte) bytes.now }
{
    bytes
        .iter()
        .position(|other| *other == byte)
        .unwrap_or(bytes.len())
}

// Whether a card may have each byte of the line.
fn plain(line: &[u8]) -> bool
    ensures { result ≡ every (within 0x20 0x7E) line.now }
{
    each(line, |byte| 0x20 <= byte && byte <= 0x7E)
}

// Whether a line has the length and the bytes of a card. A longer line's bytes are not looked at.
fn is_tidy(line: &[u8]) -> bool
    ensures { result ≡ tidy line.now }
{
    let length = line.len();
    if length == 0 {
        return false;
    }
    if LONGEST < length {
        return false;
    }
    plain(line)
}

// Where the operand that starts at `start` ends: at the first blank, or the line's end.
fn operand_end(line: &[u8], start: usize) -> usize
    requires { start ≤ length line.now }
    ensures { OperandEnds line.now start result }
{
    start + bytes_before(&line[start..], BLANK)
}

// A card: a U or UTT card or an FS card, with where its operand starts and ends, or an END card.
#[derive(Clone, Copy, PartialEq, Eq)]
pub enum CardRead {
    UCard { start: usize, end: usize },
    FsCard { start: usize, end: usize },
    EndCard,
}

// Which card a line is.
#[derive(Clone, Copy, PartialEq, Eq)]
pub enum CardKind {
    Utility,
    Select,
    End,
}

// A line that begins as an END card does: that is all of it, or a blank follows.
fn end_kind(line: &[u8]) -> Option<CardKind>
    requires line_value { tidy line.now ≡ true }
    requires begins_says { BeginsSays (ascii "// END") line.now true }
    ensures { result ≡ card_kind_of (card_of line.now) }
{
    if line.len() == 6 {
        return Some(CardKind::End);
    }
    if line[6] == BLANK {
        return Some(CardKind::End);
    }
    None
}

// A line that has the length and the bytes of a card: its first bytes say which it is.
fn tidy_kind(line: &[u8]) -> Option<CardKind>
    requires { tidy line.now ≡ true }
    ensures { result ≡ card_kind_of (card_of line.now) }
{
    if line.starts_with(b"// U ") {
        return Some(CardKind::Utility);
    }
    if line.starts_with(b"// UTT ") {
        return Some(CardKind::Utility);
    }
    if line.starts_with(b"// FS ") {
        return Some(CardKind::Select);
    }
    if line.starts_with(b"// END") {
        return end_kind(line);
    }
    None
}

// Where an operand ends is not looked for: the order of the cards does not ask it.
pub fn kind(line: &[u8]) -> Option<CardKind>
    ensures { result ≡ card_kind_of (card_of line.now) }
{
    if is_tidy(line) {
        return tidy_kind(line);
    }
    None
}

// What card a line is that is known to be one. FS and END are told by the fourth byte, U and UTT by the fifth, so no other byte of the kind is looked
// at again.
pub fn operand(line: &[u8]) -> CardRead
    requires { IsCard (card_of line.now) }
    ensures { CardSays line.now (Some result) }
{
    let letter = line[3];
    if letter == b'F' {
        let end = operand_end(line, 6);
        return CardRead::FsCard { start: 6, end };
    }
    if letter == b'E' {
        return CardRead::EndCard;
    }
    if line[4] == BLANK {
        let end = operand_end(line, 5);
        return CardRead::UCard { start: 5, end };
    }
    let end = operand_end(line, 7);
    CardRead::UCard { start: 7, end }
}

// What card a line is, if it is one.
pub fn card(line: &[u8]) -> Option<CardRead>
    ensures { CardSays line.now result }
{
    if kind(line).is_none() {
        return None;
    }
    Some(operand(line))
}

// A line of a deck: where it ends, and where the next one begins.
#[derive(Clone, Copy, PartialEq, Eq)]
pub struct LineRead {
    pub end: usize,
    pub next: usize,
}

// A place before which no line ends, from `at` on: block by block, which is faster than byte by byte.
fn passed(deck: &[u8], at: usize) -> usize
    requires { at ≤ length deck.now }
    ensures { PassedSays deck.now at result }
{
    let mut end = at;
    for block in deck[at..].chunks_exact(BLOCK) {
        if !each(block, |byte| byte != LINE_END) {
            return end;
        }
        end += BLOCK;
    }
    end
}

// The line that begins at a place, if one does. The last one may lack its end.
pub fn line(deck: &[u8], at: usize) -> Option<LineRead>
    ensures { LineSays deck.now at result }
{
    if deck.len() <= at {
        return None;
    }
    let from = passed(deck, at);
    let end = from + bytes_before(&deck[from..], LINE_END);
    let next = deck.len().min(end + 1);
    Some(LineRead { end, next })
}

// What the lines that have ended come to.
#[derive(Clone, Copy, Default)]
pub struct LinesSeen {
    // How many there are.
    pub lines: usize,
    // The first that is no card.
    pub bad: Option<usize>,
    // The first card at fault.
    pub fault: Option<usize>,
    // Whether an END card has stood.
    pub ended: bool,
}

// Why the cards of a deck are not in order: a line is no card, or a card stands where it may not or is missing.
#[derive(Clone, Copy, PartialEq, Eq)]
pub enum Disorder {
    NoCard { place: usize },
    Misplaced { place: usize },
}

impl Disorder {
    // The number of the refusal.
    pub fn number(self) -> usize
        ensures { result ≡ refusal_of (answer_of (Err self)) }
    {
        match self {
            Disorder::NoCard { place: _ } => 1,
            Disorder::Misplaced { place: _ } => 2,
        }
    }

    pub fn place(self) -> usize
        ensures { result ≡ place_of (answer_of (Err self)) }
    {
        match self {
            Disorder::NoCard { place } => place,
            Disorder::Misplaced { place } => place,
        }
    }
}

// Whether an END card has stood, with this line.
fn closes(kind: Option<CardKind>, ended: bool) -> bool
    ensures { result ≡ closed kind ended }
{
    ended || kind == Some(CardKind::End)
}

// Whether an FS or END card is at fault at its place: first, after an END card, or past the 64th.
fn is_faulty(place: usize, ended: bool) -> bool
    ensures { result ≡ faulty place ended }
{
    place == 1 || ended || CARDS < place
}

// Whether a card is at fault at its place. A U card can only be the first.
fn is_misplaced(kind: Option<CardKind>, place: usize, ended: bool) -> bool
    ensures { result ≡ misplaced kind place ended }
{
    match kind {
        None => false,
        Some(CardKind::Utility) => 1 < place,
        Some(CardKind::Select) => is_faulty(place, ended),
        Some(CardKind::End) => is_faulty(place, ended),
    }
}

// A line more is judged. The first place that is marked stays, and so does the highest number of lines, so that no deck is too long to be judged.
pub fn with_line(seen: LinesSeen, kind: Option<CardKind>) -> LinesSeen
    ensures { result ≡ with_line seen kind }
{
    let place = seen.lines.saturating_add(1);
    let bad = seen.bad.or(kind.is_none().then_some(place));
    let misplaced = is_misplaced(kind, place, seen.ended);
    let fault = seen.fault.or(misplaced.then_some(place));
    let ended = closes(kind, seen.ended);
    LinesSeen {
        lines: place,
        bad,
        fault,
        ended,
    }
}

// The lowest refusal: a line that is no card, before a card at fault, before an END card that is missing.
pub fn order_of(seen: LinesSeen) -> Result<usize, Disorder>
    ensures { answer_of result ≡ order_of seen }
{
    if let Some(place) = seen.bad {
        return Err(Disorder::NoCard { place });
    }
    if let Some(place) = seen.fault {
        return Err(Disorder::Misplaced { place });
    }
    if seen.ended {
        return Ok(seen.lines);
    }
    let place = seen.lines.saturating_add(1);
    Err(Disorder::Misplaced { place })
}

// The order of a whole deck's cards, and how many there are. All of a line is here, so no byte is copied.
pub fn order(deck: &[u8]) -> Result<usize, Disorder>
    ensures { answer_of result ≡ card_count (operands_of deck.now) }
{
    let mut seen = LinesSeen::default();
    let mut at = 0;
    while let Some(LineRead { end, next }) = line(deck, at) {
        seen = with_line(seen, kind(&deck[at..end]));
        at = next;
    }
    order_of(seen)
}
