// What programs read: their arguments, and a deck of any length, and a reel, from a file or standard input. A read that failed is told apart from the end of a file.
#![tactic(auto)]

mod arguments;

ghost use Rattle.io.specs.Counts.{IsPrefixLen};
ghost use Rattle.std.specs.Prelude.{◌≡◌, ◌<◌, length, IfErr};
ghost use Rattle.lines.specs.Ordering.{answer_of};
ghost use Rattle.inputs.specs.Reading.{bytes_read, failure_of, FillSays, fed_of, FedSays, long_deck, unless_failed, whole_deck, known_of, bytes_known, LongDeckSays, DeckBytesSays};

pub use arguments::{argument, argument_count, read_argument};
use lines::Disorder;
use scans::Scanner;
use std::io::{Error, Read};

// A read that failed: how many bytes were read before, and why it did.
#[derive(Clone, Copy)]
pub struct ReadFailure {
    pub length: usize,
    pub why: Error,
}

// Reads until the room is full or the file ends, and answers how many bytes were read. A turn goes on by what a read brought, which no range counts.
pub fn fill<R: Read>(from: &mut R, room: &mut [u8]) -> Result<usize, ReadFailure>
    ensures prefix_len { IsPrefixLen (bytes_read result) room.new }
    ensures fill_says { FillSays (length room.old) result }
    ensures left_room { IfErr result (λ failure. failure.length < length room.old) }
{
    let mut at = 0;
    while at < room.len() {
        match from.read(&mut room[at..]) {
            Ok(0) => return Ok(at),
            Ok(n) => at += n,
            Err(why) => return Err(ReadFailure { length: at, why }),
        }
    }
    Ok(at)
}

fn bytes_read(read: Result<usize, ReadFailure>) -> usize
    ensures { result ≡ bytes_read read }
{
    match read {
        Ok(n) => n,
        Err(failed) => failed.length,
    }
}

fn failure_of(read: Result<usize, ReadFailure>) -> Option<Error>
    ensures { result ≡ failure_of read }
{
    match read {
        Ok(_) => None,
        Err(failed) => Some(failed.why),
    }
}

// A scan of a deck that was fed, whether there may be more to read, and why a read failed, if one did.
#[derive(Clone, Copy)]
struct Fed {
    state: Scanner,
    more: bool,
    failure: Option<Error>,
}

// What is known once a scan was fed what was read. A read that left room found the end, or failed.
fn fed_with(state: Scanner, read: Result<usize, ReadFailure>) -> Fed
    ensures { result ≡ fed_of state read }
{
    Fed {
        state,
        more: bytes_read(read) == 65536,
        failure: failure_of(read),
    }
}

// Reads on until the scan is settled, the input ends or a read fails. A proved loop has to end, and nothing says that the input does: it takes at most so many turns,
// more than any run uses up.
fn scan_on<R: Read>(from: &mut R, state: Scanner) -> Fed
    ensures { FedSays state result }
{
    let mut room = io::large_buffer();
    let mut fed = Fed {
        state,
        more: true,
        failure: None,
    };
    for _ in 0..u64::MAX {
        let now = fed.state;
        if scans::is_settled(now) {
            break;
        }
        let read = fill(from, &mut room);
        let n = bytes_read(read);
        fed = fed_with(scans::scan(now, &room[..n]), read);
        if !fed.more {
            break;
        }
    }
    fed
}

// By which number a deck is refused, and at which place.
#[derive(Clone, Copy)]
pub struct Refusal {
    pub number: usize,
    pub place: usize,
}

// Why there is no deck: it is longer than the room, and refused; or a read failed, with what is known of what was read before.
#[derive(Clone, Copy)]
pub enum NoDeck {
    Refused(Refusal),
    Failed {
        before: Result<usize, Refusal>,
        why: Error,
    },
}

// A deck that filled the room, by what the scan of it comes to. A right deck has at most 5,184 bytes, so a longer one is refused by 1 or 2; that
// its cards are in order does not arise (`long_deck_refused`).
fn long_deck(order: Result<usize, Disorder>) -> Result<usize, Refusal>
    ensures { result ≡ long_deck (answer_of order) }
{
    match order {
        Ok(_) => Ok(65536),
        Err(disorder) => Err(Refusal {
            number: disorder.number(),
            place: disorder.place(),
        }),
    }
}

// What is known of a deck is answered as it is, unless a read failed.
fn unless_failed(failure: Option<Error>, before: Result<usize, Refusal>) -> Result<usize, NoDeck>
    ensures { result ≡ unless_failed failure before }
{
    if let Some(why) = failure {
        return Err(NoDeck::Failed { before, why });
    }
    match before {
        Ok(length) => Ok(length),
        Err(refusal) => Err(NoDeck::Refused(refusal)),
    }
}

// The deck whose first 65,536 bytes are in the room. The scanner finds its refusal whatever its length.
fn longer<R: Read>(from: &mut R, room: &[u8; 65536]) -> Result<usize, NoDeck>
    ensures prefix_len { IsPrefixLen (bytes_known (known_of result)) room.now }
    ensures long_deck_says { LongDeckSays room.now result }
{
    let fed = scan_on(from, scans::scan(scans::begin(), room));
    let state = fed.state;
    unless_failed(fed.failure, long_deck(scans::scanned(state)))
}

// A deck that left room is here as a whole, and nothing is said against it yet.
fn whole(read: Result<usize, ReadFailure>) -> Result<usize, NoDeck>
    ensures { result ≡ whole_deck read }
{
    unless_failed(failure_of(read), Ok(bytes_read(read)))
}

// A deck of any length: how many bytes it has at the start of the room.
pub fn deck<R: Read>(from: &mut R, room: &mut [u8; 65536]) -> Result<usize, NoDeck>
    ensures prefix_len { IsPrefixLen (bytes_known (known_of result)) room.new }
    ensures deck_bytes_says { DeckBytesSays room.new result }
{
    match fill(from, room) {
        Ok(65536) => longer(from, room),
        read => whole(read),
    }
}
