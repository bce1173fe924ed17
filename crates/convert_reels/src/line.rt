// A line on standard output: the numbers of a run, and behind them the name of its reel, if it has one. It is built in a room and written at once.
use outcomes::Ran;
use std::io::{Cursor, Print, Write};

// Room for five numbers of at most 20 digits, five blanks, a name of at most 4,095 bytes and what ends a line.
const LONGEST: usize = 4201;

pub(crate) fn print(rt: &HostRuntime, ran: Ran, name: &[u8], end: u8) {
    let mut line = Cursor::new([0; LONGEST]);
    let Ran {
        refusal,
        place,
        length,
        records,
        blocks,
        ..
    } = ran;
    let _ = write!(line, "{refusal} {place} {length} {records} {blocks}");
    if !name.is_empty() {
        let _ = line.write_all(b" ");
        let _ = line.write_all(name);
    }
    let _ = line.write_all(&[end]);
    if let Err(why) = rt.write_all(files::written(&line)) {
        notices::fail(&rt.stderr(), b"standard output", why);
    }
}
