// Refusals 14 and 15: how long the output of a record is, or the output reel. Document 01, "Blocks and records". Only in FV does an output not fit its block.
use pieces::Cursor;
use std::io::Print;
use terms::{Asked, Task};
use words::phrase;

// What an output block comes to behind a record of the input: the record's number, how many of its input block are taken, the bytes of their output with the block's
// word, and the bytes of this record's alone, with its own word.
#[derive(Clone, Copy)]
struct Filled {
    number: usize,
    taken: usize,
    bytes: usize,
    last: usize,
}

// How long the output of a record with so many bytes is, with its word.
fn worded_length(task: Task, length: usize) -> usize {
    if task.width > 65536 || length > 65536 {
        return 0;
    }
    task.cost.saturating_add(tasks::output_length(task, length))
}

// Behind one record more of the same block. Those before R are not taken.
fn behind(task: Task, before: Filled, length: usize) -> Filled {
    let number = before.number.saturating_add(1);
    let last = worded_length(task, length);
    if number < task.first {
        return Filled {
            number,
            last,
            ..before
        };
    }
    Filled {
        number,
        taken: before.taken.saturating_add(1),
        bytes: before.bytes.saturating_add(last),
        last,
    }
}

// Behind a block, or behind the record of a place in it, where so many records stand before the block.
fn behind_block(task: Task, b: &[u8], records: usize, place: usize) -> Filled {
    let form = tasks::form_of(task);
    let mut filled = Filled {
        number: records,
        taken: 0,
        bytes: task.cost,
        last: 0,
    };
    let mut at = Cursor { at: task.cost };
    while let Ok(Some(piece)) = pieces::piece(form, b, at) {
        filled = behind(task, filled, piece.length);
        if filled.number == place {
            return filled;
        }
        at = piece.next;
    }
    filled
}

// Behind the record of a place, from 1. Each block has one or more.
fn behind_record(task: Task, reel: &[u8], place: usize) -> Filled {
    let mut filled = behind_block(task, reels::block(reel, 0), 0, place);
    for i in 1..place {
        if filled.number >= place {
            return filled;
        }
        filled = behind_block(task, reels::block(reel, i), filled.number, place);
    }
    filled
}

// Says which records stand before it in the block, if any do.
fn say_before(to: &impl Print, taken: usize) {
    match taken {
        0 | 1 => (),
        2 => phrase(to, "with the record before it in its block"),
        _ => phrase(
            to,
            format_args!("with the {} records before it in its block", taken - 1),
        ),
    }
}

fn say_sizes(to: &impl Print, bytes: usize, limit: usize) {
    phrase(
        to,
        format_args!(" has {bytes} bytes with its words, and a block of B at most {limit}"),
    );
}

// Says by what length the output of the record of a place, from 1, does not fit a block of B.
pub(crate) fn explain(to: &impl Print, asked: Asked, reel: &[u8], place: usize) {
    phrase(to, format_args!(", at record {place} of the input: "));
    let task = tasks::task_of(asked);
    let filled = behind_record(task, reel, place);
    let alone = task.cost.saturating_add(filled.last);
    if alone > task.limit {
        phrase(to, "the output of this record");
        say_sizes(to, alone, task.limit);
    } else if filled.bytes > task.limit {
        say_before(to, filled.taken);
        phrase(to, " the output");
        say_sizes(to, filled.bytes, task.limit);
    } else {
        phrase(to, "the output of this record does not fit a block of B");
    }
}

// Says how long the output reel would be.
pub(crate) fn too_long(to: &impl Print, length: usize) {
    phrase(
        to,
        format_args!(
            ": the output reel would have {length} bytes, more than the 65,536 that a reel may have; larger blocks in B, or fewer records, make it shorter"
        ),
    );
}
