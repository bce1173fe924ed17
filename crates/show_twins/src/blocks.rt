// Reels with a block for each twin: in FF the record, in FV the record behind its words. A plan in FU or FS keeps, and has no twins.
ghost use Rattle.std.specs.Prelude.{◌+◌, ◌≤◌, ◌≡◌, length};

use crate::room;
use terms::Format;

// Room for the longest block: a twin has at most 4,097 bytes.
fn block_room() -> [u8; 4105]
    ensures { 4105 ≡ length result }
{
    [0; 4105]
}

// Puts the words of a block of one record into the room, and answers where they end.
fn put_words(format: Format, length: usize, room: &mut [u8]) -> usize
    requires { length ≤ 4097 }
{
    match format {
        Format::FV => {
            room::put_length_word(room, 0, length + 8);
            room::put_length_word(room, 4, length + 4);
            8
        }
        Format::FF | Format::FU | Format::FS => 0,
    }
}

// Puts the block of a record into the room, and answers where it ends. No record has no block.
fn put_block(format: Format, record: &[u8], room: &mut [u8]) -> usize {
    if record.len() == 0 || 4097 < record.len() {
        return 0;
    }
    let from = put_words(format, record.len(), room);
    room::put(room, from, record)
}

// How many blocks of so many bytes may stand before the last in a reel. Each block has an offset of 4 bytes, and the count and the last
// offset take 8.
fn most_copies(block: usize, last: usize) -> usize
    ensures { result ≤ 65524 }
{
    let left = 65524usize.saturating_sub(last);
    if left < block {
        return 0;
    }
    left / (block + 4)
}

// Where the next offset and the next block of a reel go.
#[derive(Clone, Copy)]
struct Ends {
    offsets: usize,
    blocks: usize,
}

// Adds a block to a reel; no bytes are no block.
fn add(room: &mut [u8], ends: Ends, block: &[u8]) -> Ends {
    if block.len() == 0 {
        return ends;
    }
    room::put_word(room, ends.offsets, ends.blocks);
    Ends {
        offsets: ends.offsets.saturating_add(4),
        blocks: room::put(room, ends.blocks, block),
    }
}

fn add_copies(room: &mut [u8], ends: Ends, block: &[u8], copies: usize) -> Ends {
    let mut now = ends;
    for _ in 0..copies {
        now = add(room, now, block);
    }
    now
}

// How many blocks a reel of so many copies has with the last one; no bytes are no block.
fn count(copies: usize, last: &[u8]) -> usize
    requires { copies ≤ 65524 }
    ensures { result ≤ copies + 1 }
{
    if last.len() == 0 {
        return copies;
    }
    copies + 1
}

// Puts the reel of so many copies of a block and the last one into the room, and answers its length.
fn join(copies: usize, block: &[u8], last: &[u8], room: &mut [u8]) -> usize
    requires { copies ≤ 65524 }
{
    let k = count(copies, last);
    room::put_word(room, 0, k);
    let begun = Ends {
        offsets: 4,
        blocks: 4 * k + 8,
    };
    let copied = add_copies(room, begun, block, copies);
    let done = add(room, copied, last);
    room::put_word(room, done.offsets, done.blocks);
    done.blocks
}

// A reel, in the room: so many copies of the first record, each a block, and then the second, which may be missing. There is none where it
// would be longer than 65,536 bytes.
pub(crate) fn reel<'a>(
    format: Format,
    copies: usize,
    first: &[u8],
    second: &[u8],
    room: &'a mut [u8],
) -> Option<&'a [u8]> {
    let mut block = block_room();
    let n = put_block(format, first, &mut block);
    let mut last = block_room();
    let m = put_block(format, second, &mut last);
    if most_copies(n, m) < copies {
        return None;
    }
    let length = join(copies, room::front(&block, n), room::front(&last, m), room);
    Some(room::front(room, length))
}
