// The segments of a good reel one after the other, through all its blocks: the length of each record, and the data copied or compared straight from where it lies.
// Document 02, order 6. The header and the rule of each block were asked when the reel was read, so that each segment is there and no answer says that one is not.
#![tactic(auto)]

ghost use Rattle.std.specs.Prelude.{◌≡◌, ◌↔◌, true, ◌+◌, ◌≤◌, min, length, take, drop};
ghost use Rattle.rules.specs.Halves.{over};
ghost use Rattle.reels.specs.Header.{block_part};
ghost use Rattle.segments.specs.Spots.{no_segment, read_at, next_of, on_data, passed_by};
ghost use Rattle.segments.specs.Promise.{Takeable, SpotTaken, Coming, Comes, Copyable, Copied, Streamed, SameData};

use pieces::Cursor;

// A place in the data of a reel: bytes `from` to `to` of block `block` (from 0) are left of the segment read last, and the next segment's word stands at `to`,
// or, where `to` is the block's end, at place 4 of the next block.
#[derive(Clone, Copy)]
pub struct Spot {
    pub block: usize,
    pub from: usize,
    pub to: usize,
}

// A record's length, and the spot behind it.
#[derive(Clone, Copy)]
pub struct RecordAhead {
    pub size: usize,
    pub behind: Spot,
}

// A segment, all of whose data is left, and whether it ends its record.
#[derive(Clone, Copy)]
struct SegmentRead {
    spot: Spot,
    ends: bool,
}

// The segment whose word stands at a place of a block.
fn read_at(reel: &[u8], block: usize, at: usize) -> SegmentRead
    ensures { result ≡ read_at reel.now block at }
{
    let found = pieces::segment(reels::block(reel, block), Cursor { at });
    match found.ok().flatten() {
        Some(segment) => SegmentRead {
            spot: Spot {
                block,
                from: segment.place,
                to: segment.next.at,
            },
            ends: segment.third % 2 == 0,
        },
        None => nothing(block, at),
    }
}

// Nothing is left where there is no segment.
fn nothing(block: usize, at: usize) -> SegmentRead
    ensures { result ≡ no_segment block at }
{
    SegmentRead {
        spot: Spot {
            block,
            from: at,
            to: at,
        },
        ends: true,
    }
}

// The segment behind a spot: a block's end leads to the first segment of the next block.
fn next(reel: &[u8], v: Spot) -> SegmentRead
    requires { v.block ≤ length reel.now }
    ensures { result ≡ next_of reel.now v }
{
    let block = v.block;
    let at = v.to;
    let b = reels::block(reel, block);
    if at < b.len() {
        return read_at(reel, block, at);
    }
    read_at(reel, block + 1, 4)
}

// Behind so many of the bytes that are left of the segment.
fn passed(v: Spot, n: usize) -> Spot
    requires { v.from + n ≤ v.to }
    ensures { result ≡ passed_by n v }
{
    Spot {
        from: v.from + n,
        ..v
    }
}

// The record that begins at a spot: the words of its segments are walked, and nothing is copied.
// A loop, since the segment that is read says whether it is the last.
pub fn ahead(reel: &[u8], v: Spot) -> RecordAhead
    requires { Coming reel.now v }
    ensures { Comes reel.now v result }
{
    let mut at = v;
    let mut size = 0;
    loop {
        let read = next(reel, at);
        let here = read.spot;
        let left = here.to - here.from;
        at = passed(here, left);
        size += left;
        if read.ends {
            return RecordAhead { size, behind: at };
        }
    }
}

// Behind so many records.
pub fn taken(reel: &[u8], count: usize) -> Spot
    requires { Takeable reel.now count }
    ensures { SpotTaken reel.now count result }
{
    let mut at = Spot {
        block: 0,
        from: 4,
        to: 4,
    };
    for _ in 0..count {
        at = ahead(reel, at).behind;
    }
    at
}

// The same spot, or, where nothing is left of its segment, the next segment.
fn on_data(reel: &[u8], v: Spot) -> Spot
    requires { v.block ≤ length reel.now }
    ensures { result ≡ on_data reel.now v }
{
    if v.from < v.to {
        return v;
    }
    next(reel, v).spot
}

// So many of the bytes that are left of a segment, to the front of out.
fn put(reel: &[u8], v: Spot, n: usize, out: &mut [u8])
    requires { (v.from + n ≤ length (block_part reel.now v.block)) × (n ≤ 65536) × (n ≤ length out.old) }
    ensures { out.new ≡ over 0 (take n (drop v.from (block_part reel.now v.block))) out.old }
{
    let b = reels::block(reel, v.block);
    let from = v.from;
    let end = from + n;
    copies::copy(&b[from..end], out);
}

// So many bytes of data from a spot on go to the front of out, across segments and blocks; and the spot behind them.
// A while, since each turn goes on by as much as is left of a segment, which no range counts.
pub fn copy(reel: &[u8], v: Spot, n: usize, out: &mut [u8]) -> Spot
    requires { Copyable reel.now v n (length out.old) }
    ensures { Copied reel.now v n out.old out.new result }
{
    let mut at = v;
    let mut done = 0;
    while done < n {
        let here = on_data(reel, at);
        let size = (n - done).min(here.to - here.from);
        put(reel, here, size, &mut out[done..]);
        at = passed(here, size);
        done += size;
    }
    at
}

// Whether so many of the bytes that are left of a segment are those that are left of a segment of another reel.
fn same_part(reel: &[u8], v: Spot, t: &[u8], u: Spot, n: usize) -> bool
    requires { (v.from + n ≤ length (block_part reel.now v.block)) × (u.from + n ≤ length (block_part t.now u.block)) × (n ≤ 65536) }
    ensures { (result ≡ true) ↔ (take n (drop v.from (block_part reel.now v.block)) ≡ take n (drop u.from (block_part t.now u.block))) }
{
    let b = reels::block(reel, v.block);
    let c = reels::block(t, u.block);
    let start = v.from;
    let at = u.from;
    b[start..start + n] == c[at..at + n]
}

// Whether so many bytes of data from a spot on are those from a spot of another reel on, across segments and blocks of both.
// A while, as in `copy`.
pub fn same(reel: &[u8], v: Spot, t: &[u8], u: Spot, n: usize) -> bool
    requires { Streamed reel.now v n × Streamed t.now u n }
    ensures { SameData reel.now v t.now u n result }
{
    let mut at = v;
    let mut there = u;
    let mut done = 0;
    while done < n {
        let here = on_data(reel, at);
        let other = on_data(t, there);
        let both = (here.to - here.from).min(other.to - other.from);
        let size = (n - done).min(both);
        if !same_part(reel, here, t, other, size) {
            return false;
        }
        at = passed(here, size);
        there = passed(other, size);
        done += size;
    }
    true
}
