// A run in FS. In TR the records from R on fill blocks of B: each is cut where a block is full, and goes from its segments in the input straight into those of the
// output. TC leaves the blocks. Document 02, order 6.
#![tactic(auto)]

ghost use Rattle.std.specs.Prelude.{◌≡◌, ◌≤◌, ◌<◌, length};
ghost use Rattle.rules.specs.Spanned.{code_of};
ghost use Rattle.rules.specs.Run.{spanned_run};
ghost use Rattle.rules.specs.Lent.{run_answer, output_after};
ghost use Rattle.outcomes.specs.Promise.{ran_struct};
ghost use Rattle.spans.specs.Promise.{Streaming, SegmentFits, SegmentPut, RecordFits, RecordPut, SpotStanding, SpannedMeasures, SpannedLent, SpannedPut, ran_in, RanAs, Taking, FilledRun};

use cuts::CutTaken;
use fillings::Tally;
use outcomes::Ran;
use reels::ReelError;
use segments::Spot;

// What so many records from a spot on measure as blocks of m bytes: along the words of their segments, in a pass that holds a few numbers and builds nothing.
fn measure(m: usize, reel: &[u8], from: Spot, count: usize) -> Tally
    requires { SpotStanding reel.now from count × (9 ≤ m) × (m < 65536) }
    ensures { SpannedMeasures m reel.now from count result }
{
    let mut at = from;
    let mut tally = cuts::full(m);
    for _number in 0..count {
        let next = segments::ahead(reel, at);
        tally = cuts::behind(m, tally, next.size);
        at = next.behind;
    }
    tally
}

// The code of a segment: a whole record, a first segment, a last one, a middle one.
fn code(first: bool, last: bool) -> u8
    ensures { result ≡ code_of first last }
{
    match (first, last) {
        (true, true) => 0,
        (true, false) => 1,
        (false, true) => 2,
        (false, false) => 3,
    }
}

// A segment in its place: where it opens a block, the block's offset; then the word of its block, which says the block's size so far; then its own word, and its data.
fn put_next(
    reel: &[u8],
    at: Spot,
    first: bool,
    last: bool,
    base: usize,
    tally: Tally,
    part: CutTaken,
    out: &mut [u8],
) -> Spot
    requires streaming { Streaming reel.now at part.size }
    requires segment_fits { SegmentFits base tally part (length out.old) }
    ensures { SegmentPut reel.now at first last base tally part out.old out.new result }
{
    let more = part.tally;
    let size = more.size;
    let end = base + more.bytes;
    fillings::put_offset(base, tally, more, out);
    pieces::put_length_word(out, end - size, size);
    let from = end - part.size;
    pieces::put_coded_word(out, from - 4, code(first, last), part.size + 4);
    segments::copy(reel, at, part.size, &mut out[from..])
}

// A record of so many bytes, segment by segment, and the tally behind it. A while, as in `cuts::behind`.
fn put_record(
    m: usize,
    base: usize,
    reel: &[u8],
    from: Spot,
    size: usize,
    tally: Tally,
    out: &mut [u8],
) -> Tally
    requires streaming { Streaming reel.now from size }
    requires record_fits { RecordFits m base tally size (length out.old) }
    ensures { RecordPut m base reel.now from size tally out.old out.new result }
{
    let mut at = from;
    let mut now = tally;
    let mut first = true;
    let mut rest = size;
    while rest > 0 {
        let part = cuts::cut(m, now, rest);
        at = put_next(reel, at, first, part.size == rest, base, now, part, out);
        now = part.tally;
        first = false;
        rest -= part.size;
    }
    now
}

// Writes the reel of so many records from a spot on, in blocks of m bytes, at the front of out. All refusals come before it.
fn write(m: usize, reel: &[u8], from: Spot, count: usize, blocks: usize, out: &mut [u8])
    requires { SpannedLent m reel.now from count blocks (length out.old) }
    ensures { SpannedPut m reel.now from count blocks out.old out.new }
{
    let base = 4 * blocks + 8;
    let mut at = from;
    let mut tally = cuts::full(m);
    pieces::put_word(out, 0, blocks);
    for _number in 0..count {
        let next = segments::ahead(reel, at);
        tally = put_record(m, base, reel, at, next.size, tally, out);
        at = next.behind;
    }
    pieces::put_word(out, 4 * blocks + 4, base + tally.bytes);
}

// TC leaves the blocks: its output is its input. Here and in `filled` the C struct is answered, refused or not, so its number is asked: `?` would add a type and a conversion.
fn copied(reel: &[u8], records: usize, blocks: usize, out: &mut [u8]) -> Ran
    requires { length reel.now ≤ 65536 }
    ensures { RanAs (ran_in reel.now records blocks) out.old result out.new }
{
    let answer = outcomes::housed(out.len(), reel.len(), records, blocks);
    if answer.refusal > 0 {
        return answer;
    }
    copies::copy(reel, out);
    answer
}

// TR fills blocks of m bytes with the records behind those that are passed over.
fn filled(m: usize, reel: &[u8], passed: usize, records: usize, out: &mut [u8]) -> Ran
    requires { Taking reel.now passed records × (9 ≤ m) × (m < 65536) }
    ensures { FilledRun m reel.now passed records out.old result out.new }
{
    let from = segments::taken(reel, passed);
    let tally = measure(m, reel, from, records);
    let blocks = tally.blocks;
    let length = 4 * blocks + 8 + tally.bytes;
    let answer = outcomes::housed(out.len(), length, records, blocks);
    if answer.refusal > 0 {
        return answer;
    }
    write(m, reel, from, records, blocks, out);
    answer
}

// The run of TC (`copies`) or TR over a reel in FS, whose blocks have at most g bytes: refusals 11, 12 and 15, or the output reel at the front of what is lent. Each
// record is cut to fit, so that refusal 14 does not occur, and no field is selected, so that 13 does not.
pub fn run_spanned(
    copies: bool,
    g: usize,
    m: usize,
    first: usize,
    reel: &[u8],
    out: &mut [u8],
) -> Ran
    requires { (9 ≤ m) × (m < 65536) × (g < 65536) × (1 ≤ first) × (first ≤ 65536) }
    ensures answer { result ≡ ran_struct (run_answer (spanned_run copies g m first (length out.old) reel.now)) }
    ensures output { out.new ≡ output_after out.old (spanned_run copies g m first (length out.old) reel.now) }
{
    match turns::read_spanned(g, reel) {
        Ok(found) => {
            let passed = (first - 1).min(found.records);
            let records = found.records - passed;
            if copies {
                copied(reel, records, found.blocks, out)
            } else {
                filled(m, reel, passed, records, out)
            }
        }
        Err(ReelError::NotReel) => outcomes::refused(11, 0, 0),
        Err(ReelError::BadBlock { block }) => outcomes::refused(12, block, 0),
    }
}
