// The offsets of the blocks of FF: as records have one length, and their outputs another, where a block ends follows by counting. Document 01, "The reel" and
// "Blocks and records".
#![tactic(auto)]

ghost use Rattle.std.specs.Prelude.{◌≡◌, true, [], ◌∷◌, ◌++◌, ◌+◌, ◌-◌, ◌≤◌, length};
ghost use Rattle.rules.specs.Halves.{over};
ghost use Rattle.rules.specs.Reel.{word, is_reel, offsets};
ghost use Rattle.rules.specs.EvenRecords.{stepped, ends_behind};
ghost use Rattle.offsets.specs.Small.{StepSmall, EndSmall, EachSmall};

// TR and TRF: blocks that are a step apart, from a place on, and where the last ends.
pub fn put_steps(step: usize, base: usize, end: usize, out: &mut [u8])
    requires step_small { StepSmall step base end }
    requires end_in_bounds { 4 + length (stepped (end - base) step base end) ≤ length out.old }
    ensures { out.new ≡ over 4 (stepped (end - base) step base end) out.old }
{
    let mut at = 4;
    for next in (base..end).step_by(step) {
        pieces::put_word(out, at, next);
        at += 4;
    }
    pieces::put_word(out, at, end);
}

// Where an input block ends behind a place, its output block ends so many outputs of w bytes behind the first as it ends records of n bytes behind the place.
// Answers the place behind the offset, or the same where there is none.
fn put_end(
    n: usize,
    w: usize,
    from: usize,
    base: usize,
    end: usize,
    at: usize,
    out: &mut [u8],
) -> usize
    requires end_small { EndSmall n w base end at }
    requires end_in_bounds { at + length (ends_behind n w from base (end ∷ [])) ≤ length out.old }
    ensures place { result ≡ at + length (ends_behind n w from base (end ∷ [])) }
    ensures offset { out.new ≡ over at (ends_behind n w from base (end ∷ [])) out.old }
{
    if end <= from {
        return at;
    }
    pieces::put_word(out, at, base + (end - from) / n * w);
    at + 4
}

// TF: a block for each input block that ends behind a place.
pub fn put_each(n: usize, w: usize, reel: &[u8], from: usize, base: usize, out: &mut [u8])
    requires reel_value { is_reel reel.now ≡ true }
    requires each_small { EachSmall n w base }
    requires reel_in_bounds { 4 + length (word base ++ ends_behind n w from base (offsets reel.now)) ≤ length out.old }
    ensures { out.new ≡ over 4 (word base ++ ends_behind n w from base (offsets reel.now)) out.old }
{
    pieces::put_word(out, 4, base);
    let count = pieces::word(reel, 0);
    let mut at = 8;
    for i in 0..count {
        let end = pieces::word(reel, 4 * i + 8);
        at = put_end(n, w, from, base, end, at, out);
    }
}
