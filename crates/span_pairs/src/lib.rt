// The records of two reels in FS in pairs, one after the other: the first that disagrees or lacks a partner. Document 02, order 7. TR carries records unchanged, so that
// records agree where they have the same bytes, however each reel cuts them into segments.
#![tactic(auto)]

ghost use Rattle.span_pairs.specs.Promise.{BothSpanned, SpannedApartAt};

// The number, from 1 in the output, of the first record that disagrees or lacks a partner, if one does: so many records of ours are passed over, so many are left, and
// theirs has so many others.
pub fn first_apart(
    ours: &[u8],
    passed: usize,
    count: usize,
    theirs: &[u8],
    others: usize,
) -> Option<usize>
    requires { BothSpanned ours.now passed count theirs.now others }
    ensures { SpannedApartAt ours.now passed count theirs.now others result }
{
    let mut at = segments::taken(ours, passed);
    let mut there = segments::taken(theirs, 0);
    let pairs = count.min(others);
    for number in 0..pairs {
        let mine = segments::ahead(ours, at);
        let other = segments::ahead(theirs, there);
        if mine.size != other.size || !segments::same(ours, at, theirs, there, mine.size) {
            return Some(number + 1);
        }
        at = mine.behind;
        there = other.behind;
    }
    if count == others {
        return None;
    }
    Some(pairs + 1)
}
