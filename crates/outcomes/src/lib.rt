// What a run answers: that it is refused, or the reel that it writes; and refusal 15, the last one of every run. Document 01, "Refusal numbers".
#![tactic(auto)]

ghost use Rattle.std.specs.Prelude.{◌≡◌};
ghost use Rattle.outcomes.specs.Promise.{refused_run, housed_run};

// At most so many bytes has an output reel.
const MOST: usize = 65536;

// What a run answers: refusal, place, column, or 0 of each; the length of the output reel, and how many records and blocks are written. For 11 to 15 no byte of a
// card is at fault, so these have no column. In C it lies as it stands here.
#[repr(C)]
#[derive(Clone, Copy)]
pub struct Ran {
    pub refusal: usize,
    pub place: usize,
    pub column: usize,
    pub length: usize,
    pub records: usize,
    pub blocks: usize,
}

// A run that is refused.
pub fn refused(number: usize, place: usize, column: usize) -> Ran
    ensures { result ≡ refused_run number place column }
{
    Ran {
        refusal: number,
        place,
        column,
        length: 0,
        records: 0,
        blocks: 0,
    }
}

// Refusal 15: the output reel is longer than the lent room, or than 65,536.
#[tactic(auto, unfolding(crate::specs::Promise::housed_run))]
pub fn housed(room: usize, length: usize, records: usize, blocks: usize) -> Ran
    ensures { result ≡ housed_run room length records blocks }
{
    if length > room || length > MOST {
        return refused(15, length, 0);
    }
    Ran {
        refusal: 0,
        place: 0,
        column: 0,
        length,
        records,
        blocks,
    }
}
