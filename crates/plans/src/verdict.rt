// The verdict on what a deck asks for: refusals 8 to 10, whether the plan keeps, and else the lost place.
ghost use Rattle.std.specs.Prelude.{◌≡◌, cond, ◌*◌, ◌≤◌, length};
ghost use Rattle.rules.specs.Answer.{fine};
ghost use Rattle.terms.specs.Meaning.{format_of};
ghost use Rattle.rows.specs.Kept.{fields_in};
ghost use Rattle.combinations.specs.Promise.{AskedFair, combined_of};
ghost use Rattle.plans.specs.Verdict.{unsound_as, tail_told, SaysSome, Weighs};

use combinations::Unsound;
use keeping::Barren;
use terms::{Asked, Format};

// One of refusals 8 to 10 and its place. No byte of a card is at fault, so these have no column.
#[derive(Clone, Copy, Debug, PartialEq, Eq)]
pub(crate) struct Refused {
    pub number: usize,
    pub place: usize,
}

impl From<Unsound> for Refused {
    ghost from_gives = { λ unsound refused. refused ≡ unsound_as unsound };

    fn from(unsound: Unsound) -> Refused {
        match unsound {
            Unsound::Broken { place } => Refused { number: 8, place },
            Unsound::Outside { field } => Refused {
                number: 9,
                place: field,
            },
        }
    }
}

impl From<Barren> for Refused {
    ghost from_gives = { λ barren refused. refused ≡ record { number = 10; place = barren.half } };

    fn from(barren: Barren) -> Refused {
        Refused {
            number: 10,
            place: barren.half,
        }
    }
}

// Whether what stands past the first n bytes of a record is kept: in FV by CV, or since a block of n+8 bytes holds no more.
pub fn tail_kept(format: Format, cv: usize, n: usize, m: usize) -> bool
    requires { n ≤ 4096 }
    ensures { result ≡ tail_told (format_of format) cv n m }
{
    !terms::is_fv(format) || cv != 0 || m == n + 8
}

// The lost place of the tail where it is lost, 2n.
fn lost_tail(format: Format, cv: usize, n: usize, m: usize) -> Option<usize>
    requires { n ≤ 4096 }
    ensures { result ≡ cond (tail_told (format_of format) cv n m) None (Some (2 * n)) }
{
    if tail_kept(format, cv, n, m) {
        return None;
    }
    Some(2 * n)
}

// Where combinations and fields are right: the lowest half that is lost, or else the tail. TC and TR plans keep: they have no fields, and carry records
// unchanged.
fn by_halves(asked: Asked, fields: &[u16]) -> Result<Option<usize>, Refused>
    requires asked_fair { AskedFair asked fields.now × (length fields.now ≤ 320) }
    requires fields_value { combined_of asked (fields_in fields.now) ≡ fine tt }
    ensures { Weighs asked fields.now result }
{
    let mode = asked.mode;
    if !terms::selects(mode) {
        return Ok(None);
    }
    let input = asked.input;
    let output = asked.output;
    let n = terms::record_length(input);
    let lost = keeping::weigh(fields, n, terms::record_length(output))?;
    let format = asked.format;
    let tail = lost_tail(format, asked.cv, n, terms::block_length(input));
    Ok(lost.or(tail))
}

// Refusal 8 before 9 before 10 before the lost place, or none where the plan keeps.
pub(crate) fn weigh_plan(asked: Asked, fields: &[u16]) -> Result<Option<usize>, Refused>
    requires { SaysSome asked fields.now }
    ensures { Weighs asked fields.now result }
{
    combinations::combine(asked, fields)?;
    by_halves(asked, fields)
}
