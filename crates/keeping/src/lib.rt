// Whether the fields of a plan leave every half byte a permitted value, and whether they keep every half byte (document 01, "Half bytes").
#![tactic(auto)]

ghost use Rattle.std.specs.Prelude.{◌≡◌, false, not, ◌&&◌, List, ℕ, ◌*◌, ◌≤◌, ◌<◌, ltb, eqb, length, get_or};
ghost use Rattle.std.specs.List.{position};
ghost use Rattle.rules.specs.Base.{every};
ghost use Rattle.rules.specs.Halves.{Source, sources as sourcesBy};
ghost use Rattle.rules.specs.Permitted.{kind_allows, permitted as permittedBy};
ghost use Rattle.rules.specs.Keeping.{occurs, missing, lost_half};
ghost use Rattle.rules.specs.Plan.{bit};
ghost use Rattle.rules.specs.Twins.{listed, lowest as lowestBy};
ghost use Rattle.rules.specs.Lent.{zone_f};
ghost use Rattle.terms.specs.Meaning.{field_of};
ghost use Rattle.rows.specs.Kept.{fields_in};
ghost use Rattle.sources.specs.Promise.{FieldInside, RowInside, AllZero, Stand};
ghost use Rattle.sources.proofs.Seen.{Seen};
ghost use Rattle.keeping.specs.Marks.{choices_of, MarkSays, Met, asking_of, permits_in, lowest_of};
ghost use Rattle.keeping.specs.Promise.{answer_of, place_below, barren_of, weighed_of};

use terms::{Field, Kind};

// A mark is the set of the values that a half may not have: 1 stands for 0 to 9, 2 for A to E, 4 for F, which stands before each unpacked digit. So 0 is any
// value, marks begin as zeros, and what two marks both permit is their or.

// All but 0 to 9.
const DIGIT_MARK: u8 = 6;

// All but A to F.
const SIGN_MARK: u8 = 1;

// All but F.
const ZONE_MARK: u8 = 3;

// So many output halves are looked at before an input half is looked for again.
const BLOCK: usize = 64;

// Refusal 10: no value of a half would do for all fields.
#[derive(Clone, Copy, Debug, PartialEq, Eq)]
pub struct Barren {
    pub half: usize,
}

// Whether a mark permits no value.
fn is_barren(mark: u8) -> bool
    ensures { result ≡ eqb (choices_of mark) 0 }
{
    mark % 8 == 7
}

// Whether a mark permits fewer than two values: of F alone there is one.
fn is_narrow(mark: u8) -> bool
    ensures { result ≡ ltb (choices_of mark) 2 }
{
    mark % 4 == 3
}

// What a field excludes in half j of its own input.
fn mark_of(f: Field, j: usize) -> u8
    requires { FieldInside 4096 4096 f }
    ensures { MarkSays result (kind_allows zone_f (field_of f).kind j) }
{
    let kind = f.kind;
    match kind {
        Kind::Copy => 0,
        Kind::Pack => {
            if j % 2 == 1 {
                DIGIT_MARK
            } else if j == 2 * f.input - 2 {
                SIGN_MARK
            } else {
                ZONE_MARK
            }
        }
        Kind::Unpack => {
            if j == 2 * f.input - 1 {
                SIGN_MARK
            } else {
                DIGIT_MARK
            }
        }
    }
}

// Of how many halves of its input a field asks something: a copy takes any value, so its halves need no walk.
#[tactic(auto, unfolding(crate::specs::Marks::asking_of))]
fn asking(f: Field) -> usize
    requires { FieldInside 4096 4096 f }
    ensures { result ≡ asking_of f.kind f.input }
{
    let kind = f.kind;
    match kind {
        Kind::Copy => 0,
        Kind::Pack | Kind::Unpack => 2 * f.input,
    }
}

// What one field adds to the marks: it goes through those halves alone of which it asks something.
fn mark_field(f: Field, marks: &mut [u8; 8192])
    requires field_inside { FieldInside 4096 4096 f }
    requires marks_len { length marks.old ≡ 8192 }
    ensures { (length marks.new ≡ 8192) × ((h : ℕ) → h < 8192 → Met f h (get_or marks.old h 0) (get_or marks.new h 0)) }
{
    let from = 2 * f.r - 2;
    for j in 0..asking(f) {
        marks[from + j] |= mark_of(f, j);
    }
}

// The marks of all fields: a half read by several must satisfy them all.
fn permitted(fields: &[u16], marks: &mut [u8; 8192])
    requires row_inside { RowInside fields.now 4096 4096 }
    requires all_zero { AllZero marks.old }
    ensures { (length marks.new ≡ 8192) × ((h : ℕ) → h < 8192 → MarkSays (get_or marks.new h 0) (permittedBy zone_f (fields_in fields.now) h)) }
{
    for k in 0..fields.len() / 5 {
        mark_field(rows::field_at(fields, k), marks);
    }
}

// Whether each half has a permitted value. A loop with one way out is compiled to look at many at once.
fn is_fruitful(marks: &[u8]) -> bool
    ensures { result ≡ every (λ (a : ℕ). not (eqb (choices_of a) 0)) marks.now }
{
    let mut good = true;
    for mark in marks {
        if is_barren(*mark) {
            good = false;
        }
    }
    good
}

// The first mark that permits no value.
fn first_barren(marks: &[u8]) -> Option<usize>
    ensures { result ≡ position (λ (a : ℕ). eqb (choices_of a) 0) marks.now }
{
    marks.iter().position(|mark| is_barren(*mark))
}

// The lowest of the 2n halves with no permitted value.
fn barren_half(marks: &[u8], n: usize) -> Option<usize>
    requires { (n ≤ 4096) × (2 * n ≤ length marks.now) }
    ensures { result ≡ place_below (2 * n) (barren_of (permits_in marks.now) n) }
{
    let marks = &marks[..2 * n];
    if is_fruitful(marks) {
        return None;
    }
    first_barren(marks)
}

// Which input halves the output halves from g up to a stop are taken from.
fn see(sources: &[u16; 8192], g: usize, stop: usize, seen: &mut [bool; 8192])
    requires bounds { (g ≤ stop) × (stop ≤ 8192) × ((i : ℕ) → i < stop → get_or sources.now i 0 ≤ 8192) }
    requires seen_before { Seen sources.now g seen.old }
    ensures { Seen sources.now stop seen.new }
{
    for i in g..stop {
        let from = sources[i] as usize;
        if 0 < from {
            seen[from - 1] = true;
        }
    }
}

// The lowest of the 2n input halves with two or more permitted values from which none of the 2m output halves is taken. The walk over the output halves goes
// on where it last stood, some at a time, so each of them is looked at once in all. A walk within a walk, left by its label with the lost place.
fn lost_half(marks: &[u8; 8192], sources: &[u16; 8192], n: usize, width: usize) -> Option<usize>
    requires { (n ≤ 4096) × (width ≤ 4096) × ((g : ℕ) → g < 2 * width → get_or sources.now g 0 ≤ 8192) }
    ensures { (ss : List Source) → length ss ≡ 2 * width → Stand sources.now ss → result ≡ place_below (2 * n) (lost_half (permits_in marks.now) ss (2 * n)) }
{
    let outputs = 2 * width;
    let mut seen = [false; 8192];
    let mut g = 0;
    'walk: {
        for h in 0..2 * n {
            if seen[h] {
                continue;
            }
            if is_narrow(marks[h]) {
                continue;
            }
            while !seen[h] {
                if outputs <= g {
                    break 'walk Some(h);
                }
                let stop = (g + BLOCK).min(outputs);
                see(sources, g, stop, &mut seen);
                g = stop;
            }
        }
        None
    }
}

// What the fields of a plan do to records of n bytes, which become m bytes: the lowest half that is lost, or none where every half is kept.
pub fn weigh(fields: &[u16], n: usize, width: usize) -> Result<Option<usize>, Barren>
    requires { RowInside fields.now n width }
    ensures { answer_of result ≡ weighed_of zone_f (fields_in fields.now) n width }
{
    let mut marks = [0u8; 8192];
    permitted(fields, &mut marks);
    if let Some(half) = barren_half(&marks, n) {
        return Err(Barren { half });
    }
    let mut taken = [0u16; 8192];
    sources::sources(fields, &mut taken);
    Ok(lost_half(&marks, &taken, n, width))
}

// The lowest value that a mark permits; 16 where it permits none, as in the rules: it stands in a lent byte, where an option would have to be unpacked at once.
fn lowest(mark: u8) -> u8
    ensures { result ≡ lowest_of mark }
{
    if mark % 2 == 0 {
        0
    } else if mark % 4 == 1 {
        10
    } else if is_barren(mark) {
        16
    } else {
        15
    }
}

// The lowest value that each half may have, for all fields: the marks, each of which gives way to its value.
// It and `missing_halves` share a loop of one line alone: one function that took what each mark gives way to as a closure would be no plainer.
pub fn lowest_halves(fields: &[u16], values: &mut [u8; 8192])
    requires row_inside { RowInside fields.now 4096 4096 }
    requires all_zero { AllZero values.old }
    ensures { values.new ≡ listed (lowestBy (permittedBy zone_f (fields_in fields.now))) 0 8192 }
{
    permitted(fields, values);
    for value in values.iter_mut() {
        *value = lowest(*value);
    }
}

// Which input halves the 2m output halves are taken from.
fn seen_halves(sources: &[u16; 8192], width: usize) -> [bool; 8192]
    requires { (width ≤ 4096) × ((g : ℕ) → g < 2 * width → get_or sources.now g 0 ≤ 8192) }
    ensures { (ss : List Source) → length ss ≡ 2 * width → Stand sources.now ss → (h : ℕ) → h < 8192 → get_or result h false ≡ occurs h ss }
{
    let mut seen = [false; 8192];
    see(sources, 0, 2 * width, &mut seen);
    seen
}

// 1 where a half has two or more permitted values and no output half is taken from it, else 0.
fn missing_mark(mark: u8, seen: bool) -> u8
    ensures { result ≡ bit (not (ltb (choices_of mark) 2) && not seen) }
{
    u8::from(!is_narrow(mark) && !seen)
}

// Which halves are missing from the output of records of n bytes, which become m bytes: 1, or 0 for the others. The marks give way to it.
pub fn missing_halves(fields: &[u16], n: usize, width: usize, halves: &mut [u8; 8192])
    requires row_inside { RowInside fields.now n width }
    requires all_zero { AllZero halves.old }
    ensures { halves.new ≡ listed (λ (h : ℕ). bit (missing (permittedBy zone_f (fields_in fields.now)) (sourcesBy zone_f width (fields_in fields.now) (2 * n)) h)) 0 8192 }
{
    permitted(fields, halves);
    let mut taken = [0u16; 8192];
    sources::sources(fields, &mut taken);
    let seen = seen_halves(&taken, width);
    for (h, half) in halves.iter_mut().enumerate() {
        *half = missing_mark(*half, seen[h]);
    }
}
