// From the text at the front of a slice to a value: numbers, parameters of the U card, items of the FS card.
// Document 01, "The deck". Each answer also says how many bytes were taken, or the first byte at which no continuation could be right. What a card's
// limits ask of a number is refused at the number's column (document 02, order 1), so that the answers say where the numbers begin too.
#![tactic(auto)]

ghost use Rattle.std.specs.Prelude.{◌⊎◌, ◌≡◌, true, false, ◌≤◌, ◌↔◌, IsTrue, length, get_or};
ghost use Rattle.rules.specs.Reader.{number as ruleNumber};
ghost use Rattle.rules.specs.Grammar.{size_reader, input_reader, start, kind_reader};
ghost use Rattle.rules.specs.TextParts.{number_then, size_behind, data_behind, keyed_behind, key_then, sizes_behind, field_behind};
ghost use Rattle.terms.specs.Meaning.{part_of, kind_of};
ghost use Rattle.readers.specs.Meaning.{PeekSays, MarkSays, digit_value, NumberSays, NumberFrom, first_in, second_in, SizeFrom, InputFrom, KindFrom, Sized, ParameterSays, ItemSays, ItemFrom};

use terms::{Field, Format, Input, Kind, Mode, Part, Size};

// Where a text stops: the first byte at which no continuation could be right.
#[derive(Clone, Copy)]
pub struct Stop {
    pub at: usize,
}

// What was read, and the place behind it: how many bytes it took, where it was read from the front.
#[derive(Clone, Copy)]
pub struct Found<T> {
    pub value: T,
    pub used: usize,
}

// The same of what may have two numbers, with the place where the second begins.
// Kept 0 where there is none: it is only asked for beside a value of two numbers, where no second is at 0, and an Option would be unwrapped there.
#[derive(Clone, Copy)]
pub struct Placed<T> {
    pub value: T,
    pub second: usize,
    pub used: usize,
}

// A parameter of the U card. The letters of I and O are read and ignored.
#[derive(Clone, Copy)]
pub enum UParameter {
    ModeIs(Mode),
    FormatIs(Format),
    InputIs(Input),
    OutputIs(Size),
    RewindIn,
    RewindOut,
    FirstIs(usize),
}

// The middle of an item, and the places of its two sizes (for a copy both are s).
#[derive(Clone, Copy)]
struct Middle {
    kind: Kind,
    input: usize,
    output: usize,
    first: usize,
    second: usize,
}

// Where the numbers of a field begin: r, its input size, its output size (for a copy both are s) and t.
#[derive(Clone, Copy)]
pub struct Places {
    pub r: usize,
    pub input: usize,
    pub output: usize,
    pub t: usize,
}

// An item of an FS card: a field, r counting in its part, or CV. Places count from 0 at the item's first byte, like what was taken.
#[derive(Clone, Copy)]
pub enum CardItem {
    Field {
        part: Part,
        field: Field,
        places: Places,
    },
    CV,
}

// ---- bytes

// The byte at a place.
fn peek(s: &[u8], at: usize) -> Option<u8>
    ensures { PeekSays s.now at result }
{
    s.get(at).copied()
}

// Whether a mark or letter stands at a place.
fn is_at(s: &[u8], at: usize, mark: u8) -> bool
    ensures { IsTrue result ↔ (get_or s.now at 256 ≡ mark) }
{
    s.get(at) == Some(&mark)
}

// The place behind the mark or letter that stands at a place.
fn behind(s: &[u8], at: usize, mark: u8) -> Result<usize, Stop>
    ensures { MarkSays mark at s.now result }
{
    if is_at(s, at, mark) {
        return Ok(at + 1);
    }
    Err(Stop { at })
}

// ---- numbers

// The value of the digit at a place.
fn digit(s: &[u8], at: usize) -> Option<usize>
    ensures { result ≡ digit_value (get_or s.now at 256) }
{
    match peek(s, at) {
        Some(byte @ b'0'..=b'9') => Some((byte - b'0') as usize),
        _ => None,
    }
}

// A number is 1 to 5 digits; of six or more it stops at the sixth.
fn number(s: &[u8]) -> Result<Found<usize>, Stop>
    ensures { NumberSays s.now result }
{
    let mut value: usize = 0;
    for used in 0..6 {
        let Some(next) = digit(s, used) else {
            if used == 0 {
                return Err(Stop { at: 0 });
            }
            return Ok(Found { value, used });
        };
        value = 10 * value + next;
    }
    Err(Stop { at: 5 })
}

// A number from a place on.
fn number_at(s: &[u8], from: usize) -> Result<Found<usize>, Stop>
    requires { from ≤ length s.now }
    ensures { NumberFrom ruleNumber from s.now result }
{
    match number(&s[from..]) {
        Ok(n) => {
            let used = from + n.used;
            Ok(Found {
                value: n.value,
                used,
            })
        }
        Err(stop) => {
            let at = from + stop.at;
            Err(Stop { at })
        }
    }
}

// A number from a place on, and the mark behind it.
fn number_then(s: &[u8], from: usize, mark: u8) -> Result<Found<usize>, Stop>
    requires { from ≤ length s.now }
    ensures { NumberFrom (number_then mark) from s.now result }
{
    let n = number_at(s, from)?;
    let used = behind(s, n.used, mark)?;
    Ok(Found {
        value: n.value,
        used,
    })
}

// ---- U

// `,m)` or `)` behind `(n`.
fn size_behind(s: &[u8], from: usize, n: usize) -> Result<Placed<Size>, Stop>
    requires { from ≤ length s.now }
    ensures { SizeFrom true first_in (size_behind n) from s.now result }
{
    if is_at(s, from, b')') {
        let used = from + 1;
        return Ok(Placed {
            value: Size::One { g: n },
            second: 0,
            used,
        });
    }
    let second = behind(s, from, b',')?;
    let m = number_then(s, second, b')')?;
    Ok(Placed {
        value: Size::Two { n, m: m.value },
        second,
        used: m.used,
    })
}

// `(n,m)` or `(g)`.
fn size(s: &[u8], from: usize) -> Result<Placed<Size>, Stop>
    requires { from ≤ length s.now }
    ensures { SizeFrom false second_in size_reader from s.now result }
{
    let first = behind(s, from, b'(')?;
    let n = number_at(s, first)?;
    size_behind(s, n.used, n.value)
}

// A parameter that has no second number.
fn single(value: UParameter, used: usize) -> Placed<UParameter>
    ensures { result ≡ record { value = value; second = 0; used = used } }
{
    Placed {
        value,
        second: 0,
        used,
    }
}

// `TC`, `TF`, `TR` or `TRF`: the text begins with T.
fn mode(s: &[u8]) -> Result<Placed<UParameter>, Stop>
    requires { get_or s.now 0 256 ≡ 84 }
    ensures { ParameterSays s.now result }
{
    match peek(s, 1) {
        Some(b'C') => Ok(single(UParameter::ModeIs(Mode::TC), 2)),
        Some(b'F') => Ok(single(UParameter::ModeIs(Mode::TF), 2)),
        Some(b'R') if is_at(s, 2, b'F') => Ok(single(UParameter::ModeIs(Mode::TRF), 3)),
        Some(b'R') => Ok(single(UParameter::ModeIs(Mode::TR), 2)),
        _ => Err(Stop { at: 1 }),
    }
}

// `FF`, `FV`, `FU` or `FS`: the text begins with F.
fn format(s: &[u8]) -> Result<Placed<UParameter>, Stop>
    requires { get_or s.now 0 256 ≡ 70 }
    ensures { ParameterSays s.now result }
{
    match peek(s, 1) {
        Some(b'F') => Ok(single(UParameter::FormatIs(Format::FF), 2)),
        Some(b'V') => Ok(single(UParameter::FormatIs(Format::FV), 2)),
        Some(b'U') => Ok(single(UParameter::FormatIs(Format::FU), 2)),
        Some(b'S') => Ok(single(UParameter::FormatIs(Format::FS), 2)),
        _ => Err(Stop { at: 1 }),
    }
}

// `D=l)` behind `(K=l,`.
fn data_behind(s: &[u8], from: usize, key: usize) -> Result<Placed<Input>, Stop>
    requires { from ≤ length s.now }
    ensures { InputFrom first_in (data_behind key) from s.now result }
{
    let sign = behind(s, from, b'D')?;
    let second = behind(s, sign, b'=')?;
    let data = number_then(s, second, b')')?;
    Ok(Placed {
        value: Input::Keyed {
            key,
            data: data.value,
        },
        second,
        used: data.used,
    })
}

// `=l,D=l)` behind `(K`.
fn keyed_behind(s: &[u8], from: usize) -> Result<Placed<Input>, Stop>
    requires { from ≤ length s.now }
    ensures { InputFrom second_in keyed_behind from s.now result }
{
    let first = behind(s, from, b'=')?;
    let key = number_then(s, first, b',')?;
    data_behind(s, key.used, key.value)
}

// A size, or `(K=l,D=l)`.
fn input(s: &[u8], from: usize) -> Result<Placed<Input>, Stop>
    requires { from ≤ length s.now }
    ensures { InputFrom second_in input_reader from s.now result }
{
    if is_at(s, from, b'(') && is_at(s, from + 1, b'K') {
        return keyed_behind(s, from + 2);
    }
    let given = size(s, from)?;
    Ok(Placed {
        value: Input::Plain(given.value),
        second: given.second,
        used: given.used,
    })
}

// What A says, behind `A=`.
fn input_size(s: &[u8]) -> Result<Placed<UParameter>, Stop>
    requires { (get_or s.now 0 256 ≡ 65) × (get_or s.now 1 256 ≡ 61) }
    ensures { ParameterSays s.now result }
{
    let given = input(s, 2)?;
    Ok(Placed {
        value: UParameter::InputIs(given.value),
        second: given.second,
        used: given.used,
    })
}

// What B says, behind `B=`.
fn output_size(s: &[u8]) -> Result<Placed<UParameter>, Stop>
    requires { (get_or s.now 0 256 ≡ 66) × (get_or s.now 1 256 ≡ 61) }
    ensures { ParameterSays s.now result }
{
    let given = size(s, 2)?;
    Ok(Placed {
        value: UParameter::OutputIs(given.value),
        second: given.second,
        used: given.used,
    })
}

// `A=` or `B=` and what it says: the text begins with A or B.
fn sizes(s: &[u8]) -> Result<Placed<UParameter>, Stop>
    requires { (get_or s.now 0 256 ≡ 65) ⊎ (get_or s.now 0 256 ≡ 66) }
    ensures { ParameterSays s.now result }
{
    behind(s, 1, b'=')?;
    if is_at(s, 0, b'A') {
        return input_size(s);
    }
    output_size(s)
}

// I or O and one of R, N and U: the text begins with I or O.
fn rewind(s: &[u8]) -> Result<Placed<UParameter>, Stop>
    requires { (get_or s.now 0 256 ≡ 73) ⊎ (get_or s.now 0 256 ≡ 79) }
    ensures { ParameterSays s.now result }
{
    match peek(s, 1) {
        Some(b'R' | b'N' | b'U') => {
            if is_at(s, 0, b'I') {
                return Ok(single(UParameter::RewindIn, 2));
            }
            Ok(single(UParameter::RewindOut, 2))
        }
        _ => Err(Stop { at: 1 }),
    }
}

// R and a number: the text begins with R.
fn first_record(s: &[u8]) -> Result<Placed<UParameter>, Stop>
    requires { get_or s.now 0 256 ≡ 82 }
    ensures { ParameterSays s.now result }
{
    let n = number_at(s, 1)?;
    Ok(single(UParameter::FirstIs(n.value), n.used))
}

// A parameter of the U card.
pub fn parameter(s: &[u8]) -> Result<Placed<UParameter>, Stop>
    ensures { ParameterSays s.now result }
{
    match peek(s, 0) {
        Some(b'T') => mode(s),
        Some(b'F') => format(s),
        Some(b'A' | b'B') => sizes(s),
        Some(b'I' | b'O') => rewind(s),
        Some(b'R') => first_record(s),
        _ => Err(Stop { at: 0 }),
    }
}

// ---- FS

// `,n,m)` behind the letter.
fn sizes_behind(s: &[u8], from: usize, kind: Kind) -> Result<Found<Middle>, Stop>
    requires { (from ≤ length s.now) × Sized kind }
    ensures { KindFrom (sizes_behind (kind_of kind)) from s.now result }
{
    let first = behind(s, from, b',')?;
    let n = number_then(s, first, b',')?;
    let m = number_then(s, n.used, b')')?;
    Ok(Found {
        value: Middle {
            kind,
            input: n.value,
            output: m.value,
            first,
            second: n.used,
        },
        used: m.used,
    })
}

// `s`, `(P,n,m)` or `(U,n,m)`.
fn kind(s: &[u8], from: usize) -> Result<Found<Middle>, Stop>
    requires { from ≤ length s.now }
    ensures { KindFrom kind_reader from s.now result }
{
    if is_at(s, from, b'(') {
        return match peek(s, from + 1) {
            Some(b'P') => sizes_behind(s, from + 2, Kind::Pack),
            Some(b'U') => sizes_behind(s, from + 2, Kind::Unpack),
            _ => Err(Stop { at: from + 1 }),
        };
    }
    let n = number_at(s, from)?;
    Ok(Found {
        value: Middle {
            kind: Kind::Copy,
            input: n.value,
            output: n.value,
            first: from,
            second: from,
        },
        used: n.used,
    })
}

// The middle, a comma and t, behind `r,` or `(K,r),`, where r stands at this place.
fn field_behind(
    s: &[u8],
    from: usize,
    part: Part,
    r: usize,
    place: usize,
) -> Result<Found<CardItem>, Stop>
    requires { from ≤ length s.now }
    ensures { ItemFrom (field_behind (start (part_of part) r)) from place s.now result }
{
    let middle = kind(s, from)?;
    let Middle {
        kind,
        input,
        output,
        first,
        second,
    } = middle.value;
    let last = behind(s, middle.used, b',')?;
    let t = number_at(s, last)?;
    Ok(Found {
        value: CardItem::Field {
            part,
            field: Field {
                kind,
                r,
                input,
                output,
                t: t.value,
            },
            places: Places {
                r: place,
                input: first,
                output: second,
                t: last,
            },
        },
        used: t.used,
    })
}

// `K,r),` behind `(`.
fn key_start(s: &[u8]) -> Result<Found<usize>, Stop>
    requires { 1 ≤ length s.now }
    ensures { NumberFrom key_then 1 s.now result }
{
    let comma = behind(s, 1, b'K')?;
    let first = behind(s, comma, b',')?;
    let r = number_then(s, first, b')')?;
    let used = behind(s, r.used, b',')?;
    Ok(Found {
        value: r.value,
        used,
    })
}

// A field that is taken from the key: the text begins with `(`.
fn key_field(s: &[u8]) -> Result<Found<CardItem>, Stop>
    requires { get_or s.now 0 256 ≡ 40 }
    ensures { ItemSays s.now result }
{
    let r = key_start(s)?;
    field_behind(s, r.used, Part::Key, r.value, 3)
}

// `r,s,t`, `r,(P,n,m),t`, `r,(U,n,m),t`, each also with `(K,r)` in place of r, or `CV`.
pub fn item(s: &[u8]) -> Result<Found<CardItem>, Stop>
    ensures { ItemSays s.now result }
{
    if is_at(s, 0, b'C') {
        let used = behind(s, 1, b'V')?;
        return Ok(Found {
            value: CardItem::CV,
            used,
        });
    }
    if is_at(s, 0, b'(') {
        return key_field(s);
    }
    let r = number_then(s, 0, b',')?;
    field_behind(s, r.used, Part::Data, r.value, 0)
}
