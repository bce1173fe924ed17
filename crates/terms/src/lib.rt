// What cards name, as types that every floor above shares, and what their cases say: each floor asks it by the same function.
#![tactic(auto)]

mod shown;

ghost use Rattle.std.specs.Prelude.{◌≡◌, ◌<◌};
ghost use Rattle.rules.specs.Plan.{is_tc, selects as ruleSelects, is_ff, is_fv, is_fu, is_fs, record_length, block_length};
ghost use Rattle.rules.specs.Output.{cost as costOf};
ghost use Rattle.rules.specs.Lent.{kind_number};
ghost use Rattle.terms.specs.Meaning.{mode_of, format_of, size_of, kind_of};

// T: copy, field select, reblock, both.
#[derive(Clone, Copy)]
pub enum Mode {
    TC,
    TF,
    TR,
    TRF,
}

// F: fixed, variable, undefined, spanned.
#[derive(Clone, Copy)]
pub enum Format {
    FF,
    FV,
    FU,
    FS,
}

// A or B: (n,m) or (g).
#[derive(Clone, Copy)]
pub enum Size {
    Two { n: usize, m: usize },
    One { g: usize },
}

// A: a size, or the lengths of key and data (document 02, order 5).
#[derive(Clone, Copy)]
pub enum Input {
    Plain(Size),
    Keyed { key: usize, data: usize },
}

// The part of a record that a field reads: without a key there are data alone.
#[derive(Clone, Copy)]
pub enum Part {
    Data,
    Key,
}

// What a field does, in the order of the numbers that stand for it in a row and in a lent table.
#[derive(Clone, Copy)]
pub enum Kind {
    Copy,
    Pack,
    Unpack,
}

// A field: so many input bytes from position r on give so many output bytes from position t on; for a copy both are s. Where a record has a key, r counts
// through key and data.
#[derive(Clone, Copy)]
pub struct Field {
    pub kind: Kind,
    pub r: usize,
    pub input: usize,
    pub output: usize,
    pub t: usize,
}

// What the cards of a deck ask for beside the fields: the parameters of the U card, R being 1 where it is not given, and A being that of key and data joined;
// how long the key is, or 0; how many fields there are, which stand in a row that is lent; how many FS cards there are; the card of CV, or 0; and the first
// card with a field that is taken from the key, or 0.
#[derive(Clone, Copy)]
pub struct Asked {
    pub mode: Mode,
    pub format: Format,
    pub input: Size,
    pub output: Size,
    pub first: usize,
    pub key: usize,
    pub count: usize,
    pub fs: usize,
    pub cv: usize,
    pub keyed: usize,
}

// What a run needs of a plan, as numbers: A's n and A's m (or g), B's n as the width of an output record, B's m (or g), what a block and each record
// of it take besides the data, R, and whether CV is given.
#[derive(Clone, Copy)]
pub struct Task {
    pub mode: Mode,
    pub format: Format,
    pub n: usize,
    pub m: usize,
    pub width: usize,
    pub limit: usize,
    pub cost: usize,
    pub first: usize,
    pub carries: bool,
}

// F, the zone: what stands before each digit that is not packed.
pub const ZONE: u8 = 15;

// A field as it stands in a lent table: 0, 1 or 2 for copy, pack or unpack, 0 or 1 for one that reads data or the key, and its numbers, r as on the card and
// for a copy its size in both places.
#[repr(C)]
#[derive(Clone, Copy)]
pub struct Entry {
    pub kind: u8,
    pub part: u8,
    pub r: u16,
    pub input: u16,
    pub output: u16,
    pub t: u16,
}

// ---- what the cases say

pub fn is_tc(mode: Mode) -> bool
    ensures { result ≡ is_tc (mode_of mode) }
{
    matches!(mode, Mode::TC)
}

pub fn is_ff(format: Format) -> bool
    ensures { result ≡ is_ff (format_of format) }
{
    matches!(format, Format::FF)
}

pub fn is_fu(format: Format) -> bool
    ensures { result ≡ is_fu (format_of format) }
{
    matches!(format, Format::FU)
}

pub fn is_fv(format: Format) -> bool
    ensures { result ≡ is_fv (format_of format) }
{
    matches!(format, Format::FV)
}

// Spanned records (document 02, order 6).
pub fn is_fs(format: Format) -> bool
    ensures { result ≡ is_fs (format_of format) }
{
    matches!(format, Format::FS)
}

// TF or TRF.
pub fn selects(mode: Mode) -> bool
    ensures { result ≡ ruleSelects (mode_of mode) }
{
    matches!(mode, Mode::TF | Mode::TRF)
}

// n, or 0 where one number stands.
pub fn record_length(size: Size) -> usize
    ensures { result ≡ record_length (size_of size) }
{
    match size {
        Size::Two { n, m: _ } => n,
        Size::One { g: _ } => 0,
    }
}

// m, or the single number.
pub fn block_length(size: Size) -> usize
    ensures { result ≡ block_length (size_of size) }
{
    match size {
        Size::Two { n: _, m } => m,
        Size::One { g } => g,
    }
}

// What a block, and each of its records, takes besides the data: in FV a word of 4 bytes, which stands before them.
pub fn cost(format: Format) -> usize
    ensures { result ≡ costOf (format_of format) }
{
    match format {
        Format::FV => 4,
        Format::FF | Format::FU | Format::FS => 0,
    }
}

// The number of what a field does: 0 copy, 1 pack, 2 unpack.
pub fn kind_number(kind: Kind) -> u8
    ensures { result ≡ kind_number (kind_of kind 0 0) }
{
    kind as u8
}

// ---- numbers

// A byte as a number. It stands beside usize::from since it promises too how large the number is, which what is reckoned from it needs.
pub fn wide(byte: u8) -> usize
    ensures { (result ≡ byte) × (result < 256) }
{
    usize::from(byte)
}
