// What cards name as people read it: parameters and kinds by their letters, sizes by their numbers.
use crate::{Format, Kind, Mode, Size};
use std::fmt;

impl fmt::Display for Mode {
    fn fmt<W: fmt::Write>(&self, f: &mut fmt::Formatter<W>) -> fmt::Result {
        f.write_str(match self {
            Mode::TC => "TC",
            Mode::TF => "TF",
            Mode::TR => "TR",
            Mode::TRF => "TRF",
        })
    }
}

impl fmt::Display for Format {
    fn fmt<W: fmt::Write>(&self, f: &mut fmt::Formatter<W>) -> fmt::Result {
        f.write_str(match self {
            Format::FF => "FF",
            Format::FV => "FV",
            Format::FU => "FU",
            Format::FS => "FS",
        })
    }
}

// The numbers of A or B, without the parentheses of a card.
impl fmt::Display for Size {
    fn fmt<W: fmt::Write>(&self, f: &mut fmt::Formatter<W>) -> fmt::Result {
        match self {
            Size::Two { n, m } => write!(f, "{n},{m}"),
            Size::One { g } => write!(f, "{g}"),
        }
    }
}

// The letter of a kind, C for a copy, which has none on a card.
impl fmt::Display for Kind {
    fn fmt<W: fmt::Write>(&self, f: &mut fmt::Formatter<W>) -> fmt::Result {
        f.write_str(match self {
            Kind::Copy => "C",
            Kind::Pack => "P",
            Kind::Unpack => "U",
        })
    }
}
