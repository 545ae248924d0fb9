// What can be wrong with a line.
ghost use Rattle.std.specs.Prelude.{◌≡◌, Some};
ghost use Rattle.pattern_records.specs.declared.fault.Fault.TheVariants.{Memory};
ghost use Rattle.pattern_records.specs.Messages.{message};

use crate::keyword::Keyword;
use std::alloc::{AllocError, AllocFailed};
use std::fmt;

#[derive(Debug, Drop)]
pub enum Fault {
    NotText,
    Unknown(String),
    NotNumber(String),
    Wants(Keyword),
    EarlyCells,
    EmptyPeriod,
    ManyCells,
    Memory,
}

impl From<AllocError> for Fault {
    ghost from_gives = { λ _ r. r ≡ Memory };

    fn from(_: AllocError) -> Fault {
        Fault::Memory
    }
}

impl<T: Drop> From<AllocFailed<T>> for Fault {
    ghost from_gives = { λ _ r. r ≡ Memory };

    fn from(_: AllocFailed<T>) -> Fault {
        Fault::Memory
    }
}

impl fmt::Display for Fault {
    ghost output = { λ e. Some (message e) };

    fn fmt<W: fmt::Write>(&self, f: &mut fmt::Formatter<W>) -> fmt::Result {
        match self {
            Fault::NotText => f.write_str("not UTF-8 text"),
            Fault::Unknown(word) => write!(f, "unknown word \"{word}\""),
            Fault::NotNumber(word) => write!(f, "{word} is not a number from 0 to 65535"),
            Fault::Wants(Keyword::Modulus) => f.write_str("modulus wants one number"),
            Fault::Wants(Keyword::Degree) => f.write_str("degree wants one number"),
            Fault::Wants(Keyword::Lexicographic | Keyword::Graded | Keyword::Weighted) => {
                f.write_str("order wants lexicographic, graded or weighted with four weights")
            }
            Fault::Wants(Keyword::Period) => f.write_str("period wants one to four numbers"),
            Fault::Wants(Keyword::Cells) => f.write_str("cells wants one code or more"),
            Fault::EarlyCells => f.write_str("cells come after the period"),
            Fault::EmptyPeriod => f.write_str("a period of 0 has no cells"),
            Fault::ManyCells => f.write_str("more cells than the period has"),
            Fault::Memory => f.write_str("out of memory"),
        }
    }
}
