// Why a text cannot be drawn, and at which line.
ghost use Rattle.std.specs.Prelude.{◌≡◌, Some};
ghost use Rattle.show_staircase.specs.Misreadings.{ground_text, misread_text, read_error_text};
ghost use Rattle.show_staircase.specs.declared.grounds.ReadError.TheVariants.{OutOfMemory, Misread as Misreading};

use std::alloc::{AllocError, AllocFailed};
use std::error::Error;
use std::fmt;

#[derive(Clone, Copy, Debug)]
pub enum Ground {
    // the first line is not `judged` and a number
    Heading,
    // neither a stair, a relation nor the score
    Line,
    // not of two axes
    Axes,
    // an exponent is no number up to the largest that is drawn
    Exponent,
    // no monomial before the score
    Unlisted,
    // the text ends before the score
    Unended,
    // a line after the score
    Ended,
}

// What is said of the line; by hand, since no contract tells the text that a derive writes.
impl fmt::Display for Ground {
    ghost output = { λ g. Some (ground_text g) };

    fn fmt<W: fmt::Write>(&self, f: &mut fmt::Formatter<W>) -> fmt::Result {
        match self {
            Ground::Heading => write!(f, "a listing begins with `judged` and a number"),
            Ground::Line => write!(f, "neither a stair, a relation nor the score"),
            Ground::Axes => write!(f, "not of two axes"),
            Ground::Exponent => write!(f, "an exponent is no number up to 98"),
            Ground::Unlisted => write!(f, "a score with no monomial before it"),
            Ground::Unended => write!(f, "the listing ends with no score"),
            Ground::Ended => write!(f, "a line after the score"),
        }
    }
}

// The line at fault, counted from 1.
#[derive(Clone, Copy, Debug)]
pub struct Misread {
    pub line: usize,
    pub ground: Ground,
}

impl Misread {
    // The ground, at a line.
    pub fn at(line: usize, ground: Ground) -> Misread
        ensures line { result.line ≡ line }
        ensures ground { result.ground ≡ ground }
    {
        Misread { line, ground }
    }
}

impl fmt::Display for Misread {
    ghost output = { λ m. Some (misread_text m) };

    fn fmt<W: fmt::Write>(&self, f: &mut fmt::Formatter<W>) -> fmt::Result {
        write!(f, "line {}: {}", self.line, self.ground)
    }
}

impl Error for Misread {}

// Why nothing is read: no memory is left, or the text is no listing.
#[derive(Clone, Copy, Debug)]
pub enum ReadError {
    OutOfMemory,
    Misread(Misread),
}

impl fmt::Display for ReadError {
    ghost output = { λ e. Some (read_error_text e) };

    fn fmt<W: fmt::Write>(&self, f: &mut fmt::Formatter<W>) -> fmt::Result {
        match self {
            ReadError::OutOfMemory => write!(f, "memory allocation failed"),
            ReadError::Misread(misread) => write!(f, "{misread}"),
        }
    }
}

impl Error for ReadError {}

impl From<Misread> for ReadError {
    ghost from_gives = { λ misread e. e ≡ Misreading misread };

    fn from(misread: Misread) -> ReadError {
        ReadError::Misread(misread)
    }
}

impl From<AllocError> for ReadError {
    ghost from_gives = { λ _ e. e ≡ OutOfMemory };

    fn from(_error: AllocError) -> ReadError {
        ReadError::OutOfMemory
    }
}

impl<T: Drop> From<AllocFailed<T>> for ReadError {
    ghost from_gives = { λ _ e. e ≡ OutOfMemory };

    fn from(_error: AllocFailed<T>) -> ReadError {
        ReadError::OutOfMemory
    }
}
