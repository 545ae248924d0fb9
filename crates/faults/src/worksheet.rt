// The faults of the worksheet's layer, to which polynomials and lent codes belong; a fault of a subject stays whole inside.
ghost use Rattle.std.specs.Prelude.{◌≡◌};
ghost use Rattle.faults.specs.Grounds.{of_worksheet};
ghost use Rattle.faults.specs.declared.worksheet.WorksheetFault.TheVariants.{Subject};

use crate::refusal::{Layer, Refusal};
use crate::subject::SubjectFault;

#[derive(Clone, Copy, PartialEq, Eq, Debug)]
pub enum WorksheetFault {
    // a term's code, or a lent code, is not below the field's order
    Code(usize),
    // the worksheet was opened under other numbers of variables, positions or codes
    OtherSetUp,
    // the worksheet is not finished
    Unfinished,
    // a monomial waits, and no lent line is unused
    NoLineLeft,
    // the number is not that of a judged line
    LineNumber,
    // a monomial has an exponent above 4,095, or a non-zero one beyond the variables
    Exponent(usize),
    // the lent codes are not as many as the stairs
    Length,
    // a fault of a subject, passed up
    Subject(SubjectFault),
}

impl From<WorksheetFault> for Refusal {
    ghost from_gives = { λ fault r. r ≡ of_worksheet fault };

    fn from(fault: WorksheetFault) -> Refusal {
        let (ground, place) = match fault {
            WorksheetFault::Code(place) => (10, place),
            WorksheetFault::OtherSetUp => (11, 0),
            WorksheetFault::Unfinished => (12, 0),
            WorksheetFault::NoLineLeft => (13, 0),
            WorksheetFault::LineNumber => (14, 0),
            WorksheetFault::Exponent(term) => (15, term),
            WorksheetFault::Length => (16, 0),
            WorksheetFault::Subject(fault) => return Refusal::from(fault),
        };
        Refusal {
            ground,
            place,
            layer: Layer::Worksheet,
        }
    }
}

impl From<SubjectFault> for WorksheetFault {
    ghost from_gives = { λ fault r. r ≡ Subject fault };

    fn from(below: SubjectFault) -> WorksheetFault {
        WorksheetFault::Subject(below)
    }
}
