// The faults of a subject; a fault of arithmetic stays whole inside.
ghost use Rattle.std.specs.Prelude.{◌≡◌};
ghost use Rattle.faults.specs.Grounds.{of_subject};
ghost use Rattle.faults.specs.declared.subject.SubjectFault.TheVariants.{Arithmetic};

use crate::arithmetic::ArithmeticFault;
use crate::refusal::{Layer, Refusal};

#[derive(Clone, Copy, PartialEq, Eq, Debug)]
pub enum SubjectFault {
    // the number of variables is not 1 to 4
    Variables,
    // a period is 0, or the product of the periods so far is above 64
    Period(usize),
    // there are no points, or more than 64
    Points,
    // the lent cells or coordinates are not as many as needed
    Count,
    // a lent cell or coordinate is not below the field's order
    Code(usize),
    // a fault of arithmetic, passed up
    Arithmetic(ArithmeticFault),
}

impl From<SubjectFault> for Refusal {
    ghost from_gives = { λ fault r. r ≡ of_subject fault };

    fn from(fault: SubjectFault) -> Refusal {
        let (ground, place) = match fault {
            SubjectFault::Variables => (6, 0),
            SubjectFault::Period(axis) => (7, axis),
            SubjectFault::Points => (7, 0),
            SubjectFault::Count => (9, 0),
            SubjectFault::Code(code) => (10, code),
            SubjectFault::Arithmetic(fault) => return Refusal::from(fault),
        };
        Refusal {
            ground,
            place,
            layer: Layer::Subject,
        }
    }
}

impl From<ArithmeticFault> for SubjectFault {
    ghost from_gives = { λ fault r. r ≡ Arithmetic fault };

    fn from(below: ArithmeticFault) -> SubjectFault {
        SubjectFault::Arithmetic(below)
    }
}
