// The faults of arithmetic.
ghost use Rattle.std.specs.Prelude.{◌≡◌};
ghost use Rattle.faults.specs.Grounds.{of_arithmetic};

use crate::refusal::{Layer, Refusal};

#[derive(Clone, Copy, PartialEq, Eq, Debug)]
pub enum ArithmeticFault {
    // the modulus or the degree is not listed
    Unlisted,
    // a weight is above 255
    Weight(usize),
}

impl From<ArithmeticFault> for Refusal {
    ghost from_gives = { λ fault r. r ≡ of_arithmetic fault };

    fn from(fault: ArithmeticFault) -> Refusal {
        let (ground, place) = match fault {
            ArithmeticFault::Unlisted => (4, 0),
            ArithmeticFault::Weight(weight) => (5, weight),
        };
        Refusal {
            ground,
            place,
            layer: Layer::Arithmetic,
        }
    }
}
