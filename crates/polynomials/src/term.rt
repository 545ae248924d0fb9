// A term of a polynomial. A list of terms, in any order, stands for their sum; the empty list for zero.
ghost use Rattle.std.specs.Prelude.{◌≡◌};

use monomials::Monomial;

#[derive(Clone, Copy, Debug)]
pub struct Term {
    pub monomial: Monomial,
    pub code: u16,
}

impl Term {
    // The term of these exponents and this code.
    pub fn new(exponents: [u16; 4], code: u16) -> Term
        ensures { (result.monomial.exponents ≡ exponents) × (result.code ≡ code) }
    {
        Term {
            monomial: Monomial { exponents },
            code,
        }
    }
}
