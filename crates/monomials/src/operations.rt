// The operations on monomials.
ghost use Rattle.std.specs.Prelude.{◌≡◌, Decides};
ghost use Rattle.monomials.specs.Monomials.{mono, one, degree, Divides, Within};
ghost use Rattle.monomials.specs.Operations.{ProductByVariable};

use crate::monomial::Monomial;

impl Monomial {
    // 1.
    pub fn one() -> Monomial
        ensures { mono result.exponents ≡ one }
    {
        Monomial { exponents: [0; 4] }
    }

    // The sum of the exponents.
    pub fn degree(&self) -> u32
        ensures { result ≡ degree (mono self.now.exponents) }
    {
        let [e0, e1, e2, e3] = self.exponents;
        u32::from(e0) + u32::from(e1) + u32::from(e2) + u32::from(e3)
    }

    // The product by a variable, by its number from 0.
    pub fn times_variable(&self, variable: usize) -> Option<Monomial>
        ensures { ProductByVariable (mono self.now.exponents) variable result }
    {
        if variable >= 4 {
            return None;
        }
        let mut exponents = self.exponents;
        exponents[variable] = exponents[variable].checked_add(1)?;
        Some(Monomial { exponents })
    }

    // Whether this is the other monomial.
    pub fn is_same(self, other: Monomial) -> bool
        ensures { Decides result (mono self.exponents ≡ mono other.exponents) }
    {
        self == other
    }

    // Whether this monomial divides the other.
    pub fn divides(&self, other: &Monomial) -> bool
        ensures { Decides result (Divides (mono self.now.exponents) (mono other.now.exponents)) }
    {
        let [a0, a1, a2, a3] = self.exponents;
        let [b0, b1, b2, b3] = other.exponents;
        a0 <= b0 && a1 <= b1 && a2 <= b2 && a3 <= b3
    }

    // Whether only the first variables occur, as many as given.
    pub fn is_within(&self, variables: usize) -> bool
        ensures { Decides result (Within variables (mono self.now.exponents)) }
    {
        self.exponents
            .iter()
            .skip(variables)
            .all(|exponent| *exponent == 0)
    }
}
