// Equality of monomials: that of their exponents. By hand, since a derived test promises the same of lists of exponents, and not that it
// decides whether two monomials are one.
ghost use Rattle.std.specs.Prelude.{◌≡◌, Decides};
ghost use Rattle.monomials.specs.Monomials.{mono, same};
ghost use Rattle.std.specs.Cmp.Rules.{comparing};
ghost use Rattle.std.proofs.Common.{rules};
ghost use Rattle.std.specs.Cmp as Keys;

use crate::monomial::Monomial;

impl PartialEq for Monomial {
    ghost eq = { λ a b. same (mono a.exponents) (mono b.exponents) };

    ghost laws = { Keys.partial_equiv_from_equiv (Prim.search (comparing, rules)) };

    fn eq(&self, other: &Monomial) -> bool
        ensures value { result ≡ same (mono self.now.exponents) (mono other.now.exponents) }
        ensures decides { Decides result (mono self.now.exponents ≡ mono other.now.exponents) }
    {
        let [a0, a1, a2, a3] = self.exponents;
        let [b0, b1, b2, b3] = other.exponents;
        a0 == b0 && a1 == b1 && a2 == b2 && a3 == b3
    }
}

impl Eq for Monomial {
    ghost laws = { Prim.search (comparing, rules) };
}
