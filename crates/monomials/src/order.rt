// Monomial orders.
ghost use Rattle.std.specs.Prelude.{◌≡◌};
ghost use Rattle.monomials.specs.Monomials.{mono};
ghost use Rattle.monomials.specs.Orders.{Order, OrderLaws};

use crate::monomial::Monomial;
use std::cmp::Ordering;

// Says of two monomials whether the first is before the second, the same, or after.
pub trait MonomialOrder {
    // What the order means, over exponents of any size.
    ghost order: { Self → Order };

    fn compare(&self, a: &Monomial, b: &Monomial) -> Ordering
        ensures { result ≡ order self.now (mono a.now.exponents) (mono b.now.exponents) };

    // Each order is lawful, for all sizes of exponents.
    ghost laws: { (o : Self) → OrderLaws (order o) };
}
