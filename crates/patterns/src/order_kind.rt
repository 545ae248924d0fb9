// The order of a plan, as a monomial order.
ghost use Rattle.patterns.specs.Plans.{order_of};
ghost use Rattle.patterns.specs.PlansLemmas.{order_laws};

use crate::plan::OrderKind;
use monomials::{Graded, Lexicographic, Monomial, MonomialOrder, Weighted};
use std::cmp::Ordering;

impl MonomialOrder for OrderKind {
    ghost order = { order_of };

    ghost laws = { order_laws };

    fn compare(&self, a: &Monomial, b: &Monomial) -> Ordering {
        match *self {
            OrderKind::Lexicographic => Lexicographic.compare(a, b),
            OrderKind::Graded => Graded.compare(a, b),
            OrderKind::Weighted(weights) => {
                let below = Lexicographic;
                Weighted { weights, below }.compare(a, b)
            }
        }
    }
}
