// Weights above any other order: the weighted sum decides, and equal sums go by the order below.
ghost use Rattle.monomials.specs.Rules.{weighted};
ghost use Rattle.monomials.specs.RulesLemmas.{weighted_laws};

use crate::monomial::Monomial;
use crate::order::MonomialOrder;
use crate::weights::Weights;
use std::cmp::Ordering;

#[derive(Clone, Copy)]
pub struct Weighted<O> {
    pub weights: Weights,
    pub below: O,
}

impl<O: MonomialOrder> MonomialOrder for Weighted<O> {
    ghost order = { λ w. weighted w.weights.weights (O.MonomialOrder.order w.below) };

    ghost laws = { λ w. weighted_laws w.weights.weights _ (O.MonomialOrder.laws w.below) };

    fn compare(&self, a: &Monomial, b: &Monomial) -> Ordering {
        self.weights
            .sum(a)
            .cmp(&self.weights.sum(b))
            .then_with(|| self.below.compare(a, b))
    }
}
