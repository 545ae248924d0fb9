// The graded order: the degree decides, and equal degrees go by the lexicographic order.
ghost use Rattle.monomials.specs.Rules.{graded};
ghost use Rattle.monomials.specs.RulesLemmas.{graded_laws};

use crate::lexicographic::Lexicographic;
use crate::monomial::Monomial;
use crate::order::MonomialOrder;
use std::cmp::Ordering;

#[derive(Clone, Copy)]
pub struct Graded;

impl MonomialOrder for Graded {
    ghost order = { λ _. graded };

    ghost laws = { λ _. graded_laws };

    fn compare(&self, a: &Monomial, b: &Monomial) -> Ordering {
        a.degree()
            .cmp(&b.degree())
            .then_with(|| Lexicographic.compare(a, b))
    }
}
