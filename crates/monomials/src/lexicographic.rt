// The lexicographic order: the leftmost exponent in which two monomials differ decides.
ghost use Rattle.std.specs.Prelude.{◌≡◌, Decides};
ghost use Rattle.std.specs.Ordering.{is_lt};
ghost use Rattle.monomials.specs.Monomials.{mono};
ghost use Rattle.monomials.specs.Rules.{lexicographic, LeftmostPositive};
ghost use Rattle.monomials.specs.RulesLemmas.{lexicographic_laws};

use crate::monomial::Monomial;
use crate::order::MonomialOrder;
use std::cmp::Ordering;

#[derive(Clone, Copy)]
pub struct Lexicographic;

// From the left, the first exponents that differ decide.
fn compare_exponents(a: [u16; 4], b: [u16; 4]) -> Ordering
    ensures { result ≡ lexicographic (mono a) (mono b) }
{
    a.cmp(&b)
}

impl MonomialOrder for Lexicographic {
    ghost order = { λ _. lexicographic };

    ghost laws = { λ _. lexicographic_laws };

    fn compare(&self, a: &Monomial, b: &Monomial) -> Ordering
        ensures meaning { result ≡ lexicographic (mono a.now.exponents) (mono b.now.exponents) }
        ensures leftmost { Decides (is_lt result) (LeftmostPositive (mono a.now.exponents) (mono b.now.exponents)) }
    {
        compare_exponents(a.exponents, b.exponents)
    }
}
