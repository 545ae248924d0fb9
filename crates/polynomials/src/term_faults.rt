// The faults of terms.
ghost use Rattle.std.specs.Prelude.{MatchBool};
ghost use Rattle.faults.specs.Places.{Searched};
ghost use Rattle.monomials.specs.Monomials.{mono};
ghost use Rattle.polynomials.specs.Terms.{Admitted, TermCodeFault, ExponentFault};

use crate::term::Term;
use fields::Field;
use monomials::Monomial;

// The largest exponent that a term may have.
const LARGEST_EXPONENT: u16 = 4095;

// The first term whose code is not below the field's order.
pub fn first_code_outside<F: Field>(field: &F, terms: &[Term]) -> Option<usize>
    ensures { Searched (TermCodeFault (F.Field.arithmetic field.now).order terms.now) result }
{
    for (i, term) in terms.iter().enumerate() {
        if u32::from(term.code) >= field.order() {
            return Some(i);
        }
    }
    None
}

// Whether no exponent is above the largest, nor non-zero beyond the first `variables`.
pub fn is_admitted(monomial: &Monomial, variables: usize) -> bool
    ensures { MatchBool result (Admitted variables (mono monomial.now.exponents)) (Admitted variables (mono monomial.now.exponents) → ⊥) }
{
    monomial.exponents.iter().enumerate().all(|(variable, exponent)| {
        *exponent
            <= if variable < variables {
                LARGEST_EXPONENT
            } else {
                0
            }
    })
}

// The first term whose monomial is not admitted.
pub fn first_exponent_outside(terms: &[Term], variables: usize) -> Option<usize>
    ensures { Searched (ExponentFault variables terms.now) result }
{
    for (place, term) in terms.iter().enumerate() {
        if !is_admitted(&term.monomial, variables) {
            return Some(place);
        }
    }
    None
}
