// Monomials and terms read from numbers.
ghost use Rattle.std.specs.Prelude.{◌≡◌, ◌+◌, ◌≤◌, length};
ghost use Rattle.linked.specs.Numbers.{four, term_at, TermsAt};

use monomials::Monomial;
use polynomials::Term;

// How many numbers a term takes: four exponents and a code.
const TERM_NUMBERS: usize = 5;

// The monomial of the four numbers from a place on.
pub(crate) fn monomial_at(numbers: &[u16], start: usize) -> Monomial
    requires { start + 4 ≤ length numbers.now }
    ensures { result.exponents ≡ four numbers.now start }
{
    Monomial {
        exponents: [
            numbers[start],
            numbers[start + 1],
            numbers[start + 2],
            numbers[start + 3],
        ],
    }
}

// The term of the five numbers from a place on.
fn single_term(numbers: &[u16], start: usize) -> Term
    requires { start + 5 ≤ length numbers.now }
    ensures { result ≡ term_at numbers.now start }
{
    Term {
        monomial: monomial_at(numbers, start),
        code: numbers[start + 4],
    }
}

// The 64 terms of the numbers from a place on.
pub(crate) fn terms_from(numbers: &[u16], start: usize) -> [Term; 64]
    requires { start + 320 ≤ length numbers.now }
    ensures { TermsAt numbers.now start result }
{
    std::array::from_fn(|number| single_term(numbers, start + TERM_NUMBERS * number))
}
