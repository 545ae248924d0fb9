// Images as arrays of codes: of a monomial, of a polynomial, and the first code that is not zero.
ghost use Rattle.std.specs.Prelude.{◌≡◌, ℕ, ◌<◌, ◌≤◌, ◌≢◌, MatchOption, slice_index};
ghost use Rattle.elimination.specs.Images.{Holds};
ghost use Rattle.monomials.specs.Monomials.{mono};
ghost use Rattle.polynomials.specs.Subjects.{image_of};
ghost use Rattle.polynomials.specs.Terms.{poly};

use fields::Field;
use monomials::Monomial;
use polynomials::Term;
use subjects::{Subject, polynomial_image};

// The codes at the positions below the width, and 0 from the width on.
fn row<F: Fn(usize) -> u16>(width: usize, code: F) -> [u16; 64]
    requires { F.IsAlwaysCallable code }
    ensures inside { (k : ℕ) → k < width → k < 64 → F.post code k (slice_index result k) }
    ensures past { (k : ℕ) → width ≤ k → slice_index result k ≡ 0 }
{
    std::array::from_fn(|position| { if position < width { code(position) } else { 0 } })
}

// The image of a monomial, with 0 from the width on.
pub fn image_of<S: Subject, F: Field>(subject: &S, field: &F, monomial: &Monomial) -> [u16; 64]
    ensures { Holds (S.Subject.meaning subject.now).width ((S.Subject.meaning subject.now).image (F.Field.arithmetic field.now) (mono monomial.now.exponents)) result }
{
    row(subject.width(), |position| {
        subject.image(field, monomial, position)
    })
}

// The image of a polynomial, with 0 from the width on.
pub fn polynomial_images<S: Subject, F: Field>(subject: &S, field: &F, terms: &[Term]) -> [u16; 64]
    ensures { Holds (S.Subject.meaning subject.now).width (image_of (S.Subject.meaning subject.now) (F.Field.arithmetic field.now) (poly terms.now)) result }
{
    row(subject.width(), |position| {
        polynomial_image(subject, field, terms, position)
    })
}

// The position of the first code that is not zero; none where all are zero.
pub fn first_code(image: &[u16; 64]) -> Option<usize>
    ensures { MatchOption result ((k : ℕ) → slice_index image.now k ≡ 0) (λ pivot. (pivot < 64) × (slice_index image.now pivot ≢ 0) × ((k : ℕ) → k < pivot → slice_index image.now k ≡ 0)) }
{
    image.iter().position(|code| *code != 0)
}
