// A subject: for each field and monomial it has an image, a row of codes.
ghost use Rattle.std.specs.Prelude.{◌≡◌};
ghost use Rattle.monomials.specs.Monomials.{mono};
ghost use Rattle.polynomials.specs.Subjects.{SubjectMeaning, SubjectLaws};

use fields::Field;
use monomials::Monomial;

// The most variables that a subject has.
pub const MOST_VARIABLES: usize = 4;

pub trait Subject {
    // What the subject means: its variables, its width and its images.
    ghost meaning: { Self → SubjectMeaning };

    // What each subject proves of its meaning.
    ghost laws: { (s : Self) → SubjectLaws (meaning s) };

    fn variables(&self) -> usize
        ensures { result ≡ (meaning self.now).variables };

    fn width(&self) -> usize
        ensures { result ≡ (meaning self.now).width };

    // The image's code at a position, and 0 at a position not below the width.
    fn image<F: Field>(&self, field: &F, monomial: &Monomial, position: usize) -> u16
        ensures { result ≡ (meaning self.now).image (F.Field.arithmetic field.now) (mono monomial.now.exponents) position };
}
