// Whether a polynomial annihilates a subject.
ghost use Rattle.std.specs.Prelude.{◌≡◌, Some};
ghost use Rattle.subjects.specs.Checks.{Checked, finding_text};
ghost use Rattle.polynomials.specs.Subjects.{image_of};
ghost use Rattle.polynomials.specs.Terms.{poly, monomial_of};

use crate::subject::Subject;
use faults::WorksheetFault;
use fields::Field;
use polynomials::{Term, first_code_outside, first_exponent_outside};
use std::fmt;

// What a check finds; an enum of its own and no Option, since it is printed.
#[derive(Clone, Copy, PartialEq, Eq, Debug)]
pub enum Finding {
    // the polynomial's image is zero at every position
    Holds,
    // the image is not zero at this position
    Fails(usize),
}

// A sum with one term more: its code times the image of its monomial.
fn with_term<S: Subject, F: Field>(
    subject: &S,
    field: &F,
    sum: u16,
    term: &Term,
    position: usize,
) -> u16
    ensures { result ≡ (F.Field.arithmetic field.now).sum sum ((F.Field.arithmetic field.now).product term.now.code ((S.Subject.meaning subject.now).image (F.Field.arithmetic field.now) (monomial_of term.now) position)) }
{
    let image = subject.image(field, &term.monomial, position);
    field.multiply_add(sum, term.code, image)
}

// The code of the polynomial's image at a position: the sum of the terms' codes times the images of their monomials.
pub fn polynomial_image<S: Subject, F: Field>(
    subject: &S,
    field: &F,
    terms: &[Term],
    position: usize,
) -> u16
    ensures { result ≡ image_of (S.Subject.meaning subject.now) (F.Field.arithmetic field.now) (poly terms.now) position }
{
    let mut sum = 0;
    for term in terms {
        sum = with_term(subject, field, sum, term, position);
    }
    sum
}

// Printed as `holds everywhere`, or `fails at position P`.
impl fmt::Display for Finding {
    ghost output = { λ finding. Some (finding_text finding) };

    fn fmt<W: fmt::Write>(&self, f: &mut fmt::Formatter<W>) -> fmt::Result {
        match self {
            Finding::Holds => f.write_str("holds everywhere"),
            Finding::Fails(position) => write!(f, "fails at position {position}"),
        }
    }
}

// Whether the polynomial annihilates the subject; if not, a position where its image is not zero.
pub fn check<S: Subject, F: Field>(
    subject: &S,
    field: &F,
    terms: &[Term],
) -> Result<Finding, WorksheetFault>
    ensures { Checked (S.Subject.meaning subject.now) (F.Field.arithmetic field.now) terms.now result }
{
    if let Some(term) = first_code_outside(field, terms) {
        return Err(WorksheetFault::Code(term));
    }
    if let Some(term) = first_exponent_outside(terms, subject.variables()) {
        return Err(WorksheetFault::Exponent(term));
    }
    for position in 0..subject.width() {
        if polynomial_image(subject, field, terms, position) != 0 {
            return Ok(Finding::Fails(position));
        }
    }
    Ok(Finding::Holds)
}
