// The remainder of a polynomial.
ghost use Rattle.worksheet.specs.Questions.{Leaves};
ghost use Rattle.worksheet.specs.Views.{sheet};

use crate::worksheet::Worksheet;
use elimination::remainder_codes;
use faults::WorksheetFault;
use fields::Field;
use polynomials::{Term, first_code_outside, first_exponent_outside};
use subjects::Subject;

impl<'a> Worksheet<'a> {
    // Writes to the lent codes, one for each stair, the combination of stairs that differs from the polynomial by an annihilator.
    pub fn remainder<S: Subject, F: Field>(
        &self,
        subject: &S,
        field: &F,
        terms: &[Term],
        codes: &mut [u16],
    ) -> Result<(), WorksheetFault>
        ensures { Leaves (S.Subject.meaning subject.now) (F.Field.arithmetic field.now) terms.now (sheet self.now) codes.old result codes.new }
    {
        if let Some(term) = first_code_outside(field, terms) {
            return Err(WorksheetFault::Code(term));
        }
        if !self.fits(subject, field) {
            return Err(WorksheetFault::OtherSetUp);
        }
        if !self.is_done() {
            return Err(WorksheetFault::Unfinished);
        }
        if let Some(term) = first_exponent_outside(terms, self.variables) {
            return Err(WorksheetFault::Exponent(term));
        }
        if codes.len() != self.stairs() {
            return Err(WorksheetFault::Length);
        }
        remainder_codes(subject, field, self.judged(), terms, codes);
        Ok(())
    }
}
