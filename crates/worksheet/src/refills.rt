// Refilling from codes on the staircase.
ghost use Rattle.monomials.specs.Monomials.{mono};
ghost use Rattle.worksheet.specs.Questions.{Refills};
ghost use Rattle.worksheet.specs.Views.{sheet};

use crate::worksheet::Worksheet;
use faults::WorksheetFault;
use fields::{Field, first_outside};
use monomials::Monomial;
use polynomials::is_admitted;
use refilling::refill_code;

impl<'a> Worksheet<'a> {
    // The code at the monomial of the one infinite array that obeys every relation at every offset and has these codes on the staircase.
    pub fn refill<F: Field>(
        &self,
        field: &F,
        codes: &[u16],
        monomial: &Monomial,
    ) -> Result<u16, WorksheetFault>
        ensures { Refills (F.Field.arithmetic field.now) codes.now (mono monomial.now.exponents) (sheet self.now) result }
    {
        if let Some(code) = first_outside(field, codes) {
            return Err(WorksheetFault::Code(code));
        }
        if field.order() != self.order {
            return Err(WorksheetFault::OtherSetUp);
        }
        if !self.is_done() {
            return Err(WorksheetFault::Unfinished);
        }
        if !is_admitted(monomial, self.variables) {
            return Err(WorksheetFault::Exponent(0));
        }
        if codes.len() != self.stairs() {
            return Err(WorksheetFault::Length);
        }
        Ok(refill_code(field, self.variables, self.judged(), codes, monomial))
    }
}
