// Judging one monomial after another.
ghost use Rattle.worksheet.specs.Sheets.{set_up};
ghost use Rattle.worksheet.specs.Steps.{Runs};
ghost use Rattle.worksheet.specs.Views.{sheet};

use crate::answers::{Ending, Ran};
use crate::worksheet::Worksheet;
use faults::WorksheetFault;
use fields::Field;
use monomials::MonomialOrder;
use subjects::Subject;

impl<'a> Worksheet<'a> {
    // Steps until the sheet is finished or no unused line is left.
    pub fn run<S: Subject, F: Field, O: MonomialOrder>(
        &mut self,
        subject: &S,
        field: &F,
        order: &O,
    ) -> Result<Ran, WorksheetFault>
        ensures { Runs (set_up (S.Subject.meaning subject.now) (F.Field.arithmetic field.now) (O.MonomialOrder.order order.now)) (sheet self.old) result (sheet self.new) }
    {
        if !self.fits(subject, field) {
            return Err(WorksheetFault::OtherSetUp);
        }
        let start = self.used;
        loop {
            let Ok(step) = self.step(subject, field, order) else {
                return Ok(Ran {
                    judged: self.used - start,
                    ending: Ending::Full,
                });
            };
            let Some(_judged) = step else {
                return Ok(Ran {
                    judged: self.used - start,
                    ending: Ending::Finished,
                });
            };
        }
    }
}
