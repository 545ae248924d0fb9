// Judging the next monomial, and one after another.
ghost use Rattle.std.specs.Prelude.{◌≡◌, ◌<◌, length, Decides};
ghost use Rattle.monomials.specs.Monomials.{mono};
ghost use Rattle.rows.specs.Sheets.{Waits};
ghost use Rattle.worksheet.specs.Sheets.{judged, set_up, Fits};
ghost use Rattle.worksheet.specs.Steps.{WritesVerdict, Steps};
ghost use Rattle.worksheet.specs.Views.{sheet};

use crate::worksheet::Worksheet;
use elimination::line_of;
use faults::WorksheetFault;
use fields::Field;
use monomials::{Monomial, MonomialOrder};
use rows::Verdict;
use subjects::Subject;

impl<'a> Worksheet<'a> {
    // Whether the subject and the field have the numbers that opening noted.
    pub(crate) fn fits<S: Subject, F: Field>(&self, subject: &S, field: &F) -> bool
        ensures { Decides result (Fits (S.Subject.meaning subject.now) (F.Field.arithmetic field.now) (sheet self.now)) }
    {
        subject.variables() == self.variables
            && subject.width() == self.width
            && field.order() == self.order
    }

    // Writes the line of a monomial that waits, and answers the monomial with its verdict.
    fn judge<S: Subject, F: Field>(
        &mut self,
        subject: &S,
        field: &F,
        monomial: Monomial,
    ) -> (Monomial, Verdict)
        requires fits { Fits (S.Subject.meaning subject.now) (F.Field.arithmetic field.now) (sheet self.old) }
        requires unused { self.old.used < length self.old.lent.lines.now }
        requires waits { Waits self.old.variables (judged (sheet self.old)) (mono monomial.exponents) }
        ensures own { result.0 ≡ monomial }
        ensures written { WritesVerdict (S.Subject.meaning subject.now) (F.Field.arithmetic field.now) (sheet self.old) result.0 result.1 (sheet self.new) }
    {
        let line = line_of(subject, field, self.judged(), monomial);
        self.lent.write(self.used, line);
        // how many lines are used, and not an index of a loop
        self.used += 1;
        (line.monomial, line.verdict)
    }

    // Judges the next monomial into the first unused line, and answers it with its verdict; none where the sheet is finished.
    pub fn step<S: Subject, F: Field, O: MonomialOrder>(
        &mut self,
        subject: &S,
        field: &F,
        order: &O,
    ) -> Result<Option<(Monomial, Verdict)>, WorksheetFault>
        ensures { Steps (set_up (S.Subject.meaning subject.now) (F.Field.arithmetic field.now) (O.MonomialOrder.order order.now)) (sheet self.old) result (sheet self.new) }
    {
        if !self.fits(subject, field) {
            return Err(WorksheetFault::OtherSetUp);
        }
        let Some(monomial) = self.next_monomial(order) else {
            return Ok(None);
        };
        if self.used == self.lent.count() {
            return Err(WorksheetFault::NoLineLeft);
        }
        Ok(Some(self.judge(subject, field, monomial)))
    }
}
