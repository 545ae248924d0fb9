// What is asked of a pattern that is worked out.
ghost use Rattle.std.specs.Prelude.{ℕ, List, unwrap_or};
ghost use Rattle.fields.specs.Arithmetic.{Arithmetic};
ghost use Rattle.polynomials.specs.Subjects.{SubjectMeaning};
ghost use Rattle.worksheet.specs.Sheets.{Sheet};
ghost use Rattle.worksheet.specs.Views.{sheet as sheet_of};

use fields::Field;
use subjects::Subject;
use worksheet::Worksheet;

pub(crate) trait Question {
    // What a finished sheet answers: the numbers before, how many answers there are, the numbers after.
    ghost answers: { Self → SubjectMeaning → Arithmetic → Sheet → List ℕ → ℕ → List ℕ → Type 0 };

    // Writes the answers, and says how many there are; none where there is no room, or one of them is refused.
    fn answer<S: Subject, F: Field>(
        &self,
        sheet: &Worksheet,
        subject: &S,
        field: &F,
        out: &mut [u16],
    ) -> Option<usize>
        ensures { answers self.now (S.Subject.meaning subject.now) (F.Field.arithmetic field.now) (sheet_of sheet.now) out.old (unwrap_or result 0) out.new };
}
