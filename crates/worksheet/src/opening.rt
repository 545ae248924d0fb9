// Opening.
ghost use Rattle.std.specs.Prelude.{◌≡◌};
ghost use Rattle.worksheet.specs.Views.{sheet};
ghost use Rattle.worksheet.specs.Steps.{opened};

use crate::lines::Lines;
use crate::worksheet::Worksheet;
use fields::Field;
use rows::Line;
use subjects::Subject;

impl<'a> Worksheet<'a> {
    // A worksheet over lent lines of any number and content, for subjects and fields with these numbers of variables, positions and codes.
    pub fn open<S: Subject, F: Field>(
        subject: &S,
        field: &F,
        lines: &'a mut [Line],
    ) -> Worksheet<'a>
        ensures { sheet result ≡ opened (S.Subject.meaning subject.now) (F.Field.arithmetic field.now) lines.old }
    {
        Worksheet {
            lent: Lines { lines },
            used: 0,
            variables: subject.variables(),
            width: subject.width(),
            order: field.order(),
        }
    }
}
