// Reading lines, and the score of an array.
ghost use Rattle.std.specs.Prelude.{◌≡◌, ◌*◌, ◌/◌, ◌≤◌};
ghost use Rattle.polynomials.specs.Arrays.{cells_of};
ghost use Rattle.worksheet.specs.Questions.{Reads, Scores};
ghost use Rattle.worksheet.specs.Views.{sheet};

use crate::worksheet::Worksheet;
use faults::WorksheetFault;
use rows::Line;
use subjects::{PeriodicArray, Subject};

// 1,000 times the stairs by the cells of the array's period, rounded down.
fn per_thousand(stairs: usize, array: &PeriodicArray) -> usize
    requires { stairs ≤ 64 }
    ensures { result ≡ 1000 * stairs / cells_of array.now.periods.now }
{
    1000 * stairs / array.width()
}

impl<'a> Worksheet<'a> {
    // Copies the judged line of this number to a lent place, and says whether the sheet is finished.
    pub fn read(&self, number: usize, place: &mut Line) -> Result<bool, WorksheetFault>
        ensures { Reads number (sheet self.now) place.old result place.new }
    {
        if number >= self.used {
            return Err(WorksheetFault::LineNumber);
        }
        *place = self.judged()[number];
        Ok(self.is_done())
    }

    // How many stairs there are for each thousand cells of the array's period.
    pub fn score(&self, array: &PeriodicArray) -> Result<usize, WorksheetFault>
        ensures { Scores array.now.periods.now (sheet self.now) result }
    {
        if array.variables() != self.variables || array.width() != self.width {
            return Err(WorksheetFault::OtherSetUp);
        }
        if !self.is_done() {
            return Err(WorksheetFault::Unfinished);
        }
        Ok(per_thousand(self.stairs(), array))
    }
}
