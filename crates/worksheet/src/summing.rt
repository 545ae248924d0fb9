// The summary of a sheet, which carries what holds after any past.
ghost use Rattle.worksheet.specs.LongRun.{LongRun};
ghost use Rattle.worksheet.specs.Summaries.{Summarizes};
ghost use Rattle.worksheet.specs.Views.{sheet};

use crate::answers::Summary;
use crate::worksheet::Worksheet;
use rows::count;

impl<'a> Worksheet<'a> {
    // The lines judged, counted.
    fn counted(&self) -> Summary
        ensures { Summarizes (sheet self.now) result }
    {
        let tally = count(self.judged());
        Summary {
            judged: self.used,
            stairs: tally.stairs,
            relations: tally.relations,
            finished: self.is_done(),
        }
    }

    // How many lines are judged, how many of them are stairs and relations, and whether the sheet is finished. Whatever was
    // called before, the long-run statement holds of the sheet.
    pub fn summary(&self) -> Summary
        ensures counts { Summarizes (sheet self.now) result }
        ensures long_run { LongRun (sheet self.now) }
    {
        self.counted()
    }
}
