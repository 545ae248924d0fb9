// A pattern worked out on a worksheet, and what is printed of it.
ghost use Rattle.std.specs.Prelude.{◌≡◌, ◌*◌, ◌/◌, ◌≤◌, length, IfOk, string_bytes};
ghost use Rattle.polynomials.specs.Arrays.{cells_of};
ghost use Rattle.subjects.specs.ArrayGrounds.{ArrayAdmitted};
ghost use Rattle.worksheet.specs.Sheets.{judged, Done};
ghost use Rattle.worksheet.specs.Questions.{stairs_in, FitsArray};
ghost use Rattle.worksheet.specs.Views.{sheet};
ghost use Rattle.listings.specs.Listings.{listing_text};
ghost use Rattle.printouts.specs.Printouts.{lent_lines, pattern, ListsRow};

use crate::copying::copy_lines;
use faults::{Refusal, WorksheetFault};
use fields::Field;
use listings::{listing, refusal_line};
use monomials::MonomialOrder;
use rows::Line;
use std::alloc::{AllocError, Global};
use subjects::{PeriodicArray, Subject};
use worksheet::{Ending, Worksheet};

// How many lines are lent to the worksheet.
const LENT_LINES: usize = 193;

// The listing of a finished sheet.
fn finished_text(
    heap: Global,
    from: &Worksheet,
    array: &PeriodicArray,
) -> Result<String, AllocError>
    requires done { Done (sheet from.now) }
    requires fits { FitsArray array.now.periods.now (sheet from.now) }
    requires few { (sheet from.now).used ≤ lent_lines }
    ensures { IfOk result (λ text. string_bytes text ≡ listing_text (sheet from.now).used (length array.now.periods.now) (judged (sheet from.now)) (1000 * stairs_in (sheet from.now) / cells_of array.now.periods.now)) }
{
    let judged = from.summary().judged;
    // as many places as lines are lent, in fixed memory like them
    let mut copies = [Line::unused(); LENT_LINES];
    copy_lines(from, &mut copies[..judged]);
    match from.score(array) {
        Ok(score) => listing(heap, judged, array.variables(), &copies[..judged], score),
        Err(fault) => refusal_line(heap, &Refusal::from(fault)),
    }
}

// The listing of the pattern's row, or the refusal for want of a line.
pub(crate) fn work_out<F: Field, O: MonomialOrder>(
    heap: Global,
    field: &F,
    order: &O,
    periods: &[u16],
    cells: &[u16],
) -> Result<String, AllocError>
    requires { ArrayAdmitted (F.Field.arithmetic field.now).order periods.now cells.now }
    ensures { IfOk result (λ text. ListsRow (pattern (F.Field.arithmetic field.now) (O.MonomialOrder.order order.now) periods.now cells.now) (string_bytes text)) }
{
    let array = match PeriodicArray::new(field, periods, cells) {
        Ok(array) => array,
        Err(fault) => return refusal_line(heap, &Refusal::from(fault)),
    };
    let mut lines = [Line::unused(); LENT_LINES];
    let mut sheet = Worksheet::open(&array, field, &mut lines);
    match sheet.run(&array, field, order) {
        Ok(ran) => match ran.ending {
            Ending::Finished => finished_text(heap, &sheet, &array),
            Ending::Full => refusal_line(heap, &Refusal::from(WorksheetFault::NoLineLeft)),
        },
        Err(fault) => refusal_line(heap, &Refusal::from(fault)),
    }
}
