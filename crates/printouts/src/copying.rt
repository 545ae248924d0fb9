// The judged lines of a worksheet, read one after another.
ghost use Rattle.std.specs.Prelude.{◌≡◌, length};
ghost use Rattle.worksheet.specs.Sheets.{judged};
ghost use Rattle.worksheet.specs.Views.{sheet};

use rows::Line;
use worksheet::Worksheet;

// Copies the judged lines to as many places.
pub(crate) fn copy_lines(from: &Worksheet, copies: &mut [Line])
    requires { length copies.old ≡ (sheet from.now).used }
    ensures { copies.new ≡ judged (sheet from.now) }
{
    for (number, copy) in copies.iter_mut().enumerate() {
        let _ = from.read(number, copy);
    }
}
