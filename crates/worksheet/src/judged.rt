// What the judged lines say.
ghost use Rattle.std.specs.Prelude.{◌≡◌, ◌≤◌, Decides};
ghost use Rattle.worksheet.specs.Sheets.{judged, Done};
ghost use Rattle.worksheet.specs.Questions.{stairs_in};
ghost use Rattle.worksheet.specs.Selections.{NextOrFinished};
ghost use Rattle.worksheet.specs.Views.{sheet};

use crate::selection::next;
use crate::worksheet::Worksheet;
use monomials::{Lexicographic, Monomial, MonomialOrder};
use rows::{Line, count};

impl<'a> Worksheet<'a> {
    // The lines judged.
    pub(crate) fn judged(&self) -> &[Line]
        ensures { result.now ≡ judged (sheet self.now) }
    {
        self.lent.front(self.used)
    }

    // The next monomial under the order; none where nothing waits.
    pub(crate) fn next_monomial<O: MonomialOrder>(&self, order: &O) -> Option<Monomial>
        ensures { NextOrFinished self.now.variables (O.MonomialOrder.order order.now) (judged (sheet self.now)) result }
    {
        next(self.judged(), self.variables, order)
    }

    // Whether nothing waits: nothing is next, under whichever order.
    pub(crate) fn is_done(&self) -> bool
        ensures { Decides result (Done (sheet self.now)) }
    {
        self.next_monomial(&Lexicographic).is_none()
    }

    // How many stairs are judged.
    pub(crate) fn stairs(&self) -> usize
        ensures is { result ≡ stairs_in (sheet self.now) }
        ensures few { result ≤ 64 }
    {
        count(self.judged()).stairs
    }
}
