// A pattern worked out under the field and the order that its numbers name.
ghost use Rattle.std.specs.Prelude.{unwrap_or};
ghost use Rattle.linked.specs.Works.{Works, Orders, Listed, Fields};

use crate::pattern::Pattern;
use crate::question::Question;
use fields::{Binary, Field, ListedField, Residue};
use monomials::{Graded, Lexicographic, MonomialOrder};
use rows::Line;
use subjects::PeriodicArray;
use worksheet::{Ending, Worksheet};

// How many lines are lent to the worksheet.
const LENT_LINES: usize = 193;

// Works the pattern out, and asks the question.
fn work_out<F: Field, O: MonomialOrder, Q: Question>(
    field: &F,
    order: &O,
    pattern: &Pattern,
    question: &Q,
    out: &mut [u16],
) -> Option<usize>
    ensures { Works (F.Field.arithmetic field.now) (O.MonomialOrder.order order.now) pattern.now.periods.now pattern.now.cells.now (Q.Question.answers question.now) out.old (unwrap_or result 0) out.new }
{
    let array = match PeriodicArray::new(field, pattern.periods, pattern.cells) {
        Ok(array) => array,
        Err(_fault) => return None,
    };
    let mut lines = [Line::unused(); LENT_LINES];
    let mut sheet = Worksheet::open(&array, field, &mut lines);
    match sheet.run(&array, field, order) {
        Ok(ran) => match ran.ending {
            Ending::Finished => question.answer(&sheet, &array, field, out),
            Ending::Full => None,
        },
        Err(_) => None,
    }
}

// Under the order of the number.
fn under_order<F: Field, Q: Question>(
    field: &F,
    pattern: &Pattern,
    question: &Q,
    out: &mut [u16],
) -> Option<usize>
    ensures { Orders (F.Field.arithmetic field.now) pattern.now.order pattern.now.periods.now pattern.now.cells.now (Q.Question.answers question.now) out.old (unwrap_or result 0) out.new }
{
    match pattern.order {
        0 => work_out(field, &Lexicographic, pattern, question, out),
        1 => work_out(field, &Graded, pattern, question, out),
        _ => None,
    }
}

// Under the field of the size, of one kind of field.
fn under_size<F: ListedField + Drop, Q: Question>(
    pattern: &Pattern,
    question: &Q,
    out: &mut [u16],
) -> Option<usize>
    ensures { Listed (F.ListedField.listed pattern.now.size) (F.ListedField.named pattern.now.size) pattern.now.order pattern.now.periods.now pattern.now.cells.now (Q.Question.answers question.now) out.old (unwrap_or result 0) out.new }
{
    match F::new(pattern.size) {
        Ok(field) => under_order(&field, pattern, question, out),
        Err(_) => None,
    }
}

// Under the field of the kind and the size.
pub(crate) fn under_field<Q: Question>(
    pattern: &Pattern,
    question: &Q,
    out: &mut [u16],
) -> Option<usize>
    ensures { Fields pattern.now.kind pattern.now.size pattern.now.order pattern.now.periods.now pattern.now.cells.now (Q.Question.answers question.now) out.old (unwrap_or result 0) out.new }
{
    match pattern.kind {
        0 => under_size::<Residue, Q>(pattern, question, out),
        1 => under_size::<Binary, Q>(pattern, question, out),
        _ => None,
    }
}
