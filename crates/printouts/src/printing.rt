// What is printed for a file of records.
ghost use Rattle.std.specs.Prelude.{IfOk, string_bytes};
ghost use Rattle.subjects.specs.ArrayGrounds.{ArrayAdmitted};
ghost use Rattle.patterns.specs.Plans.{field_of, order_of};
ghost use Rattle.printouts.specs.Printouts.{pattern, ListsRow, Prints};

use crate::working::work_out;
use faults::Refusal;
use listings::refusal_line;
use patterns::{FieldKind, OrderKind, read};
use std::alloc::{AllocError, Global};

// The pattern worked out under its field.
fn under_field(
    heap: Global,
    field: &FieldKind,
    order: &OrderKind,
    periods: &[u16],
    cells: &[u16],
) -> Result<String, AllocError>
    requires { ArrayAdmitted (field_of field.now).order periods.now cells.now }
    ensures { IfOk result (λ text. ListsRow (pattern (field_of field.now) (order_of order.now) periods.now cells.now) (string_bytes text)) }
{
    match *field {
        FieldKind::Residues(field) => work_out(heap, &field, order, periods, cells),
        FieldKind::Binary(field) => work_out(heap, &field, order, periods, cells),
    }
}

// The printout of a file: the listing of the row of the set-up that the file means, or the line of its refusal.
pub fn printout(heap: Global, bytes: &[u8]) -> Result<String, AllocError>
    ensures { IfOk result (λ text. Prints bytes.now (string_bytes text)) }
{
    let mut cells = [0; 64];
    match read(bytes, &mut cells) {
        Ok(plan) => under_field(
            heap,
            &plan.field,
            &plan.order,
            plan.periods.as_slice(),
            &cells[..plan.width],
        ),
        Err(fault) => refusal_line(heap, &Refusal::from(fault)),
    }
}
