// Codes that are lent under a field.
ghost use Rattle.std.specs.Prelude.{length};
ghost use Rattle.faults.specs.Places.{Searched};
ghost use Rattle.fields.specs.Codes.{CodeFault};

use crate::field::Field;

// The first code that is not below the field's order.
pub fn first_outside<F: Field>(field: &F, codes: &[u16]) -> Option<usize>
    ensures { Searched (CodeFault (F.Field.arithmetic field.now).order codes.now) result }
{
    codes
        .iter()
        .position(|code| u32::from(*code) >= field.order())
}
