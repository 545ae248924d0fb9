// Multiples of rows of codes.
ghost use Rattle.std.specs.Prelude.{min};
ghost use Rattle.elimination.specs.Clearings.{Added, Clears};

use fields::Field;

// Adds factor times the row to the target, at the places below `live` and 64.
pub fn add_multiple<F: Field>(
    field: &F,
    target: &mut [u16; 64],
    row: &[u16; 64],
    factor: u16,
    live: usize,
)
    ensures { Added (F.Field.arithmetic field.now) (min live 64) target.old row.now factor target.new }
{
    // By index: zipped with `target.iter_mut()`, the written codes are not known after the loop (`returns`).
    for k in 0..live.min(64) {
        target[k] = field.multiply_add(target[k], factor, row[k]);
    }
}

// The factor by which a row with the code `at_pivot` is added to clear the code; none where that is zero.
pub fn clearing_factor<F: Field>(field: &F, code: u16, at_pivot: u16) -> Option<u16>
    ensures { Clears (F.Field.arithmetic field.now) code at_pivot result }
{
    let inverse = field.inverse(at_pivot)?;
    Some(field.product(field.negative(code), inverse))
}
