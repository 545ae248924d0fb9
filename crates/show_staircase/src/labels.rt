// The exponents beside and below a drawing, in two columns or on two lines: tens and units.
ghost use Rattle.std.specs.Prelude.{◌≡◌, ℕ, ◌<◌, List, IfOk, string_bytes};
ghost use Rattle.show_staircase.specs.Drawings.{Spells, tens_text, units_text, line_below, tens_line, units_line};

use crate::pieces::up_to;
use std::alloc::{AllocError, Global};

// The tens of a number, or a space where it has none.
pub fn tens(heap: Global, number: usize) -> Result<String, AllocError>
    ensures { IfOk result (λ text. string_bytes text ≡ tens_text number) }
{
    if number < 10 {
        return String::from_str(heap, " ");
    }
    let tens = number / 10;
    format!(in heap; "{tens}")
}

// The units of a number.
pub fn units(heap: Global, number: usize) -> Result<String, AllocError>
    ensures { IfOk result (λ text. string_bytes text ≡ units_text number) }
{
    let units = number % 10;
    format!(in heap; "{units}")
}

// A line with a label below each column.
fn line_below<F: Fn(usize) -> Result<String, AllocError>>(
    heap: Global,
    columns: usize,
    label: F,
) -> Result<String, AllocError>
    requires { F.IsAlwaysCallable label }
    ensures { (spelled : ℕ → List ℕ) → Spells (F.post label) spelled columns → IfOk result (λ text. string_bytes text ≡ line_below spelled columns) }
{
    let labels = up_to(heap, columns, |column| {
        let label = label(column)?;
        format!(in heap; " {label}")
    })?;
    format!(in heap; "  {labels}\n")
}

// The line of the tens below the columns; empty where no column has any.
pub fn tens_line(heap: Global, columns: usize) -> Result<String, AllocError>
    ensures { IfOk result (λ text. string_bytes text ≡ tens_line columns) }
{
    if columns <= 10 {
        return Ok(String::new(heap));
    }
    line_below(heap, columns, |column| tens(heap, column))
}

// The line of the units below the columns.
pub fn units_line(heap: Global, columns: usize) -> Result<String, AllocError>
    ensures { IfOk result (λ text. string_bytes text ≡ units_line columns) }
{
    line_below(heap, columns, |column| units(heap, column))
}
