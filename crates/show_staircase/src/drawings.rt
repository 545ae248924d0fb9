// The drawing of a listing: rows of marks from the top, and the exponents beside and below them.
ghost use Rattle.std.specs.Prelude.{◌≡◌, IfOk, Some, string_bytes};
ghost use Rattle.show_staircase.specs.Drawings.{mark_text, cell_text, row_text, greatest_exponents, drawing_text};

use crate::labels::{tens, tens_line, units, units_line};
use crate::marks::{Exponents, Listed, Mark, mark_at};
use crate::pieces::up_to;
use std::alloc::{AllocError, Global};
use std::fmt;

impl fmt::Display for Mark {
    ghost output = { λ m. Some (mark_text m) };

    fn fmt<W: fmt::Write>(&self, f: &mut fmt::Formatter<W>) -> fmt::Result {
        match self {
            Mark::Stair => write!(f, "#"),
            Mark::Lead => write!(f, "o"),
            Mark::Rest => write!(f, "."),
        }
    }
}

// A space and the mark at u^i v^j.
fn cell(heap: Global, listed: &[Listed], u: usize, v: usize) -> Result<String, AllocError>
    ensures { IfOk result (λ text. string_bytes text ≡ cell_text listed.now v u) }
{
    let mark = mark_at(listed, u, v);
    format!(in heap; " {mark}")
}

// An exponent of v, and the marks of the columns.
fn row(heap: Global, listed: &[Listed], columns: usize, v: usize) -> Result<String, AllocError>
    ensures { IfOk result (λ text. string_bytes text ≡ row_text listed.now columns v) }
{
    let tens = tens(heap, v)?;
    let units = units(heap, v)?;
    let cells = up_to(heap, columns, |u| cell(heap, listed, u, v))?;
    format!(in heap; "{tens}{units}{cells}\n")
}

// The greatest exponent of each variable; 0 where nothing is listed.
fn greatest_exponents(listed: &[Listed]) -> Exponents
    ensures { result ≡ greatest_exponents listed.now }
{
    listed.iter().fold(
        Exponents { u: 0, v: 0 },
        |greatest, monomial| Exponents {
            u: greatest.u.max(monomial.exponents.u),
            v: greatest.v.max(monomial.exponents.v),
        },
    )
}

// The whole drawing: as many columns and rows as the exponents up to one more than the greatest.
pub fn drawing(heap: Global, listed: &[Listed]) -> Result<String, AllocError>
    ensures { IfOk result (λ text. string_bytes text ≡ drawing_text listed.now) }
{
    let greatest = greatest_exponents(listed);
    let columns = greatest.u as usize + 2;
    let rows = greatest.v as usize + 2;
    let marks = up_to(
        heap,
        rows,
        |down| row(heap, listed, columns, rows - 1 - down),
    )?;
    let tens = tens_line(heap, columns)?;
    let units = units_line(heap, columns)?;
    format!(in heap;
        "{marks}{tens}{units}# stair, o lead of a relation, . any other; u to the right, v upward\n"
    )
}
