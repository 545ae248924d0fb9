// The text of lines.
ghost use Rattle.std.specs.Prelude.{◌≡◌, IfOk, string_bytes};
ghost use Rattle.listings.specs.Listings.{line_text, lines_text};

use crate::joins::joined;
use crate::numbers::spaced_first;
use rows::{Line, Verdict};
use std::alloc::{AllocError, Global};

// A line with as many exponents as there are variables, and of a relation a code for each stair.
fn line_text(
    heap: Global,
    variables: usize,
    stairs: usize,
    line: &Line,
) -> Result<String, AllocError>
    ensures { IfOk result (λ text. string_bytes text ≡ line_text variables stairs line.now) }
{
    let exponents = spaced_first(heap, &line.monomial.exponents, variables)?;
    match line.verdict {
        Verdict::Stair => format!(in heap; "stair{exponents}\n"),
        Verdict::Relation => {
            let codes = spaced_first(heap, &line.combination, stairs)?;
            format!(in heap; "rel{exponents} :{codes}\n")
        }
    }
}

// The lines one after another.
pub fn lines_text(
    heap: Global,
    variables: usize,
    stairs: usize,
    lines: &[Line],
) -> Result<String, AllocError>
    ensures { IfOk result (λ text. string_bytes text ≡ lines_text variables stairs lines.now) }
{
    joined(heap, lines, |line| line_text(heap, variables, stairs, line))
}
