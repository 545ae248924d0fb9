// The text of a worksheet: how many lines are judged, the lines, and the score.
ghost use Rattle.std.specs.Prelude.{◌≡◌, IfOk, string_bytes};
ghost use Rattle.listings.specs.Listings.{listing_text};

use crate::lines::lines_text;
use rows::{Line, count};
use std::alloc::{AllocError, Global};

// The listing of some lines: their first exponents, as many as there are variables, and a code for each stair among them.
pub fn listing(
    heap: Global,
    judged: usize,
    variables: usize,
    lines: &[Line],
    score: usize,
) -> Result<String, AllocError>
    ensures { IfOk result (λ text. string_bytes text ≡ listing_text judged variables lines.now score) }
{
    let listed = lines_text(heap, variables, count(lines).stairs, lines)?;
    format!(in heap; "judged {judged}\n{listed}score {score}\n")
}
