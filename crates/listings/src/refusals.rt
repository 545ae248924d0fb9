// The line of a refusal.
ghost use Rattle.std.specs.Prelude.{◌≡◌, IfOk, string_bytes};
ghost use Rattle.listings.specs.Listings.{refusal_line};

use faults::Refusal;
use std::alloc::{AllocError, Global};

// The refusal on a line of its own.
pub fn refusal_line(heap: Global, refusal: &Refusal) -> Result<String, AllocError>
    ensures { IfOk result (λ text. string_bytes text ≡ refusal_line refusal.now) }
{
    format!(in heap; "{refusal}\n")
}
