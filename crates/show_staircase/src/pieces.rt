// Texts made of a piece for each number below a count.
ghost use Rattle.std.specs.Prelude.{◌≡◌, ℕ, ◌<◌, List, IfOk, string_bytes};
ghost use Rattle.show_staircase.specs.Drawings.{Spells, up_to};

use std::alloc::{AllocError, Global};

// The pieces of the numbers below a count, one after another.
pub fn up_to<F: Fn(usize) -> Result<String, AllocError>>(
    heap: Global,
    count: usize,
    piece: F,
) -> Result<String, AllocError>
    requires { (number : ℕ) → number < count → F.pre piece number }
    ensures { (spelled : ℕ → List ℕ) → Spells (F.post piece) spelled count → IfOk result (λ text. string_bytes text ≡ up_to spelled count) }
{
    let mut text = String::new(heap);
    for number in 0..count {
        text.push_str(piece(number)?.as_str())?;
    }
    Ok(text)
}
