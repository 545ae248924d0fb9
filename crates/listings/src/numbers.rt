// Numbers in a line, each after a space.
ghost use Rattle.std.specs.Prelude.{◌≡◌, take, IfOk, string_bytes};
ghost use Rattle.listings.specs.Listings.{after_space, spaced};

use crate::joins::joined;
use std::alloc::{AllocError, Global};

// The first numbers, so many or all.
fn first(numbers: &[u16], count: usize) -> &[u16]
    ensures { result.now ≡ take count numbers.now }
{
    &numbers[0..count.min(numbers.len())]
}

// A number after a space.
fn after_space(heap: Global, number: u16) -> Result<String, AllocError>
    ensures { IfOk result (λ text. string_bytes text ≡ after_space number) }
{
    format!(in heap; " {number}")
}

// The first numbers, each after a space.
pub fn spaced_first(heap: Global, numbers: &[u16], count: usize) -> Result<String, AllocError>
    ensures { IfOk result (λ text. string_bytes text ≡ spaced (take count numbers.now)) }
{
    let numbers = first(numbers, count);
    joined(heap, numbers, |number| after_space(heap, *number))
}
