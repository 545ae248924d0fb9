// Texts made of a text for each element of a list.
ghost use Rattle.std.specs.Prelude.{◌≡◌, ℕ, List, IfOk, string_bytes};
ghost use Rattle.std.specs.Fn.{FnReturnsAt};
ghost use Rattle.std.specs.List.{flat_map};

use std::alloc::{AllocError, Global};

// The texts of the elements, one after another.
pub fn joined<T, F: Fn(&T) -> Result<String, AllocError>>(
    heap: Global,
    elements: &[T],
    text_of: F,
) -> Result<String, AllocError>
    requires { F.IsAlwaysCallable text_of }
    ensures { (spelled : T → List ℕ) →
        ((element : T) (made : _) → FnReturnsAt F.Fn text_of element made → IfOk made (λ text. string_bytes text ≡ spelled element)) →
        IfOk result (λ text. string_bytes text ≡ flat_map spelled elements.now) }
{
    let mut text = String::new(heap);
    for element in elements {
        text.push_str(text_of(element)?.as_str())?;
    }
    Ok(text)
}
