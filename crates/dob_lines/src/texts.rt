// Texts of many items, one after the other.
ghost use Rattle.std.specs.Prelude.{◌≡◌, ℕ, Contains, IfOk, List, flat_map, string_bytes};

use dob_pieces::Memory;
use std::alloc::Global;

/// The texts of the items, one after the other, each as it is given for one.
pub fn joined<T: Copy, F: Fn(T) -> Result<String, Memory>>(
    alloc: Global,
    items: &[T],
    text_of: F,
) -> Result<String, Memory>
    requires { (item : T) → Contains items.now item → F.pre text_of item }
    ensures { (text : T → List ℕ)
        → ((item : T) → Contains items.now item → (given : _) → F.post text_of item given → IfOk given (λ told. string_bytes told ≡ text item))
        → IfOk result (λ told. string_bytes told ≡ flat_map text items.now) }
{
    let mut told = String::new(alloc);
    for item in items {
        let text = text_of(*item)?;
        told.push_str(text.as_str())?;
    }
    Ok(told)
}
