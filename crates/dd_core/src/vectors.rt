// Vectors that begin full.
ghost use Rattle.std.specs.Prelude.{◌≡◌, ℕ, Some, IfOk, slice_get};
ghost use Rattle.std.specs.Vec.{vec_len};

use std::alloc::{AllocError, Global};

/// A vector with this value at each of so many places.
pub(crate) fn filled<T: Copy>(alloc: Global, value: T, count: usize) -> Result<Vec<T>, AllocError>
    ensures len { IfOk result (λ v. vec_len v ≡ count) }
    ensures each { IfOk result (λ v. (k : ℕ) (x : T) → slice_get v.items k ≡ Some x → x ≡ value) }
{
    let mut values = Vec::new(alloc);
    values.resize(count, value)?;
    Ok(values)
}
