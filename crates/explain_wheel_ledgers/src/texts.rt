//! Texts one behind the other.

ghost use Rattle.std.specs.Prelude.{◌≡◌, ◌++◌, IfOk};

use std::alloc::{AllocError, Global};

/// A text, and another one behind it. Fails only if no memory is left.
pub fn put_together(alloc: Global, front: &[u8], behind: &[u8]) -> Result<Vec<u8>, AllocError>
    ensures { IfOk result (λ all. all.items ≡ front.now ++ behind.now) }
{
    let mut all = Vec::new(alloc);
    all.extend_from_slice(front)?;
    all.extend_from_slice(behind)?;
    Ok(all)
}
