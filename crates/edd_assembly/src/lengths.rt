//! Lengths as the fields of an image hold them.

ghost use Rattle.std.specs.Prelude.{◌≡◌, IfOk};

use std::alloc::AllocError;

/// The number of so many bytes in a field of four bytes. More than that a section can't have: it is
/// refused as a growth that is too large.
pub fn narrow_length(length: usize) -> Result<u32, AllocError>
    ensures { IfOk result (λ n. n ≡ length) }
{
    match u32::try_from(length) {
        Ok(n) => Ok(n),
        Err(_) => Err(AllocError),
    }
}
