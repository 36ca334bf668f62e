//! Room for bytes.
ghost use Rattle.std.specs.Prelude.{◌≡◌, ◌≤◌, length, take, IfOk, OnOk};

use std::alloc::{AllocError, Global};

/// Writes these bytes over the first of others.
fn write_over(bytes: &[u8], others: &mut [u8])
    requires { length bytes.now ≤ length others.old }
    ensures room { length others.new ≡ length others.old }
    ensures kept { take (length bytes.now) others.new ≡ bytes.now }
{
    others[..bytes.len()].copy_from_slice(bytes);
}

/// A copy of these bytes.
///
/// # Errors
///
/// Where an allocation failed.
pub(crate) fn copy_of(alloc: Global, bytes: &[u8]) -> Result<Vec<u8>, AllocError>
    ensures { IfOk result (λ copy. copy.items ≡ bytes.now) }
{
    bytes.to_vec(alloc)
}

/// Copies these bytes to the front of others, which have room for them then, and `size` bytes at least: to fill room takes less
/// time than to let it grow bit by bit.
///
/// # Errors
///
/// Where an allocation failed.
pub(crate) fn copy_to_front(
    bytes: &[u8],
    others: &mut Vec<u8>,
    size: usize,
) -> Result<(), AllocError>
    ensures room { OnOk result (length bytes.now ≤ length others.new.items) }
    ensures kept { OnOk result (take (length bytes.now) others.new.items ≡ bytes.now) }
{
    let len = others.len().max(bytes.len()).max(size);
    others.resize(len, 0)?;
    write_over(bytes, others);
    Ok(())
}
