//! Files that are handed in with a source.
use kx_include::Files;
use std::alloc::AllocError;

/// Hands in a file under a name.
///
/// # Errors
/// Where a growth is refused.
pub fn hand_in(files: &mut Files, name: &str, bytes: Vec<u8>) -> Result<(), AllocError> {
    let name = Vec::from_slice(*bytes.allocator(), name.as_bytes())?;
    match files.insert(name, bytes) {
        Ok(()) => Ok(()),
        Err(_) => Err(AllocError),
    }
}
