//! Other names of keys.
use kx_lex::Bytes;

/// Another name of a key.
#[derive(Drop)]
pub struct Alias {
    pub name: Bytes,
    /// The key's own name.
    pub key: Bytes,
}
