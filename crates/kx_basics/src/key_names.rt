//! The bytes of keys' names.
ghost use Rattle.std.specs.Prelude.{◌≡◌};
ghost use Rattle.kx_basics.specs.KeyNames.{is_key_byte};

/// Whether a key's name may have this byte.
pub fn is_key_byte(byte: u8) -> bool
    ensures { result ≡ is_key_byte byte }
{
    byte.is_ascii_graphic() && byte != b'>'
}
