//! What is said of something that went wrong.
use std::marker::Model;

/// Lines that a person reads; seen as their bytes.
#[derive(Drop)]
pub struct Words {
    text: String,
}

impl Model for Words {
    ghost use Rattle.std.specs.Prelude.{ℕ, List, string_bytes};

    ghost Value = { List ℕ };

    ghost view = { λ w. string_bytes w.text };
}

impl Words {
    ghost use Rattle.std.specs.Prelude.{◌≡◌, string_bytes};

    /// The lines of a text.
    pub fn of(text: String) -> Words
        ensures { result ≡ string_bytes text }
    {
        Words { text }
    }

    /// Their bytes.
    pub fn as_bytes(&self) -> &[u8]
        ensures { result.now ≡ self.now }
    {
        self.text.as_bytes()
    }
}
