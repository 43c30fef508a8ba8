//! Keysyms, and which are a keypad's.
ghost use Rattle.std.specs.Prelude.{◌≡◌};
ghost use Rattle.ks_core.specs.Keysym.{is_keypad};

/// The number of a symbol that a key gives, as a letter or a function.
#[derive(Clone, Copy, Debug, PartialEq, Eq, PartialOrd, Ord, Hash)]
pub struct Keysym(pub u32);

impl Keysym {
    /// Whether it is a keypad's: 0xff80 to 0xffbd.
    pub fn is_keypad(self) -> bool
        ensures { result ≡ is_keypad self.0 }
    {
        0xff80 <= self.0 && self.0 <= 0xffbd
    }
}
