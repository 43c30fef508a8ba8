//! Where keysyms stand.

/// A level of a group of a key.
#[derive(Clone, Copy)]
pub struct LevelPlace {
    /// The group, counted from 0.
    pub group: usize,
    /// The level, counted from 0.
    pub level: usize,
    /// The key's code.
    pub code: u16,
}

impl LevelPlace {
    ghost use Rattle.std.specs.Prelude.{◌≡◌, Some};
    ghost use Rattle.kx_keys.specs.Mapping.{earlier, is_before};

    /// Whether this place comes before another: by its group, then by its level, then by its code.
    pub fn is_before(self, other: LevelPlace) -> bool
        ensures { result ≡ is_before self other }
    {
        self.group < other.group
            || self.group == other.group
                && (self.level < other.level || self.level == other.level && self.code < other.code)
    }

    /// The earlier of the first place so far, where there is one, and this one.
    pub fn earlier(self, first: Option<LevelPlace>) -> LevelPlace
        ensures { Some result ≡ earlier first self }
    {
        match first {
            None => self,
            Some(first) => { if self.is_before(first) { self } else { first } }
        }
    }
}
