//! Events.
/// What happens to a key in an event.
#[derive(Clone, Copy, Debug, PartialEq, Eq)]
pub enum Direction {
    /// The key is pressed.
    Down,
    /// The key is released.
    Up,
}

/// One event: a press or a release of a keycode.
#[derive(Clone, Copy, PartialEq, Eq)]
pub struct Event {
    /// The keycode.
    pub code: u16,
    /// Whether the key goes down or up.
    pub direction: Direction,
}
