//! What happens to a key.

ghost use Rattle.std.specs.Prelude.{◌≡◌};
ghost use Rattle.rfb_session.specs.drive.Keys.{down, up};

/// A key, by its key symbol, goes down or up.
#[derive(Clone, Copy, Debug, Default, PartialEq, Eq)]
pub struct KeyEvent {
    /// Whether it goes down.
    pub down: bool,
    pub key: u32,
}

impl KeyEvent {
    /// It goes down.
    pub fn down(key: u32) -> KeyEvent
        ensures { result ≡ down key }
    {
        KeyEvent { down: true, key }
    }

    /// It goes up.
    pub fn up(key: u32) -> KeyEvent
        ensures { result ≡ up key }
    {
        KeyEvent { down: false, key }
    }
}
