//! The size of a screen, as a line gives it.

ghost use Rattle.std.specs.Prelude.{◌≤◌};

/// The word that the line of the size begins with.
pub const SCREEN: &[u8] = b"screen";

/// The size of the screen in places, each side from 1 to 4,096.
#[derive(Clone, Copy)]
pub struct Screen {
    pub width: u16,
    pub height: u16,
    ghost wide: { (1 ≤ width) × (width ≤ 4096) },
    ghost high: { (1 ≤ height) × (height ≤ 4096) },
}
