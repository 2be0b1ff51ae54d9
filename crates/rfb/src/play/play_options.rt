//! What `play` is asked for.

ghost use Rattle.std.specs.Prelude.{◌≤◌, IfSome};
ghost use Rattle.std.proofs.Props.{props};

use rfb_pixel::Format;

/// What `play` is asked for: in which format a recording is played, and how much of it.
#[derive(Clone, Copy)]
pub struct PlayOptions {
    pub format: Format,
    /// It ends after this number of updates. Without a number, or where the recording has fewer, it
    /// ends with the recording.
    pub updates: Option<u32>,
    /// Where the recording ends too early, the picture of what it has is written all the same.
    pub is_partial: bool,
    ghost some: { IfSome updates (λ count. 1 ≤ count) } by { Prim.hlevel props },
}
