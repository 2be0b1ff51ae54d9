//! What `view` is asked for.

ghost use Rattle.std.specs.Prelude.{◌≤◌};

use crate::options::address::Peer;
use crate::script::Wants;

/// What `view` is asked for: a server, and what to see of it.
#[derive(Drop)]
pub struct ViewOptions<'a> {
    pub peer: Peer<'a>,
    pub sight: Sight,
}

/// What is to be seen of a server.
#[derive(Drop)]
pub struct Sight {
    pub wants: Wants,
    /// It ends after this number of updates.
    pub updates: u32,
    /// The server's bytes are written as they come, in place of the picture.
    pub is_recorded: bool,
    /// Where waiting or the server's bytes end too early, the picture of what came is written all
    /// the same.
    pub is_partial: bool,
    ghost some: { 1 ≤ updates },
}
