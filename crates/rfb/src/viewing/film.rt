//! What `view --follow` is asked for.

ghost use Rattle.std.specs.Prelude.{◌≡◌, ◌≤◌, ℕ, Some};

use crate::options::address::Peer;
use crate::script::Wants;

// No more updates than these end where no number is asked for: at a thousand a second they take
// fifty days.
const ALL: u32 = u32::MAX;

/// What `view --follow` is asked for: a server, and which pictures of it.
#[derive(Drop)]
pub struct FollowOptions<'a> {
    pub peer: Peer<'a>,
    pub film: Film,
}

/// Pictures of a server, one after each update.
#[derive(Drop)]
pub struct Film {
    pub wants: Wants,
    /// If there is a number, it ends after that many updates; else with the server.
    pub updates: Option<u32>,
    /// So many times a second the server is asked, at most.
    pub rate: u16,
    ghost some: { (count : ℕ) → updates ≡ Some count → 1 ≤ count },
    ghost often: { 1 ≤ rate },
}

impl Film {
    ghost use Rattle.rfb.specs.Film.{most_of};

    /// After how many updates it ends at the latest.
    pub fn most(&self) -> u32
        ensures most { result ≡ most_of self.now.updates }
        ensures some { 1 ≤ result }
    {
        match self.updates {
            Some(count) => count,
            None => ALL,
        }
    }
}
