//! What a line of a hub's script says, as a value.

ghost use Rattle.std.specs.Prelude.{◌≤◌};
ghost use Rattle.rfb.specs.Few.{length_in_hub};

use rfb_session::HubEvent;

/// What a line asks of a hub.
#[derive(Drop)]
pub enum HubStep {
    /// One event.
    Event(HubEvent),
    /// Sixteen deliveries in a slot: eight times, all bytes reach its session, and then all its
    /// viewer.
    Settle(u8),
}

/// A step, and the line that asks for it, counted from 1.
#[derive(Drop)]
pub struct HubNumbered {
    pub line: u64,
    pub step: HubStep,
    ghost few: { length_in_hub step ≤ 1048576 },
}
