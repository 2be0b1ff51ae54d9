//! A hub that plays events from nothing.

ghost use Rattle.std.specs.Prelude.{◌≡◌, ◌≤◌, length, All, IfOk};

use crate::hub::Hub;
use crate::hub::event::HubEvent;
use crate::told::NoMemory;
use rfb_hello::Version;
use rfb_server::ServerSetup as HubSetup;
use std::alloc::Global;

// How many bytes of a text each session keeps.
const TEXT_LIMIT: u32 = 1024;

impl Hub {
    ghost use Rattle.rfb_session.specs.Hub.{HasFewHubBytes};
    ghost use Rattle.rfb_session.specs.HubSteps.{HubPlayed};

    /// A hub of version 3.8 after these events: its screen was black, and is named `rfb`. It rests
    /// on no premise but memory.
    pub fn played(
        alloc: Global,
        width: u16,
        height: u16,
        events: &[HubEvent],
    ) -> Result<Hub, NoMemory>
        requires columns { width ≤ 4096 }
        requires rows { height ≤ 4096 }
        requires few { All HasFewHubBytes events.now }
        ensures { IfOk result (λ hub. HubPlayed width height events.now hub) }
    {
        let setup = HubSetup {
            width,
            height,
            name: b"rfb",
            offer: Version::V38,
            text_limit: TEXT_LIMIT,
        };
        let mut hub = Hub::of(alloc, setup)?;
        hub.run(events)?;
        Ok(hub)
    }
}
