//! A world that makes its ends itself.

ghost use Rattle.std.specs.Prelude.{◌≤◌, ℕ, All, IfOk};

use crate::disposal::dispose;
use crate::event::Event;
use crate::told::NoMemory;
use crate::world::World;
use arrayvec::ArrayVec;
use rfb_hello::Version;
use rfb_pixel::Format;
use rfb_server::{Server, ServerSetup};
use rfb_viewer::{Viewer, ViewerSetup};
use rfb_wire::Encoding;
use std::alloc::Global;

// How many bytes of a text each end keeps.
const TEXT_LIMIT: u32 = 1024;

// How many places of a screen the viewer admits: those of the largest one.
const MAX_PLACES: u32 = 16_777_216;

impl World {
    ghost use Rattle.rfb_session.specs.World.{HasFewBytes};
    ghost use Rattle.rfb_session.specs.Played.{Played, IsMade};

    /// A world of two ends of version 3.8 after these events: a server with a black screen that is
    /// named `rfb`, and a viewer that asks for Raw at rgb888. It rests on no premise but memory.
    pub fn played(
        alloc: Global,
        width: u16,
        height: u16,
        events: &[Event],
    ) -> Result<World, NoMemory>
        requires columns { (1 ≤ width) × (width ≤ 4096) }
        requires rows { (1 ≤ height) × (height ≤ 4096) }
        requires few { All HasFewBytes events.now }
        ensures { IfOk result (λ world. Played width height events.now world) }
    {
        let mut world = World::made(alloc, width, height)?;
        match world.run(events) {
            Ok(()) => Ok(world),
            Err(wanting) => {
                dispose(world);
                Err(wanting)
            }
        }
    }

    // Those two ends, before any event.
    fn made(alloc: Global, width: u16, height: u16) -> Result<World, NoMemory>
        requires columns { (1 ≤ width) × (width ≤ 4096) }
        requires rows { (1 ≤ height) × (height ≤ 4096) }
        ensures { IfOk result (λ world. IsMade width height world) }
    {
        let serving = ServerSetup {
            width,
            height,
            name: b"rfb",
            offer: Version::V38,
            text_limit: TEXT_LIMIT,
        };
        let server = Server::of(alloc, serving)?;
        let mut encodings = ArrayVec::new();
        encodings.push(Encoding::Raw);
        let viewing = ViewerSetup {
            format: Format::rgb888(),
            encodings,
            limit: Version::V38,
            shared: true,
            max_places: MAX_PLACES,
            text_limit: TEXT_LIMIT,
        };
        let viewer = Viewer::of(alloc, viewing);
        let world = World::new(alloc, server, viewer)?;
        Ok(world)
    }
}
