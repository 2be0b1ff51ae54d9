//! Worlds of each two versions, each format and each order of encodings, run by events that are
//! drawn by lot, against a plain machine of messages and places.

ghost use Rattle.std.specs.Prelude.{◌≤◌};

mod beside;
pub(crate) mod lot;
mod places;
pub(crate) mod plain;
mod queue;
mod stepping;

use super::*;
use lot::Lot;
use plain::{Making, Plain};
use rfb_hello::Version;

// Worlds of 3 versions by 3, of 3 formats, and of 28 lists of encodings.
const WORLDS: u16 = 756;

pub(crate) fn version_of(number: u16) -> Version {
    match number % 3 {
        0 => Version::V33,
        1 => Version::V37,
        _ => Version::V38,
    }
}

pub(crate) fn format_of(number: u16) -> Format {
    match number % 3 {
        0 => Format::rgb888(),
        1 => Format::rgb565(),
        _ => Format::bgr233(),
    }
}

// All encodings in one of their 24 orders, or after these one of the four alone.
pub(crate) fn encodings_of(number: u16) -> ArrayVec<Encoding, 4> {
    let mut order = [
        Encoding::Raw,
        Encoding::CopyRect,
        Encoding::Rre,
        Encoding::Hextile,
    ];
    order.swap(0, usize::from(number % 4));
    order.swap(1, usize::from(1 + number / 4 % 3));
    order.swap(2, usize::from(2 + number / 12 % 2));
    let mut encodings = ArrayVec::new();
    for encoding in order {
        if number < 24 || encodings.is_empty() {
            let _listed = encodings.try_push(encoding);
        }
    }
    encodings
}

// Whether a list has no encoding but Raw.
fn is_raw(encodings: &ArrayVec<Encoding, 4>) -> bool {
    let mut raw = true;
    for encoding in encodings.as_slice() {
        raw = raw && *encoding == Encoding::Raw;
    }
    raw
}

// A world of that number, on a screen of that size. It keeps 16 bytes of a text.
fn world_of(alloc: Global, number: u16, width: u16, height: u16) -> Result<World, AllocError>
    requires columns { (1 ≤ width) × (width ≤ 4096) }
    requires rows { (1 ≤ height) × (height ≤ 4096) }
{
    let offer = version_of(number);
    let serving = ServerSetup {
        offer,
        text_limit: 16,
        ..ServerSetup::usual(width, height, b"rfb")
    };
    let server = Server::of(alloc, serving)?;
    let viewing = ViewerSetup {
        encodings: encodings_of(number / 27),
        limit: version_of(number / 3),
        max_places: 4096,
        text_limit: 16,
        ..ViewerSetup::usual(format_of(number / 9))
    };
    World::new(alloc, server, Viewer::of(alloc, viewing))
}

// The machine of the same number.
fn plain_of(alloc: Global, number: u16, width: u16, height: u16) -> Result<Plain, AllocError> {
    let making = Making {
        width,
        height,
        version: version_of((number % 3).min(number / 3 % 3)),
        format: format_of(number / 9),
        encodings: encodings_of(number / 27),
    };
    Plain::new(alloc, &making)
}

// How many updates arrive whole in a run of `count` events; `None` where a world and the machine
// differ.
fn updates_of(alloc: Global, number: u16, count: u32) -> Result<Option<u32>, AllocError> {
    let mut lot = Lot::new(u64::from(number));
    let width = 1 + lot.up_to(19);
    let height = 1 + lot.up_to(3);
    let mut plain = plain_of(alloc, number, width, height)?;
    let mut world = world_of(alloc, number, width, height)?;
    let updates = beside::updates_of(&mut world, &mut plain, alloc, &mut lot, count);
    drop(world);
    updates
}

#[test]
fn worlds_run_as_the_plain_machine(rt: HostRuntime) -> Result<(), AllocError> {
    let mut updates = 0_u32;
    for number in 0..WORLDS {
        let whole = updates_of(rt.alloc(), number, 300)?;
        assert!(rt; whole.is_some(), "world {number}");
        updates = updates.saturating_add(whole.unwrap_or(0));
    }
    // They are no idle runs.
    assert!(rt; updates > 3000, "{updates} updates");
    Ok(())
}
