//! A driver whose doors are slices: what comes is brought, and what waits is taken.

ghost use Rattle.std.specs.Prelude.{⊤};

use crate::console::Note;
use crate::doors::Core;
use crate::drive::{DriveSaying, Driver, DriverSetup, Likeness, Rig, RigFault};
use crate::netpbm::Pixmap;
use arrayvec::ArrayVec;
use rfb_hello::Version;
use rfb_picture::{Picture, Rect};
use rfb_pixel::{Colour, Format};
use rfb_viewer::ViewerSetup;
use rfb_wire::Encoding;
use std::alloc::{AllocError, Global};

// The server's handshake, RFC 6143 section 7.1: ProtocolVersion, security types, SecurityResult,
// and ServerInit with a screen of 2 by 1, the format rgb888, and the name `rfb`.
pub const HANDSHAKE: &[u8] = b"RFB 003.008\n\x01\x01\0\0\0\0\0\x02\0\x01\x20\x18\0\x01\
\0\xFF\0\xFF\0\xFF\x10\x08\0\0\0\0\0\0\0\x03rfb";

// An update, section 7.6.1: one rectangle, Raw, of two black places.
pub const BLACK: &[u8] = b"\0\0\0\x01\0\0\0\0\0\x02\0\x01\0\0\0\0\0\0\0\0\0\0\0\0";

// One of the second place, which is red.
pub const RED: &[u8] = b"\0\0\0\x01\0\x01\0\0\0\x01\0\x01\0\0\0\0\0\0\xFF\0";

/// A rig whose every file is a picture of one place, red, or the text `ab`. A file that is written
/// is refused.
#[derive(Drop)]
pub struct Files {
    pub alloc: Global,
}

impl Rig for Files {
    ghost steps = { λ old step new. ⊤ };

    fn picture(&mut self, _name: &[u8]) -> Result<Pixmap, RigFault> {
        let mut places = Vec::new(self.alloc);
        if places.push(Colour::of_bytes(255, 0, 0)).is_err() {
            return Err(RigFault::NoMemory);
        }
        Ok(Pixmap {
            width: 1,
            height: 1,
            places,
        })
    }

    fn text(&mut self, _name: &[u8]) -> Result<Vec<u8>, RigFault> {
        Ok(Vec::new(self.alloc))
    }

    fn save(
        &mut self,
        _name: &[u8],
        _picture: &Picture<Colour>,
        _part: Rect,
    ) -> Result<(), RigFault> {
        Err(RigFault::NoFile)
    }

    fn keep(&mut self, _picture: &Picture<Colour>, _expected: Option<(&Pixmap, Likeness)>) {}

    fn say(&self, _saying: &DriveSaying<'_>, note: &mut Note) {
        let _ = note.try_push_str("no\n");
    }
}

/// A driver that asks in rgb888 for Raw, and whose lines have a second each.
pub fn driver_in(alloc: Global) -> Driver<Files> {
    let mut encodings = ArrayVec::new();
    encodings.push(Encoding::Raw);
    let viewer = ViewerSetup {
        format: Format::rgb888(),
        encodings,
        limit: Version::V38,
        shared: true,
        max_places: 64,
        text_limit: 64,
    };
    let setup = DriverSetup {
        viewer,
        limit: 1000,
        tells_changes: false,
    };
    Driver::new(alloc, setup, Files { alloc })
}

/// These bytes come at a door, as far as there is room.
pub fn bring<C: Core>(core: &mut C, door: usize, bytes: &[u8]) {
    let mut rest = bytes;
    for _part in 0..bytes.len() {
        let count = core.room(door).min(rest.len());
        if count == 0 {
            return;
        }
        let used = core.received(door, &rest[..count]);
        rest = &rest[used..];
    }
}

/// All that waits at a door leaves.
pub fn take<C: Core>(alloc: Global, core: &mut C, door: usize) -> Result<Vec<u8>, AllocError> {
    let mut bytes = Vec::new(alloc);
    bytes.extend_from_slice(core.to_write(door))?;
    let count = bytes.len();
    if count > 0 {
        core.written(door, count);
    }
    Ok(bytes)
}

/// A driver whose first picture is shown: what waited of that has left.
pub fn shown_in(alloc: Global) -> Result<Driver<Files>, AllocError> {
    let mut driver = driver_in(alloc);
    bring(&mut driver, 0, HANDSHAKE);
    bring(&mut driver, 0, BLACK);
    driver.turned(0);
    take(alloc, &mut driver, 0)?;
    take(alloc, &mut driver, 9)?;
    Ok(driver)
}
