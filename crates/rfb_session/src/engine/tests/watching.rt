//! Who watches a viewer that is played or viewed.

ghost use Rattle.std.specs.Prelude.{◌≤◌, ⊤, IfSome};

use super::devices::Reader;
use super::streams::{CUT_TEXT, HANDSHAKE, RED_UPDATE, UPDATE};
use super::{joined, viewer_in};
use crate::engine::{EngineFault, Nowhere, Pair, Tally, Watcher, play_watched, view_watched};
use rfb_pixel::Format;
use rfb_viewer::{Viewer, ViewerFault};
use std::alloc::{AllocError, Global};

// Counts what it hears. Of the screen it notes the size and whether its name is `rfb`, and of the
// latest update how red the left place is then.
#[derive(Clone, Copy, Debug, PartialEq, Eq)]
struct Counting {
    greetings: u32,
    size: (u16, u16),
    is_named: bool,
    updates: u32,
    red: u16,
}

impl Watcher for Counting {
    ghost steps = { λ old notice new. ⊤ };

    fn ready(&mut self, width: u16, height: u16, name: &[u8]) {
        self.greetings = self.greetings.saturating_add(1);
        self.size = (width, height);
        self.is_named = name == b"rfb".as_slice();
    }

    fn updated(&mut self, viewer: &Viewer) {
        self.updates = self.updates.saturating_add(1);
        if let Some(picture) = viewer.picture() {
            if picture.width() > 0 && picture.height() > 0 {
                self.red = picture.at(0, 0).r;
            }
        }
    }
}

const NOTHING: Counting = Counting {
    greetings: 0,
    size: (0, 0),
    is_named: false,
    updates: 0,
    red: 0,
};

// What is heard of the handshake and of so many updates, after which the left place is so red.
fn heard(updates: u32, red: u16) -> Counting {
    Counting {
        greetings: 1,
        size: (2, 1),
        is_named: true,
        updates,
        red,
    }
}

// What is answered and heard where a recording is played, by reads of at most `most` bytes.
fn played(
    alloc: Global,
    bytes: &[u8],
    most: usize,
    updates: Option<u64>,
) -> (Result<u64, EngineFault>, Counting)
    requires { IfSome updates (λ count. 1 ≤ count) }
{
    let mut viewer = viewer_in(alloc, Format::rgb888());
    let mut source = Tally::new(Reader { bytes, most });
    let mut counting = NOTHING;
    let answer = play_watched(&mut source, &mut viewer, updates, &mut counting);
    drop(viewer);
    (answer, counting)
}

// The same where it comes from a server that is asked.
fn viewed(
    alloc: Global,
    bytes: &[u8],
    most: usize,
    updates: u32,
) -> (Result<u32, EngineFault>, Counting)
    requires { 1 ≤ updates }
{
    let mut viewer = viewer_in(alloc, Format::rgb888());
    let mut source = Tally::new(Reader { bytes, most });
    let mut sink = Tally::new(Vec::new(alloc));
    let mut counting = NOTHING;
    let mut wire = Pair {
        source: &mut source,
        sink: &mut sink,
    };
    let answer = view_watched(&mut wire, &mut Nowhere, &mut viewer, updates, &mut counting);
    drop(wire);
    drop(sink);
    drop(viewer);
    (answer, counting)
}

#[test]
fn the_handshake_and_each_update_are_heard_once(rt: HostRuntime) -> Result<(), AllocError> {
    let bytes = joined(rt.alloc(), &[HANDSHAKE, UPDATE, CUT_TEXT, RED_UPDATE])?;
    for most in [1, 7, 45, 4096] {
        let all = played(rt.alloc(), &bytes, most, None);
        assert_eq!(rt; all, (Ok(2), heard(2, 65535)), "reads of {most}");
        let seen = viewed(rt.alloc(), &bytes, most, 2);
        assert_eq!(rt; seen, (Ok(2), heard(2, 65535)), "reads of {most}");
    }
    Ok(())
}

#[test]
fn nothing_is_heard_past_the_last_update_that_is_asked_for(
    rt: HostRuntime,
) -> Result<(), AllocError> {
    let bytes = joined(rt.alloc(), &[HANDSHAKE, UPDATE, RED_UPDATE])?;
    let some = played(rt.alloc(), &bytes, 4096, Some(1));
    assert_eq!(rt; some, (Ok(1), heard(1, 0)));
    let seen = viewed(rt.alloc(), &bytes, 4096, 1);
    assert_eq!(rt; seen, (Ok(1), heard(1, 0)));
    Ok(())
}

#[test]
fn what_comes_before_a_fault_is_heard(rt: HostRuntime) -> Result<(), AllocError> {
    // No server's message has the type 255.
    let bytes = joined(rt.alloc(), &[HANDSHAKE, UPDATE, RED_UPDATE, b"\xFF"])?;
    let fault = EngineFault::Viewer(ViewerFault::UnknownMessage(255));
    for most in [1, 4096] {
        let all = played(rt.alloc(), &bytes, most, None);
        assert_eq!(rt; all, (Err(fault), heard(2, 65535)), "reads of {most}");
        let seen = viewed(rt.alloc(), &bytes, most, 3);
        assert_eq!(rt; seen, (Err(fault), heard(2, 65535)), "reads of {most}");
    }
    Ok(())
}

#[test]
fn what_comes_before_an_early_end_is_heard(rt: HostRuntime) -> Result<(), AllocError> {
    let bytes = joined(rt.alloc(), &[HANDSHAKE, UPDATE, RED_UPDATE])?;
    for (count, told) in [
        (44, NOTHING),
        (45, heard(0, 0)),
        (69, heard(1, 0)),
        (92, heard(1, 0)),
    ] {
        let front = &bytes.as_slice()[..count.min(bytes.len())];
        let seen = viewed(rt.alloc(), front, 4096, 2);
        assert_eq!(rt;
            seen,
            (Err(EngineFault::Truncated), told),
            "front of {count}"
        );
    }
    Ok(())
}
