//! Who wants to know how an engine's viewer goes.

ghost use Rattle.std.specs.Prelude.{◌≡◌};
ghost use Rattle.rfb_viewer.specs.Told.{seen};
ghost use Rattle.rfb_session.specs.Watcher.{Greeted, Hears, Listening, Updated};

use rfb_viewer::{Viewer, ViewerEvent};

/// Hears how an engine's viewer goes, at once: before an answer or a request is sent for it, and
/// before the viewer is fed any more. It changes nothing of what the engine does.
pub trait Watcher {
    // What the watcher may become when it hears something.
    ghost steps: { Listening Self };

    /// The handshake is done, once. The screen has so many columns and rows, RFC 6143 section
    /// 7.3.2, and this much of its name is kept.
    fn ready(&mut self, width: u16, height: u16, name: &[u8])
        ensures { steps self.old (Greeted width height name.now) self.new };

    /// An update has ended, and this is the viewer.
    fn updated(&mut self, viewer: &Viewer)
        ensures { steps self.old (Updated viewer.now) self.new };
}

/// Nobody: a watcher that nothing changes.
#[derive(Drop)]
pub struct Unwatched;

impl Watcher for Unwatched {
    ghost steps = { λ old notice new. new ≡ old };

    fn ready(&mut self, _width: u16, _height: u16, _name: &[u8]) {}

    fn updated(&mut self, _viewer: &Viewer) {}
}

// Reports to a watcher what it hears of an event, with the viewer after that.
pub(super) fn tell<A: Watcher>(event: &Option<ViewerEvent>, viewer: &Viewer, watcher: &mut A)
    ensures { Hears A.steps (seen event.now) viewer.now watcher.old watcher.new }
{
    match event {
        Some(
            ViewerEvent::Ready {
                width,
                height,
                name,
                ..
            },
        ) => watcher.ready(*width, *height, name.as_slice()),
        Some(ViewerEvent::UpdateDone) => watcher.updated(viewer),
        Some(ViewerEvent::Reply(_))
        | Some(ViewerEvent::Bell)
        | Some(ViewerEvent::CutText { .. })
        | Some(ViewerEvent::ColourMapSkipped)
        | None => {}
    }
}
