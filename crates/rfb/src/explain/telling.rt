//! A watcher that says how a viewer goes.

ghost use Rattle.std.specs.Prelude.{◌≡◌};
ghost use Rattle.rfb.specs.Explain.{Tells};

use crate::explain::Escaped;
use rfb_session::Watcher;
use rfb_viewer::Viewer;
use std::io;
use std::io::Write;

// More bytes of a name are not printed.
const NAME_MAX: usize = 255;

/// Where a server's bytes come from.
#[derive(Clone, Copy)]
pub enum Origin {
    /// A connection, on which a read may end with the time of `--timeout`.
    Connection,
    Recording,
}

/// Says from what server a viewer's bytes come, and at each update how many have ended, if that is
/// to be said.
#[derive(Drop)]
pub struct Telling<N> {
    origin: Origin,
    notes: N,
    // Whether each update is reported.
    tells_each: bool,
    is_ready: bool,
    updates: u64,
}

impl<N> Telling<N> {
    ghost use Rattle.rfb.specs.Explain.{updates_told};

    /// Nothing was heard yet. Of a connection each update is reported.
    pub fn new(origin: Origin, notes: N) -> Telling<N> {
        Telling {
            origin,
            notes,
            tells_each: matches!(origin, Origin::Connection),
            is_ready: false,
            updates: 0,
        }
    }

    /// The same, and no update is reported.
    pub fn quiet(origin: Origin, notes: N) -> Telling<N>
        ensures { updates_told result ≡ 0 }
    {
        Telling {
            origin,
            notes,
            tells_each: false,
            is_ready: false,
            updates: 0,
        }
    }

    /// How many updates ended, as many as a `u64` has.
    pub fn updates(&self) -> u64
        ensures { result ≡ updates_told self.now }
    {
        self.updates
    }

    /// Whether the handshake was done, and how many updates ended, as many as a `u64` has.
    pub fn heard(&self) -> (bool, u64) {
        (self.is_ready, self.updates)
    }
}

impl<N: Write> Watcher for Telling<N> {
    ghost steps = { Tells };

    fn ready(&mut self, width: u16, height: u16, name: &[u8]) {
        self.is_ready = true;
        let _ = tell_screen(self.origin, width, height, name, &mut self.notes);
    }

    fn updated(&mut self, _viewer: &Viewer) {
        self.updates = self.updates.saturating_add(1);
        if self.tells_each {
            let _ = writeln!(self.notes, "rfb: updates so far: {}", self.updates);
        }
    }
}

// Says which screen the bytes show.
fn tell_screen<N: Write>(
    origin: Origin,
    width: u16,
    height: u16,
    name: &[u8],
    notes: &mut N,
) -> io::Result<()> {
    let is = match origin {
        Origin::Connection => "connected to",
        Origin::Recording => "this is a recording of",
    };
    if name.is_empty() {
        return writeln!(
            notes,
            "rfb: {is} a screen without a name, {width} by {height}"
        );
    }
    let kept = &name[..name.len().min(NAME_MAX)];
    writeln!(notes, "rfb: {is} {}, {width} by {height}", Escaped(kept))
}
