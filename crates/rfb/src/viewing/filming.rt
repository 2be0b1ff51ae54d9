//! A watcher that writes the picture of a viewer after each update.

ghost use Rattle.std.specs.Prelude.{◌≡◌, None};
ghost use Rattle.rfb.specs.Film.{Films};

use crate::explain::Telling;
use crate::fault::Fault;
use crate::play::write_picture;
use crate::viewing::pace::Pace;
use rfb_session::Watcher;
use rfb_viewer::Viewer;
use std::cell::Cell;
use std::io::Write;
use std::time::Clock;

/// Writes the picture of a viewer after each update, and then waits until the next may be asked
/// for: what a server draws meanwhile comes as one. Once a write fails nothing more is written, and
/// a flag is set, by which an engine ends.
#[derive(Drop)]
pub struct Filming<'a, W, C, N> {
    output: &'a mut W,
    // Why a write failed, if one did.
    fault: Option<Fault>,
    is_cut: &'a Cell<bool>,
    clock: &'a C,
    pace: Pace,
    // After so many updates no more is asked for.
    most: u32,
    telling: &'a mut Telling<N>,
}

impl<'a, W, C, N> Filming<'a, W, C, N> {
    ghost use Rattle.rfb.specs.Explain.{updates_told};
    ghost use Rattle.rfb.specs.Film.{cut_of, film_name, filmed_on, told_of};

    /// Nothing was written yet.
    pub fn new(
        output: &'a mut W,
        is_cut: &'a Cell<bool>,
        clock: &'a C,
        pace: Pace,
        most: u32,
        telling: &'a mut Telling<N>,
    ) -> Filming<'a, W, C, N>
        ensures name { film_name result ≡ output.entry.ghost_name }
        ensures output { filmed_on result ≡ output.old }
        ensures whole { cut_of result ≡ None }
        ensures telling { told_of result ≡ telling.old }
    {
        Filming {
            output,
            fault: None,
            is_cut,
            clock,
            pace,
            most,
            telling,
        }
    }

    /// Why a write failed, if one did.
    pub fn fault(&self) -> Option<Fault>
        ensures { result ≡ cut_of self.now }
    {
        self.fault
    }

    /// How many updates ended, as many as a `u64` has.
    pub fn updates(&self) -> u64
        ensures { result ≡ updates_told (told_of self.now) }
    {
        self.telling.updates()
    }
}

impl<W: Write, C: Clock, N: Write> Watcher for Filming<'_, W, C, N> {
    ghost steps = { Films W.contents };

    fn ready(&mut self, width: u16, height: u16, name: &[u8]) {
        self.telling.ready(width, height, name);
    }

    fn updated(&mut self, viewer: &Viewer) {
        self.telling.updated(viewer);
        if self.fault.is_some() {
            return;
        }
        self.pace.mark(self.clock);
        if let Err(fault) = write_picture(viewer, self.output) {
            self.fault = Some(fault);
            self.is_cut.set(true);
            return;
        }
        if self.telling.updates() < u64::from(self.most) {
            self.pace.rest(self.clock);
        }
    }
}
