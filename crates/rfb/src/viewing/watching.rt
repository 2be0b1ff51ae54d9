//! A viewer at work over a connection, and what is said of it.

ghost use Rattle.std.specs.Prelude.{◌≡◌, ◌≤◌, ℕ, IfOk, IfErr, List, Option};
ghost use Rattle.rfb.specs.View.{Saw, StopsSeeing};
ghost use Rattle.rfb_session.specs.Watcher.{EndsViewing, HearsRead};

use crate::explain::{
    Early, Heard, Hearing, Origin, Shared, Telling, Writing, tell_closed, tell_part, tell_server,
    tell_unsent,
};
use crate::viewing::Sight;
use rfb_session::{EngineFault, Pair, Sink, Tally, Watcher, view_watched};
use rfb_viewer::Viewer;
use std::cell::RefCell;
use std::io::{Read, Write};

/// Runs a viewer until the last update that is wanted has ended. What it is fed goes to a sink that
/// has not failed before. Says how it goes, and why it fails.
pub fn watch_heard<R: Read + Drop, V: Write + Drop, K: Sink, N: Write>(
    reader: R,
    writer: V,
    kept: &mut K,
    viewer: &mut Viewer,
    sight: &Sight,
    notes: &mut N,
) -> Result<u32, EngineFault>
    requires unfailed { K.failed kept.old ≡ 0 }
    ensures saw { IfOk result (λ told.
        Saw (R.remaining reader) (V.contents writer) (K.written kept.old) (K.written kept.new)
        viewer.old sight.now.updates viewer.new) }
    ensures stopped { IfErr result (λ fault.
        StopsSeeing (R.remaining reader) (V.contents writer) (K.written kept.old)
        (K.written kept.new) viewer.old sight.now.updates fault viewer.new) }
    ensures same_reference { K.reference kept.new ≡ K.reference kept.old }
{
    let mut heard = Heard::new(Origin::Connection);
    let mut unsent = None;
    let shared = RefCell::new(&mut *notes);
    let mut telling = Telling::new(Origin::Connection, Shared::new(&shared));
    let hearing = Hearing::new(reader, &mut heard, Shared::new(&shared));
    let writing = Writing::new(writer, &mut unsent);
    let ended = watch(hearing, writing, kept, viewer, sight.updates, &mut telling);
    let came = Early::new(&telling, viewer, &heard);
    // Both hold the notes.
    drop(telling);
    drop(shared);
    tell_unsent(&unsent, notes);
    if let Err(fault) = &ended {
        tell_server(*fault, viewer, &heard, notes);
        tell_closed(*fault, came, sight.wants.format, notes);
        if !sight.is_recorded {
            tell_part(*fault, came, sight.is_partial, notes);
        }
    }
    ended
}

/// Runs a viewer until `updates` updates ended. What it is fed goes to a sink that has not failed
/// before, and somebody watches.
pub fn watch<R: Read + Drop, V: Write + Drop, K: Sink, A: Watcher>(
    reader: R,
    writer: V,
    kept: &mut K,
    viewer: &mut Viewer,
    updates: u32,
    watcher: &mut A,
) -> Result<u32, EngineFault>
    requires some { 1 ≤ updates }
    requires unfailed { K.failed kept.old ≡ 0 }
    ensures saw { IfOk result (λ told.
        Saw (R.remaining reader) (V.contents writer) (K.written kept.old) (K.written kept.new)
        viewer.old updates viewer.new) }
    ensures stopped { IfErr result (λ fault.
        StopsSeeing (R.remaining reader) (V.contents writer) (K.written kept.old)
        (K.written kept.new) viewer.old updates fault viewer.new) }
    ensures heard { (left : Option (List ℕ)) × HearsRead A.steps
        (EndsViewing updates result viewer.new) (R.remaining reader) left
        viewer.old watcher.old watcher.new }
    ensures same_reference { K.reference kept.new ≡ K.reference kept.old }
{
    let mut source = Tally::new(reader);
    let mut sink = Tally::new(writer);
    let mut wire = Pair {
        source: &mut source,
        sink: &mut sink,
    };
    view_watched(&mut wire, kept, viewer, updates, watcher)
}
