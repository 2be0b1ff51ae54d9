//! A viewer of a server over a socket.

ghost use Rattle.std.specs.Prelude.{◌≡◌, false, Err, IfOk, IfErr, OnOk, OnErr};
ghost use Rattle.rfb_session.specs.declared.engine.fault.EngineFault.{EngineFault};
ghost use Rattle.rfb.specs.Context.{KeepsStreams};
ghost use Rattle.rfb.specs.declared.fault.Failure.TheVariants as Failure;
ghost use Rattle.rfb.specs.View.{FailsToView, FailsToViewSome, IsMadeFor, Saw, StopsSeeing};
ghost use Rattle.rfb.specs.Recording.{shows_end};
ghost use Rattle.rfb.specs.View.{LeavesSomeView, LeavesView, Views, ViewsSome};

mod film;
mod filming;
mod follow_words;
mod following;
mod pace;
mod stopping;
mod view_options;
mod view_words;
mod waiting;
mod watching;

use crate::context::Context;
use crate::defaults::{copy_of, fresh_viewer};
use crate::explain::{Notes, Shared, tell_unreached};
use crate::fault::Failure;
use crate::play::{show, show_early};
use crate::reaching::{Patient, connect};
pub use film::FollowOptions;
pub use follow_words::follow_options_in;
pub use following::follow_at;
use rfb_session::{EngineFault, Lent, Nowhere};
use rfb_viewer::Viewer;
use std::alloc::Global;
use std::cell::RefCell;
use std::io::{Read, Write};
use std::net::{Net, OpenStream};
use std::time::Clock;
pub use view_options::{Sight, ViewOptions};
pub use view_words::{VIEW, view_options_in};
use waiting::Waiting;
use watching::watch_heard;

/// Connects to a server, and views it. What is written, and why it fails, is as for `view_on`.
pub fn view_at<P: AllocGlobal + Net + Clock, R, W: Write, E: Write>(
    context: &mut Context<P, R, W, E>,
    options: ViewOptions<'_>,
) -> Result<(), Failure>
    ensures done { OnOk result (ViewsSome options.entry.sight
        (W.contents context.old.output.now) (W.contents context.new.output.now)) }
    ensures stopped { IfErr result (FailsToViewSome options.entry.sight
        (W.contents context.old.output.now) (W.contents context.new.output.now)) }
    ensures unwritten { options.entry.sight.is_recorded ≡ false → (fault : EngineFault) →
        result ≡ Err (Failure.Engine fault) →
        shows_end options.entry.sight.is_partial fault ≡ false →
        context.new.output.now ≡ context.old.output.now }
    ensures left { options.entry.sight.is_recorded ≡ false → OnErr result
        (LeavesSomeView options.entry.sight
        (W.contents context.old.output.now) (W.contents context.new.output.now)) }
    ensures same { KeepsStreams context.old context.new }
{
    let alloc = context.alloc();
    let notes = &mut Notes::new(context.errors, context.explains);
    let connected = connect(context.rt, options.peer);
    tell_unreached(options.peer.address, &connected, notes);
    view_on(alloc, connected?, options.sight, context.output, notes)
}

/// Views the server at the other end of a connection, up to the end of the last update that is
/// wanted. Then writes the picture that it shows; or its bytes as they come, if these are wanted.
/// What is sent goes out at once: the server waits for it. `notes` say how it goes, and why it
/// fails.
pub fn view_on<S: Read + Write + OpenStream + Drop, C: Clock, W: Write, N: Write>(
    alloc: Global,
    connection: Patient<'_, S, C>,
    sight: Sight,
    output: &mut W,
    notes: &mut N,
) -> Result<(), Failure>
    ensures done { OnOk result
        (ViewsSome sight (W.contents output.old) (W.contents output.new)) }
    ensures stopped { IfErr result (FailsToViewSome sight
        (W.contents output.old) (W.contents output.new)) }
    ensures unwritten { sight.is_recorded ≡ false → (fault : EngineFault) →
        result ≡ Err (Failure.Engine fault) → shows_end sight.is_partial fault ≡ false →
        output.new ≡ output.old }
    ensures left { sight.is_recorded ≡ false → OnErr result
        (LeavesSomeView sight (W.contents output.old) (W.contents output.new)) }
{
    let other = connection.answering()?;
    let shared = RefCell::new(notes);
    let waiting = Waiting::new(connection, Shared::new(&shared));
    view_over(
        alloc,
        waiting,
        other,
        sight,
        output,
        &mut Shared::new(&shared),
    )
}

// Views a server whose bytes come from `reader`, and that is answered on `writer`. Then the picture
// is written, or its bytes were as they came. Where the viewer or the bytes end with a fault no
// picture is; but where the bytes end too early, that of what came is, if it is wanted.
fn view_over<R: Read + Drop, V: Write + Drop, W: Write, N: Write>(
    alloc: Global,
    reader: R,
    writer: V,
    sight: Sight,
    output: &mut W,
    notes: &mut N,
) -> Result<(), Failure>
    ensures done { OnOk result (Views sight (R.remaining reader) (V.contents writer)
        (W.contents output.old) (W.contents output.new)) }
    ensures stopped { IfErr result (FailsToView sight (R.remaining reader) (V.contents writer)
        (W.contents output.old) (W.contents output.new)) }
    ensures unwritten { sight.is_recorded ≡ false → (fault : EngineFault) →
        result ≡ Err (Failure.Engine fault) → shows_end sight.is_partial fault ≡ false →
        output.new ≡ output.old }
    ensures left { sight.is_recorded ≡ false → OnErr result
        (LeavesView sight (R.remaining reader) (V.contents writer)
        (W.contents output.old) (W.contents output.new)) }
{
    let mut viewer = viewer_for(alloc, &sight);
    if sight.is_recorded {
        // What is recorded goes out, however it ends.
        let recorded = record(reader, writer, &mut viewer, &sight, output, notes);
        let flushed = output.flush();
        recorded?;
        flushed?;
        return Ok(());
    }
    match watch_heard(reader, writer, &mut Nowhere, &mut viewer, &sight, notes) {
        Ok(_updates) => show(&viewer, output),
        Err(fault) => Err(show_early(&viewer, sight.is_partial, fault, output)),
    }
}

// A fresh viewer that is made for a sight.
fn viewer_for(alloc: Global, sight: &Sight) -> Viewer
    ensures { IsMadeFor sight.now result }
{
    let encodings = copy_of(&sight.wants.encodings);
    fresh_viewer(alloc, sight.wants.format, encodings)
}

// Runs a viewer, and writes what it is fed. What is to go out is left.
fn record<R: Read + Drop, V: Write + Drop, W: Write, N: Write>(
    reader: R,
    writer: V,
    viewer: &mut Viewer,
    sight: &Sight,
    output: &mut W,
    notes: &mut N,
) -> Result<u32, EngineFault>
    ensures saw { IfOk result (λ told.
        Saw (R.remaining reader) (V.contents writer) (W.contents output.old)
        (W.contents output.new) viewer.old sight.now.updates viewer.new) }
    ensures stopped { IfErr result (λ fault.
        StopsSeeing (R.remaining reader) (V.contents writer) (W.contents output.old)
        (W.contents output.new) viewer.old sight.now.updates fault viewer.new) }
{
    let mut kept = Lent::new(output);
    watch_heard(reader, writer, &mut kept, viewer, sight, notes)
}
