//! Recordings of a server, played to a viewer.

ghost use Rattle.std.specs.Prelude.{◌≡◌, ◌≤◌, ◌⊎◌, ◌∷◌, [], false, Err, IfOk, IfErr, IfSome, OnOk};
ghost use Rattle.std.specs.Prelude.{OnErr};
ghost use Rattle.rfb.specs.Context.{KeepsStreams};
ghost use Rattle.rfb.specs.declared.fault.Fault.{Fault};
ghost use Rattle.rfb_session.specs.declared.engine.fault.EngineFault.{EngineFault};
ghost use Rattle.rfb.specs.declared.fault.Failure.TheVariants as Failure;
ghost use Rattle.rfb.specs.Recording.{BeginsPicture, FailsToPlay, IsFresh, LeavesRecording};
ghost use Rattle.rfb.specs.Recording.{PlaysRecording};
ghost use Rattle.rfb_wire.specs.declared.encoding.Encoding.TheVariants.{Raw};
ghost use Rattle.rfb.specs.Recording.{EndsShown, MayWritePicture, is_end, shows_end};
ghost use Rattle.rfb.specs.Recording.{WritesPicture, Watches, StopsWatching};

mod play_options;
mod play_words;

use crate::context::Context;
use crate::defaults::{fresh_viewer, only_raw};
use crate::explain::{
    Early, Heard, Hearing, Notes, Origin, Shared, Telling, tell_part, tell_place, tell_played,
    tell_server,
};
use crate::fault::{Failure, Fault};
use crate::writing::write_ppm;
pub use play_options::PlayOptions;
pub use play_words::{PLAY, play_options_in};
use rfb_session::{EngineFault, Tally, Watcher, play_watched};
use rfb_viewer::Viewer;
use std::alloc::Global;
use std::cell::RefCell;
use std::io::{Read, Write};

/// Plays the bytes of a server, which the input has, to a fresh viewer that takes pixels of
/// `options.format`: up to the end of the last update that is asked for, or all. Then it writes the
/// picture that the viewer shows. Nothing is written where the viewer or the bytes end with a
/// fault; then sentences say why. Only where the bytes end too early, or a read fails, the picture
/// of all that came is written if it is wanted.
pub fn play_recording<P: AllocGlobal, R: Read, W: Write, E: Write>(
    context: &mut Context<P, R, W, E>,
    options: PlayOptions,
) -> Result<(), Failure>
    ensures done { OnOk result (PlaysRecording options (R.remaining context.old.input.now)
        (W.contents context.old.output.now) (W.contents context.new.output.now)) }
    ensures stopped { IfErr result (FailsToPlay options (R.remaining context.old.input.now)
        (W.contents context.old.output.now) (W.contents context.new.output.now)) }
    ensures unwritten { (fault : EngineFault) → result ≡ Err (Failure.Engine fault) →
        shows_end options.is_partial fault ≡ false →
        context.new.output.now ≡ context.old.output.now }
    ensures left { OnErr result (LeavesRecording options (R.remaining context.old.input.now)
        (W.contents context.old.output.now) (W.contents context.new.output.now)) }
    ensures same { KeepsStreams context.old context.new }
{
    let alloc = context.alloc();
    let mut notes = Notes::new(context.errors, context.explains);
    let mut viewer = fresh_viewer(alloc, options.format, only_raw());
    let mut heard = Heard::new(Origin::Recording);
    let input = &mut *context.input;
    let output = &mut *context.output;
    play_to(options, input, &mut viewer, &mut heard, output, &mut notes)
}

// The same with this fresh viewer, and with room for what is read.
fn play_to<R: Read, W: Write, E: Write>(
    options: PlayOptions,
    input: &mut R,
    viewer: &mut Viewer,
    heard: &mut Heard,
    output: &mut W,
    notes: &mut Notes<'_, E>,
) -> Result<(), Failure>
    requires { IsFresh options.format (Raw ∷ []) viewer.old }
    ensures done { OnOk result (PlaysRecording options
        (R.remaining input.old) (W.contents output.old) (W.contents output.new)) }
    ensures stopped { IfErr result (FailsToPlay options
        (R.remaining input.old) (W.contents output.old) (W.contents output.new)) }
    ensures unwritten { (fault : EngineFault) → result ≡ Err (Failure.Engine fault) →
        shows_end options.is_partial fault ≡ false → output.new ≡ output.old }
    ensures left { OnErr result (LeavesRecording options
        (R.remaining input.old) (W.contents output.old) (W.contents output.new)) }
{
    let is_partial = options.is_partial;
    match watch_heard(options, input, viewer, heard, notes) {
        Ok(_updates) => show(viewer, output),
        Err(fault) => Err(show_early(viewer, is_partial, fault, output)),
    }
}

// Feeds a viewer as `watch` does, and says how it goes.
fn watch_heard<R: Read, N: Write>(
    options: PlayOptions,
    input: &mut R,
    viewer: &mut Viewer,
    heard: &mut Heard,
    notes: &mut N,
) -> Result<u64, EngineFault>
    ensures watched { IfOk result (λ told.
        Watches options.updates (R.remaining input.old) viewer.old told viewer.new) }
    ensures stopped { IfErr result (λ fault.
        StopsWatching options.updates (R.remaining input.old) viewer.old fault viewer.new) }
{
    let shared = RefCell::new(&mut *notes);
    let mut telling = Telling::new(Origin::Recording, Shared::new(&shared));
    let hearing = Hearing::new(input, heard, Shared::new(&shared));
    let ended = watch(hearing, viewer, options.updates, &mut telling);
    let came = Early::new(&telling, viewer, heard);
    // Both hold the notes.
    drop(telling);
    drop(shared);
    match &ended {
        Ok(updates) => tell_played(*updates, notes),
        Err(fault) => {
            tell_server(*fault, viewer, heard, notes);
            tell_place(*fault, viewer.taken(), came, notes);
            tell_part(*fault, came, options.is_partial, notes);
        }
    }
    ended
}

// Feeds a viewer what `reader` has, until `updates` updates ended or all is fed, and returns how
// many ended.
fn watch<R: Read + Drop, A: Watcher>(
    reader: R,
    viewer: &mut Viewer,
    updates: Option<u32>,
    watcher: &mut A,
) -> Result<u64, EngineFault>
    requires some { IfSome updates (λ count. 1 ≤ count) }
    ensures watched { IfOk result (λ told.
        Watches updates (R.remaining reader) viewer.old told viewer.new) }
    ensures stopped { IfErr result (λ fault.
        StopsWatching updates (R.remaining reader) viewer.old fault viewer.new) }
{
    let mut source = Tally::new(reader);
    play_watched(&mut source, viewer, wide(updates), watcher)
}

// The same number.
fn wide(updates: Option<u32>) -> Option<u64>
    ensures { result ≡ updates }
{
    match updates {
        Some(count) => Some(u64::from(count)),
        None => None,
    }
}

/// After an engine that ended with this fault, writes the picture of what has come, if that is
/// wanted and the end is an early one. Returns why the command ends.
pub fn show_early<W: Write>(
    viewer: &Viewer,
    is_wanted: bool,
    fault: EngineFault,
    output: &mut W,
) -> Failure
    ensures ends { EndsShown is_wanted viewer.now fault
        (W.contents output.old) (W.contents output.new) result }
    ensures unwanted { shows_end is_wanted fault ≡ false → output.new ≡ output.old }
{
    if is_wanted && is_end(fault) {
        return match show_part(viewer, output) {
            Ok(()) => Failure::Engine(fault),
            Err(own) => Failure::Fault(own),
        };
    }
    Failure::Engine(fault)
}

// Whether the bytes came to an end, and no viewer did.
fn is_end(fault: EngineFault) -> bool
    ensures { result ≡ is_end fault }
{
    match fault {
        EngineFault::Truncated | EngineFault::Device => true,
        EngineFault::Server(_) | EngineFault::Viewer(_) | EngineFault::NoMemory => false,
    }
}

// Writes what a viewer shows, if it shows a picture.
fn show_part<W: Write>(viewer: &Viewer, output: &mut W) -> Result<(), Fault>
    ensures done { OnOk result
        (MayWritePicture viewer.now (W.contents output.old) (W.contents output.new)) }
    ensures left { OnErr result
        (BeginsPicture viewer.now (W.contents output.old) (W.contents output.new)) }
{
    match viewer.picture() {
        Some(picture) => write_ppm(picture, output),
        None => Ok(()),
    }
}

/// Writes what a viewer shows. What ends it is a fault of the program's own, and no engine's.
pub fn show<W: Write>(viewer: &Viewer, output: &mut W) -> Result<(), Failure>
    ensures done { OnOk result
        (WritesPicture viewer.now (W.contents output.old) (W.contents output.new)) }
    ensures left { OnErr result ((output.new ≡ output.old)
        ⊎ BeginsPicture viewer.now (W.contents output.old) (W.contents output.new)) }
    ensures stopped { IfErr result (λ failure. (fault : Fault) × (failure ≡ Failure.Fault fault)) }
{
    write_picture(viewer, output)?;
    Ok(())
}

/// Writes what a viewer shows, as PPM. Where there is no picture, nothing is written.
pub fn write_picture<W: Write>(viewer: &Viewer, output: &mut W) -> Result<(), Fault>
    ensures done { OnOk result
        (WritesPicture viewer.now (W.contents output.old) (W.contents output.new)) }
    ensures left { OnErr result ((output.new ≡ output.old)
        ⊎ BeginsPicture viewer.now (W.contents output.old) (W.contents output.new)) }
{
    let picture = viewer.picture().ok_or(Fault::NotReady)?;
    write_ppm(picture, output)?;
    Ok(())
}
