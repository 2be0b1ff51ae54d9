//! A viewer of a server over a socket, whose picture is written after each update.

ghost use Rattle.std.specs.Prelude.{◌≡◌, ◌≤◌, ℕ, IfErr, List, None, OnOk, Option};
ghost use Rattle.rfb.specs.Context.{KeepsStreams};
ghost use Rattle.rfb.specs.Film.{FailsToFollow, FailsToFollowSome, Follows, FollowsSome};
ghost use Rattle.rfb.specs.Film.{EndsCounted, Shoots, film_name, is_over, judged, reel_of};
ghost use Rattle.rfb.specs.Film.{told_of};
ghost use Rattle.rfb.specs.Explain.{updates_told};
ghost use Rattle.rfb.specs.View.{Saw, StopsSeeing};
ghost use Rattle.rfb_session.specs.Watcher.{HearsRead};
ghost use Rattle.rfb.specs.Recording.{IsFresh};

use crate::context::Context;
use crate::defaults::{copy_of, fresh_viewer};
use crate::explain::{
    Early, Heard, Hearing, Notes, Origin, Shared, Telling, Writing, tell_closed, tell_filmed,
    tell_server, tell_unreached, tell_unsent,
};
use crate::fault::{Failure, Fault};
use crate::reaching::{Patient, connect};
use crate::viewing::film::{Film, FollowOptions};
use crate::viewing::filming::Filming;
use crate::viewing::pace::Pace;
use crate::viewing::stopping::Stopping;
use crate::viewing::waiting::Waiting;
use crate::viewing::watching::watch;
use rfb_session::{EngineFault, dispose};
use rfb_viewer::Viewer;
use std::alloc::Global;
use std::cell::{Cell, RefCell};
use std::io::{Read, Write};
use std::net::{Net, OpenStream};
use std::time::Clock;

/// Connects to a server, and follows it. What is written, and why it fails, is as for `follow_on`.
pub fn follow_at<P: AllocGlobal + Net + Clock, R, W: Write, E: Write>(
    context: &mut Context<P, R, W, E>,
    options: FollowOptions<'_>,
) -> Result<(), Failure>
    ensures done { OnOk result (FollowsSome options.entry.film
        (W.contents context.old.output.now) (W.contents context.new.output.now)) }
    ensures stopped { IfErr result (FailsToFollowSome options.entry.film
        (W.contents context.old.output.now) (W.contents context.new.output.now)) }
    ensures same { KeepsStreams context.old context.new }
{
    let alloc = context.alloc();
    let notes = &mut Notes::new(context.errors, context.explains);
    let connected = connect(context.rt, options.peer);
    tell_unreached(options.peer.address, &connected, notes);
    follow_on(
        alloc,
        connected?,
        context.rt,
        options.film,
        context.output,
        notes,
    )
}

/// Follows the server at the other end of a connection: after each update the picture is written
/// that the viewer shows then, and flushed, before the next is asked for. It ends after the updates
/// that are wanted. Where no number is, it ends well once a picture was written and the server ends
/// between two messages. A write that fails ends it at once. `notes` say how it goes, and why it
/// fails.
pub fn follow_on<S: Read + Write + OpenStream + Drop, C: Clock, W: Write, N: Write>(
    alloc: Global,
    connection: Patient<'_, S, C>,
    clock: &C,
    film: Film,
    output: &mut W,
    notes: &mut N,
) -> Result<(), Failure>
    ensures done { OnOk result
        (FollowsSome film (W.contents output.old) (W.contents output.new)) }
    ensures stopped { IfErr result (FailsToFollowSome film
        (W.contents output.old) (W.contents output.new)) }
{
    let other = connection.answering()?;
    let shared = RefCell::new(notes);
    let waiting = Waiting::new(connection, Shared::new(&shared));
    follow_over(
        alloc,
        waiting,
        other,
        clock,
        film,
        output,
        &mut Shared::new(&shared),
    )
}

// Follows a server whose bytes come from `reader`, and that is answered on `writer`. Says how it
// goes, and why it fails.
fn follow_over<R: Read + Drop, V: Write + Drop, C: Clock, W: Write, N: Write>(
    alloc: Global,
    reader: R,
    writer: V,
    clock: &C,
    film: Film,
    output: &mut W,
    notes: &mut N,
) -> Result<(), Failure>
    ensures done { OnOk result (Follows film (R.remaining reader) (V.contents writer)
        (W.contents output.old) (W.contents output.new)) }
    ensures stopped { IfErr result (FailsToFollow film (R.remaining reader) (V.contents writer)
        (W.contents output.old) (W.contents output.new)) }
{
    let mut viewer = viewer_for(alloc, &film);
    let mut unsent = None;
    let mut heard = Heard::new(Origin::Connection);
    let shared = RefCell::new(&mut *notes);
    let mut telling = Telling::quiet(Origin::Connection, Shared::new(&shared));
    let hearing = Hearing::new(reader, &mut heard, Shared::new(&shared));
    let writing = Writing::new(writer, &mut unsent);
    let judged = film_told(
        hearing,
        writing,
        clock,
        &mut viewer,
        &film,
        output,
        &mut telling,
    );
    let came = Early::new(&telling, &viewer, &heard);
    // Both hold the notes.
    drop(telling);
    drop(shared);
    tell_unsent(&unsent, notes);
    if let Err(Failure::Engine(fault)) = &judged {
        tell_server(*fault, &viewer, &heard, notes);
        tell_closed(*fault, came, film.wants.format, notes);
    }
    if !matches!(&judged, Err(Failure::Fault(_))) {
        tell_filmed(came.updates, notes);
    }
    dispose(viewer);
    judged
}

// A fresh viewer that is made for a film.
fn viewer_for(alloc: Global, film: &Film) -> Viewer
    ensures { IsFresh film.now.wants.format film.now.wants.encodings.items result }
{
    let encodings = copy_of(&film.wants.encodings);
    fresh_viewer(alloc, film.wants.format, encodings)
}

// Runs a fresh viewer until the film is over, with somebody who has heard of no update yet.
fn film_told<R: Read + Drop, V: Write + Drop, C: Clock, W: Write, N: Write>(
    reader: R,
    writer: V,
    clock: &C,
    viewer: &mut Viewer,
    film: &Film,
    output: &mut W,
    telling: &mut Telling<N>,
) -> Result<(), Failure>
    requires fresh { IsFresh film.now.wants.format film.now.wants.encodings.items viewer.old }
    requires untold { updates_told telling.old ≡ 0 }
    ensures done { OnOk result (Follows film.now (R.remaining reader) (V.contents writer)
        (W.contents output.old) (W.contents output.new)) }
    ensures stopped { IfErr result (FailsToFollow film.now (R.remaining reader) (V.contents writer)
        (W.contents output.old) (W.contents output.new)) }
{
    let is_cut = Cell::new(false);
    let pace = Pace::new(film.rate);
    let mut filming = Filming::new(output, &is_cut, clock, pace, film.most(), telling);
    let ended = shoot(reader, writer, &is_cut, viewer, film.most(), &mut filming);
    let over = is_over(film.updates, filming.updates(), viewer.between(), &ended);
    judge(filming.fault(), ended, over)
}

// Runs a viewer until so many updates ended, with their pictures written.
fn shoot<R: Read + Drop, V: Write + Drop, C: Clock, W: Write, N: Write>(
    reader: R,
    writer: V,
    is_cut: &Cell<bool>,
    viewer: &mut Viewer,
    updates: u32,
    filming: &mut Filming<'_, W, C, N>,
) -> Result<u32, EngineFault>
    requires some { 1 ≤ updates }
    requires untold { updates_told (told_of filming.old) ≡ 0 }
    ensures saw { OnOk result (Saw (R.remaining reader) (V.contents writer) None None
        viewer.old updates viewer.new) }
    ensures stopped { IfErr result (λ fault. StopsSeeing (R.remaining reader) (V.contents writer)
        None None viewer.old updates fault viewer.new) }
    ensures shot { (left : Option (List ℕ)) × HearsRead Shoots
        (EndsCounted updates result viewer.new (updates_told (told_of filming.new)))
        (R.remaining reader) left viewer.old
        (reel_of W.contents filming.old) (reel_of W.contents filming.new) }
    ensures same_reference { film_name filming.new ≡ film_name filming.old }
{
    let mut kept = Stopping::new(is_cut);
    watch(reader, writer, &mut kept, viewer, updates, filming)
}

// Whether the server has ended where it may: no number of updates is wanted, one has ended at
// least, and so has each message.
fn is_over(
    asked: Option<u32>,
    updates: u64,
    is_between: bool,
    ended: &Result<u32, EngineFault>,
) -> bool
    ensures { result ≡ is_over asked updates is_between ended.now }
{
    match (asked, ended) {
        (None, Err(EngineFault::Truncated)) => updates > 0 && is_between,
        _ => false,
    }
}

// Why a film fails, if it does: by a write, or by its engine.
fn judge(cut: Option<Fault>, ended: Result<u32, EngineFault>, is_over: bool) -> Result<(), Failure>
    ensures { result ≡ judged cut ended is_over }
{
    match (cut, ended) {
        (Some(fault), _) => Err(Failure::Fault(fault)),
        (None, Err(fault)) if !is_over => Err(Failure::Engine(fault)),
        (None, _) => Ok(()),
    }
}
