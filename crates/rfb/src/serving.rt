//! A server of the test scene or of a picture, over sockets: one connection after another.

ghost use Rattle.std.specs.Prelude.{◌≡◌, ◌⊎◌, ℕ, List, Ok, Err, IfOk, IfErr, OnOk, OnErr};
ghost use Rattle.std.specs.Prelude.{string_bytes};
ghost use Rattle.std.specs.Io.KnownBytes.{Appends};
ghost use Rattle.rfb_session.specs.declared.netpbm.fault.Flaw.{Flaw};
ghost use Rattle.rfb_session.specs.Devices.{AppendsBeginning};
ghost use Rattle.rfb.specs.Context.{KeepsStreams};
ghost use Rattle.rfb.specs.Service.{IsLineOf, IsServedSome};
ghost use Rattle.rfb.specs.Service.{FailsToServe, LeavesServed, ServesAsked, ServesFewer};
ghost use Rattle.rfb.specs.Service.{ServesSo, ServesSpelled};
ghost use Rattle.rfb.specs.declared.fault.Failure.TheVariants as Failure;
ghost use Rattle.rfb.specs.declared.fault.Fault.{Fault};

mod fresh;
mod screen;
mod serve_words;
mod still;

use crate::context::Context;
use crate::explain::{Notes, tell_bound, tell_client, tell_unbound};
use crate::fault::Failure;
use crate::reaching::Timed;
use crate::serving::fresh::serve_fresh;
use crate::serving::screen::open_picture;
use crate::writing::write_whole;
use rfb_session::EngineFault;
pub use screen::ServedScreen;
pub use serve_words::{FOREVER, SERVE, ScreenChoice, ServeOptions, listen_in, serve_options_in};
use std::alloc::{AllocError, Global};
use std::fs::Files;
use std::io::{Read, Write};
use std::net::{Net, OpenListener, OpenStream, SocketAddr, TcpListener};
use std::time::Clock;

/// Serves as many connections as are asked for on a port of an address, one after another. Where a
/// picture is asked for, its file is read before. Sentences say how it goes.
pub fn serve_at<P: AllocGlobal + Clock + Files + Net, R, W: Write, E: Write>(
    context: &mut Context<P, R, W, E>,
    options: ServeOptions<'_>,
) -> Result<(), Failure>
    ensures done { OnOk result (ServesAsked options.entry
        (W.contents context.old.output.now) (W.contents context.new.output.now)) }
    ensures stopped { OnErr result (LeavesServed options.entry
        (W.contents context.old.output.now) (W.contents context.new.output.now)) }
    ensures why { IfErr result FailsToServe }
    ensures unwritten { (flaw : Flaw) → result ≡ Err (Failure.Picture flaw) →
        context.new.output.now ≡ context.old.output.now }
    ensures same { KeepsStreams context.old context.new }
{
    match options.screen {
        ScreenChoice::Scene(size) => listen(context, &ServedScreen::Scene(size), options),
        ScreenChoice::Picture(path) => serve_file(context, path, options),
    }
}

// Serves them with the picture of a file.
fn serve_file<P: AllocGlobal + Clock + Files + Net, R, W: Write, E: Write>(
    context: &mut Context<P, R, W, E>,
    path: &str,
    options: ServeOptions<'_>,
) -> Result<(), Failure>
    ensures done { OnOk result (ServesSpelled (λ screen.
        ServesSo screen options.entry.connections
        (W.contents context.old.output.now) (W.contents context.new.output.now))) }
    ensures stopped { OnErr result ((context.new.output.now ≡ context.old.output.now)
        ⊎ ServesSpelled (λ screen. ServesFewer screen options.entry.connections
        (W.contents context.old.output.now) (W.contents context.new.output.now))) }
    ensures why { IfErr result FailsToServe }
    ensures unwritten { (flaw : Flaw) → result ≡ Err (Failure.Picture flaw) →
        context.new.output.now ≡ context.old.output.now }
    ensures same { KeepsStreams context.old context.new }
{
    let notes = &mut Notes::new(context.errors, context.explains);
    let pixmap = open_picture(context.rt, context.rt.alloc(), path, notes)?;
    let screen = ServedScreen::Picture(pixmap);
    listen(context, &screen, options)
}

// Serves them with a screen.
fn listen<P: AllocGlobal + Clock + Net, R, W: Write, E: Write>(
    context: &mut Context<P, R, W, E>,
    screen: &ServedScreen,
    options: ServeOptions<'_>,
) -> Result<(), Failure>
    ensures done { OnOk result (ServesSo screen.now options.entry.connections
        (W.contents context.old.output.now) (W.contents context.new.output.now)) }
    ensures stopped { OnErr result (ServesFewer screen.now options.entry.connections
        (W.contents context.old.output.now) (W.contents context.new.output.now)) }
    ensures why { IfErr result (λ failure.
        (fault : Fault) × (failure ≡ Failure.Fault fault)) }
    ensures same { KeepsStreams context.old context.new }
{
    let net = context.rt;
    let alloc = context.alloc();
    let mut notes = Notes::new(context.errors, context.explains);
    let listener = listener_at(net, options.listen, options.port, &mut notes)?;
    let timed = Timed::new(listener, net, options.timeout);
    let count = options.connections;
    serve_on(alloc, &timed, screen, count, context.output, &mut notes)
}

/// Listens on a port of an address, and says so, or why not.
pub fn listener_at<N: Net, T: Write>(
    net: &N,
    host: &str,
    port: u16,
    notes: &mut T,
) -> Result<N::Listener, Failure>
    ensures { IfErr result (λ failure. (fault : Fault) × (failure ≡ Failure.Fault fault)) }
{
    match TcpListener::bind(net, (host, port)) {
        Ok(listener) => {
            tell_bound(host, port, notes);
            Ok(listener)
        }
        Err(error) => {
            tell_unbound(host, port, &error, notes);
            Err(Failure::from(error))
        }
    }
}

/// Serves `connections` connections, each with a fresh screen. As soon as one ends, a line on
/// `output` says how many updates were sent, or which fault ended it. One that cannot be accepted
/// counts, as a fault of a device. It gives an error only where a line cannot be written or
/// flushed, or there is no memory for it; then a beginning of the lines was written.
pub fn serve_on<L: OpenListener, C: Clock, W: Write, N: Write>(
    alloc: Global,
    listener: &Timed<'_, L, C>,
    screen: &ServedScreen,
    connections: u64,
    output: &mut W,
    notes: &mut N,
) -> Result<(), Failure>
where
    L::Stream: Read + Write + OpenStream,
    ensures done { OnOk result (ServesSo screen.now connections
        (W.contents output.old) (W.contents output.new)) }
    ensures stopped { OnErr result (ServesFewer screen.now connections
        (W.contents output.old) (W.contents output.new)) }
    ensures why { IfErr result (λ failure.
        (fault : Fault) × (failure ≡ Failure.Fault fault)) }
{
    let mut sent = 0;
    for _connection in 0..connections {
        let ended = serve_next(alloc, listener, screen, &mut sent, notes);
        tell_end(alloc, ended, output)?;
    }
    Ok(())
}

// Serves the next connection, to its end. What is written goes out at once: a viewer waits for it.
// `sent` counts the updates of all that left in peace.
fn serve_next<L: OpenListener, C: Clock, N: Write>(
    alloc: Global,
    listener: &Timed<'_, L, C>,
    screen: &ServedScreen,
    sent: &mut u64,
    notes: &mut N,
) -> Result<u64, EngineFault>
where
    L::Stream: Read + Write + OpenStream,
    ensures { IsServedSome screen.now result }
{
    let (stream, address) = match listener.accept() {
        Ok(accepted) => accepted,
        Err(error) => {
            let _ = writeln!(notes, "rfb: a connection could not be accepted: {error}");
            return Err(EngineFault::Device);
        }
    };
    let _ = writeln!(notes, "rfb: {address} has connected");
    let other = match stream.answering() {
        Ok(other) => other,
        Err(error) => {
            let _ = writeln!(notes, "rfb: {address} was disconnected: {error}");
            return Err(EngineFault::Device);
        }
    };
    let ended = serve_fresh(alloc, screen, stream, other);
    tell_left(&ended, address, sent, notes);
    ended
}

// Says how a viewer has left, and adds its updates to those that were sent before.
fn tell_left<N: Write>(
    ended: &Result<u64, EngineFault>,
    address: SocketAddr,
    sent: &mut u64,
    notes: &mut N,
) {
    match ended {
        Ok(updates) => {
            let total = sent.saturating_add(*updates);
            *sent = total;
            let _ = writeln!(
                notes,
                "rfb: {address} has left; updates sent: {updates}, in all so far: {total}"
            );
        }
        Err(fault) => {
            tell_client(*fault, notes);
            let _ = writeln!(notes, "rfb: {address} was disconnected");
        }
    }
}

// Prints how a connection has ended, in one write, and flushes it.
fn tell_end<W: Write>(
    alloc: Global,
    ended: Result<u64, EngineFault>,
    output: &mut W,
) -> Result<(), Failure>
    ensures done { OnOk result ((line : List ℕ) × IsLineOf ended line
        × Appends (W.contents output.old) (W.contents output.new) line) }
    ensures stopped { OnErr result ((output.new ≡ output.old)
        ⊎ ((line : List ℕ) × IsLineOf ended line
        × AppendsBeginning (W.contents output.old) (W.contents output.new) line)) }
    ensures why { IfErr result (λ failure.
        (fault : Fault) × (failure ≡ Failure.Fault fault)) }
{
    let line = line_of(alloc, ended)?;
    write_whole(line.as_bytes(), output)?;
    output.flush()?;
    Ok(())
}

// The line that says how a connection has ended.
fn line_of(alloc: Global, ended: Result<u64, EngineFault>) -> Result<String, AllocError>
    ensures { IfOk result (λ line. IsLineOf ended (string_bytes line)) }
{
    match ended {
        Ok(updates) => format!(in alloc; "ok {updates}\n"),
        Err(fault) => {
            let text = format!(in alloc; "{fault}")?;
            format!(in alloc; "fault {text}\n")
        }
    }
}
