//! A server that lines drive: keys, a pointer and texts go to it, and what its screen shows is
//! waited for, compared and saved.
//!
//! The core of it is a `Driver`, which has no IO. Its doors are those of a share: the first has the
//! connection to the server, the second the lines. Its `FileRig` has the files.

ghost use Rattle.std.specs.Prelude.{OnOk, OnErr, IfErr};
ghost use Rattle.rfb.specs.Context.{KeepsStreams};
ghost use Rattle.rfb.specs.Drive.{Drives, FailsToDrive, IsDriverOf, LeavesDrive};

mod drive_words;
mod driver_setup;
mod files;
mod result;
mod rig;
mod sentences;

use crate::context::Context;
use crate::driving::driver_setup::setup_of;
use crate::driving::result::drive_result;
use crate::driving::rig::FileRig;
use crate::explain::{Notes, tell_unreached};
use crate::fault::Failure;
use crate::reaching::connect_in_time;
use crate::sharing::READ_AT_ONCE;
use crate::sharing::shell::{Front, Shell};
use crate::sharing::standard::{Streams, streams_for};
use crate::sharing::tenant::{Tenant, empty_doors, let_in_first};
pub use drive_words::{DRIVE, DriveOptions, drive_options_in};
use rfb_session::dispose;
use rfb_session::doors::live;
use rfb_session::drive::{Driver, ORDERS};
use std::alloc::Global;
use std::fs::Files;
use std::io::{Read, Write};
use std::net::{Net, OpenListener};
use std::os::fd::{AsRawFd, RawFd};
use std::time::Clock;

/// Does what the lines of the input say, one after another, until they end. Sentences are said,
/// unless the options are against them. It fails where:
///
/// - Standard output is closed, or there is no memory.
/// - The server cannot be reached, or goes away.
/// - A line is bad, is not done in its time, or names a file that cannot be had.
/// - The lines cannot be read, or those that report cannot be written.
pub fn drive_at<P: AllocGlobal + Clock + Files + Net, R: Read, W: Write, E: Write>(
    context: &mut Context<P, R, W, E>,
    options: DriveOptions<'_>,
) -> Result<(), Failure>
    ensures done { OnOk result (Drives P options.entry) }
    ensures stopped { IfErr result (FailsToDrive P options.entry
        (W.contents context.old.output.now) (W.contents context.new.output.now)) }
    ensures left { OnErr result (LeavesDrive P options.entry
        (W.contents context.old.output.now) (W.contents context.new.output.now)) }
    ensures same { KeepsStreams context.old context.new }
{
    let (streams, says) = streams_for(context.errors, options.is_quiet)?;
    let notes = &mut Notes::new(context.errors, says);
    let connected = connect_in_time(context.rt, options.server, options.timeout);
    tell_unreached(options.server, &connected, notes);
    let server = connected?;
    drive_over(context, options, server, streams, says)
}

// The same of this server.
fn drive_over<P: AllocGlobal + Clock + Files + Net, R: Read, W: Write, E: Write>(
    context: &mut Context<P, R, W, E>,
    options: DriveOptions<'_>,
    server: P::Stream,
    streams: Streams,
    says: bool,
) -> Result<(), Failure>
    ensures same { KeepsStreams context.old context.new }
    ensures left { OnErr result (LeavesDrive P options.entry
        (W.contents context.old.output.now) (W.contents context.new.output.now)) }
    ensures stopped { IfErr result (FailsToDrive P options.entry
        (W.contents context.old.output.now) (W.contents context.new.output.now)) }
    ensures done { OnOk result (Drives P options.entry) }
{
    let alloc = context.alloc();
    let mut part = Vec::from_elem(alloc, 0, READ_AT_ONCE)?;
    let mut doors = empty_doors(alloc)?;
    let (input, streams) = input_of(streams, options.has_lines);
    let fd = server.as_raw_fd();
    let front = front_of(fd);
    let mut shell = Shell::new(context.rt, alloc, None::<P::Listener>, front, streams)?;
    let rig = FileRig::new(context.rt, options.keep, says);
    let mut driver = driver_of(alloc, &options, rig);
    let lines = Some(Tenant::input(context.input, input));
    let server = Tenant::Connection(server);
    let_in_first(
        &mut doors,
        server,
        lines,
        context.output,
        context.errors,
        streams,
    );
    live(&mut driver, &mut doors, &mut shell, &mut part);
    // All lines are done, or one cannot be, or the server has gone.
    let ended = drive_result(driver.outcome(), fd);
    dispose(driver);
    dispose(shell);
    ended
}

// A driver that was told nothing, as the options ask for it.
fn driver_of<'a, P: AllocGlobal + Files>(
    alloc: Global,
    options: &DriveOptions<'_>,
    rig: FileRig<'a, P>,
) -> Driver<FileRig<'a, P>>
    ensures { IsDriverOf P options.now result }
{
    Driver::new(alloc, setup_of(options), rig)
}

// Whether there are lines to read, and the streams as the loop knows them: those that are named,
// in place of standard input, are always ready.
fn input_of(streams: Streams, has_lines: bool) -> (bool, Streams) {
    let is_there = streams.input || has_lines;
    let streams = Streams {
        input: streams.input && !has_lines,
        ..streams
    };
    (is_there, streams)
}

// The server at the first door, the lines at the second.
fn front_of(server: RawFd) -> Front<'static> {
    Front {
        input: Some(ORDERS),
        server: Some(server),
        callee: None,
    }
}
