//! A relay over sockets: a server's screen for up to eight viewers at once, whose keys, pointers
//! and texts go to the server.
//!
//! The core of it is a `Relay`, which has no IO. Its doors are those of a share; the first has the
//! connection to the server in place of standard input.

ghost use Rattle.std.specs.Prelude.{OnOk, OnErr, IfErr};
ghost use Rattle.rfb.specs.Context.{KeepsStreams};
ghost use Rattle.rfb.specs.Relay.{FailsToRelay, IsRelayOf, LeavesRelay, Relays};

mod relay_setup;
mod relay_words;

use crate::context::Context;
use crate::explain::{Notes, tell_unreached};
use crate::fault::Failure;
use crate::reaching::connect_once;
use crate::relaying::relay_setup::setup_of;
use crate::serving::listener_at;
use crate::sharing::READ_AT_ONCE;
use crate::sharing::ending::result_of;
use crate::sharing::shell::callee::Callee;
use crate::sharing::shell::{Front, Shell};
use crate::sharing::speaker::Reporter;
use crate::sharing::standard::{Streams, streams_for};
use crate::sharing::tenant::{Tenant, empty_doors, let_in_first};
pub use relay_words::{RELAY, RelayOptions, relay_options_in};
use rfb_session::dispose;
use rfb_session::doors::live;
use rfb_session::relay::Relay;
use std::alloc::Global;
use std::io::{Read, Write};
use std::net::{Net, OpenListener};
use std::os::fd::AsRawFd;
use std::time::Clock;

/// Relays a server until it goes away, or until the last viewer does if that is wanted. Standard
/// input is not read. Sentences are said, unless the options are against them. It fails where:
///
/// - Standard output is closed, or a line cannot be written.
/// - The server cannot be reached, or nothing can listen.
/// - There is no memory.
/// - The server goes away and the options do not have it called again. The fault is the one that a
///   view of it would end with.
pub fn relay_at<P: AllocGlobal + Clock + Net, R: Read, W: Write, E: Write>(
    context: &mut Context<P, R, W, E>,
    options: RelayOptions<'_>,
) -> Result<(), Failure>
    ensures same { KeepsStreams context.old context.new }
    ensures done { OnOk result (Relays options.entry) }
    ensures stopped { IfErr result (FailsToRelay options.entry
        (W.contents context.old.output.now) (W.contents context.new.output.now)) }
    ensures left { OnErr result (LeavesRelay options.entry
        (W.contents context.old.output.now) (W.contents context.new.output.now)) }
{
    let hosting = options.hosting;
    let (streams, says) = streams_for(context.errors, hosting.is_quiet)?;
    let notes = &mut Notes::new(context.errors, says);
    let connected = connect_once(context.rt, options.server);
    tell_unreached(options.server, &connected, notes);
    let server = connected?;
    let listener = listener_at(context.rt, hosting.listen, hosting.port, notes)?;
    listener.set_nonblocking(true)?;
    relay_between(context, options, server, listener, streams, says)
}

// The same of this server, for viewers that connect to this listener.
fn relay_between<P: AllocGlobal + Clock + Net, R: Read, W: Write, E: Write>(
    context: &mut Context<P, R, W, E>,
    options: RelayOptions<'_>,
    server: P::Stream,
    listener: P::Listener,
    streams: Streams,
    says: bool,
) -> Result<(), Failure>
    ensures left { OnErr result (LeavesRelay options.entry
        (W.contents context.old.output.now) (W.contents context.new.output.now)) }
    ensures stopped { IfErr result (FailsToRelay options.entry
        (W.contents context.old.output.now) (W.contents context.new.output.now)) }
    ensures done { OnOk result (Relays options.entry) }
    ensures same { KeepsStreams context.old context.new }
{
    let alloc = context.alloc();
    let mut part = Vec::from_elem(alloc, 0, READ_AT_ONCE)?;
    let mut doors = empty_doors::<R, W, E, P::Stream>(alloc)?;
    let front = Front {
        input: None,
        server: Some(server.as_raw_fd()),
        callee: Some(Callee::new(options.server)),
    };
    let mut shell = Shell::new(context.rt, alloc, Some(listener), front, streams)?;
    let mut relay = relay_of(alloc, options, says);
    let server = Tenant::Connection(server);
    let_in_first(
        &mut doors,
        server,
        None,
        context.output,
        context.errors,
        streams,
    );
    live(&mut relay, &mut doors, &mut shell, &mut part);
    let ended = result_of(relay.outcome());
    dispose(relay);
    dispose(shell);
    ended
}

// A relay that was told nothing, as the options ask for it. It says sentences, or none.
fn relay_of(alloc: Global, options: RelayOptions<'_>, says: bool) -> Relay<Reporter>
    ensures { IsRelayOf options.entry result }
{
    let reporter = Reporter { are_wanted: says };
    Relay::new(alloc, setup_of(options), reporter)
}
