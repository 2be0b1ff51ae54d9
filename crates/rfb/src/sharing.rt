//! A share over sockets: a screen for up to eight viewers at once. A program draws it by lines on
//! standard input, and reads as lines on standard output what the viewers do.
//!
//! The core of it is a `Console`, which has no IO. `live` moves bytes between the console and the
//! tenants at its doors. The `Shell` says which of them are ready.

ghost use Rattle.std.specs.Prelude.{◌≡◌, OnOk, OnErr};
ghost use Rattle.rfb.specs.Context.{KeepsStreams};
ghost use Rattle.rfb.specs.Share.{IsAsked, LeavesShare, Shares};

pub mod console_setup;
pub mod ending;
pub mod hosting;
mod owner_cause;
mod ready;
mod share_words;
pub mod shell;
pub mod speaker;
pub mod standard;
pub mod tenant;

use crate::context::Context;
use crate::explain::Notes;
use crate::fault::Failure;
use crate::serving::listener_at;
use crate::sharing::console_setup::setup_of;
use crate::sharing::ending::result_of;
use crate::sharing::shell::{Front, Shell};
use crate::sharing::speaker::Reporter;
use crate::sharing::standard::{Streams, streams_for};
use crate::sharing::tenant::{Tenant, empty_doors, let_in_first};
use rfb_session::console::{Console, OWNER};
use rfb_session::dispose;
use rfb_session::doors::live;
pub use share_words::{SHARE, ShareOptions, share_options_in};
use std::alloc::Global;
use std::io::{Read, Write};
use std::net::{Net, OpenListener};
use std::time::Clock;

// Standard input is the owner's.
const FRONT: Front<'static> = Front {
    input: Some(OWNER),
    server: None,
    callee: None,
};

/// How many bytes are read at once: as many as a pipe holds.
pub const READ_AT_ONCE: usize = 65536;

/// Shares a screen until a line says `quit`, or with the last viewer if that is wanted. The input
/// is standard input. Its bad lines are reported. Sentences are said, unless the options are
/// against them. It fails where standard output is closed, nothing can listen there, there is no
/// memory for the screen, a line cannot be written, or the input ends before it gives the size of
/// the screen.
pub fn share_at<P: AllocGlobal + Clock + Net, R: Read, W: Write, E: Write>(
    context: &mut Context<P, R, W, E>,
    options: ShareOptions<'_>,
) -> Result<(), Failure>
    ensures done { OnOk result (Shares options.entry) }
    ensures left { OnErr result (LeavesShare options.entry
        (W.contents context.old.output.now) (W.contents context.new.output.now)) }
    ensures same { KeepsStreams context.old context.new }
{
    let hosting = options.hosting;
    let (streams, says) = streams_for(context.errors, hosting.is_quiet)?;
    let notes = &mut Notes::new(context.errors, says);
    let listener = listener_at(context.rt, hosting.listen, hosting.port, notes)?;
    listener.set_nonblocking(true)?;
    share_with(context, streams, says, options, listener)
}

// The same, for viewers that connect to this listener.
fn share_with<P: AllocGlobal + Clock + Net, R: Read, W: Write, E: Write>(
    context: &mut Context<P, R, W, E>,
    streams: Streams,
    says: bool,
    options: ShareOptions<'_>,
    listener: P::Listener,
) -> Result<(), Failure>
    ensures done { OnOk result (Shares options.entry) }
    ensures left { OnErr result (LeavesShare options.entry
        (W.contents context.old.output.now) (W.contents context.new.output.now)) }
    ensures same { KeepsStreams context.old context.new }
{
    let alloc = context.alloc();
    let mut part = Vec::from_elem(alloc, 0, READ_AT_ONCE)?;
    let mut doors = empty_doors(alloc)?;
    let mut shell = Shell::new(context.rt, alloc, Some(listener), FRONT, streams)?;
    let mut console = console_of(alloc, &options, says);
    let input = Tenant::input(context.input, streams.input);
    let_in_first(
        &mut doors,
        input,
        None,
        context.output,
        context.errors,
        streams,
    );
    live(&mut console, &mut doors, &mut shell, &mut part);
    let ended = result_of(console.outcome());
    dispose(console);
    dispose(shell);
    ended
}

// A console that was told nothing, as the options ask for it. It says sentences, or none.
fn console_of(alloc: Global, options: &ShareOptions<'_>, says: bool) -> Console<Reporter>
    ensures { IsAsked options.now result }
{
    let reporter = Reporter { are_wanted: says };
    Console::new(alloc, &setup_of(options), reporter)
}
