//! What an end sends: it is in flight then, or the call was refused.

ghost use Rattle.std.specs.Prelude.{◌≡◌, ◌≢◌, ◌≤◌, ◌++◌, ℕ, List, None, Some, Ok, length};
ghost use Rattle.std.specs.Prelude.{IfOk, IfErr, OnOk, OnErr};
ghost use Rattle.rfb_viewer.specs.Calls.{call_refusal};
ghost use Rattle.rfb_viewer.specs.Messages.{text_message};
ghost use Rattle.rfb_viewer.specs.Model.{StandsFor, fault_of};
ghost use Rattle.rfb_viewer.specs.Viewer.{Viewing, ViewerState};
ghost use Rattle.rfb_session.specs.declared.told.Refused.TheVariants.{NotReady};
ghost use Rattle.rfb_session.specs.Told.{refused_as, refused_by};
ghost use Rattle.rfb.specs.Loopback.{ComposesInto};

use crate::fault::Fault;
use arrayvec::ArrayVec;
use rfb_server::{Outside, Server};
use rfb_session::Refused;
use rfb_viewer::{CallFault, TextFault, Viewer};
use std::alloc::Global;
use std::collections::VecDeque;
use std::io::Write;

/// Bytes that are in flight from the beginning.
pub fn in_flight(alloc: Global, bytes: &[u8]) -> Result<VecDeque<u8>, Fault>
    ensures { IfOk result (λ queue. queue.items ≡ bytes.now) }
{
    let mut queue = VecDeque::new(alloc);
    queue.write_all(bytes)?;
    Ok(queue)
}

/// An update is in flight, if one is due. At an error it may be lost.
pub fn compose(
    alloc: Global,
    server: &mut Server,
    to_viewer: &mut VecDeque<u8>,
) -> Result<(), Fault>
    ensures { OnOk result
        (ComposesInto server.old server.new to_viewer.old.items to_viewer.new.items) }
{
    let mut update = Vec::new(alloc);
    server.compose(&mut update)?;
    to_viewer.write_all(&update)?;
    Ok(())
}

/// The viewer cuts a text; its message is in flight, if it was not refused. An error comes only
/// where it was not, and the message may be lost then.
pub fn cut_text(
    alloc: Global,
    viewer: &Viewer,
    text: &Vec<u8>,
    to_server: &mut VecDeque<u8>,
) -> Result<Option<Refused>, Fault>
    requires few { length text.now.items ≤ 1048576 }
    // What is answered, and what is in flight then.
    ensures told { IfOk result (λ refused. (viewing : Viewing) (s : ViewerState) (prefix : List ℕ)
        → StandsFor viewing viewer.now s prefix → refused ≡ refused_as (call_refusal s)) }
    ensures sent { IfOk result (λ refused. refused ≡ None →
        to_server.new.items ≡ to_server.old.items ++ text_message text.now.items) }
    ensures kept { IfOk result (λ refused. refused ≢ None → to_server.new ≡ to_server.old) }

    // A viewer that has failed refuses it, and what is refused asks for no memory.
    ensures failed { fault_of viewer.now ≢ None → result ≡ Ok (Some NotReady) }
    ensures stopped { OnErr result ((viewing : Viewing) (s : ViewerState) (prefix : List ℕ)
        → StandsFor viewing viewer.now s prefix → call_refusal s ≡ None) }
{
    let mut message = Vec::new(alloc);
    match viewer.cut_text(text, &mut message) {
        Ok(()) => {
            to_server.write_all(&message)?;
            Ok(None)
        }
        Err(TextFault::NotReady) => Ok(Some(Refused::NotReady)),
        Err(TextFault::NoMemory) => Err(Fault::NoMemory),
    }
}

/// The message of a call is in flight, if the viewer did not refuse it. An error comes only where
/// it did not, and the message may be lost then.
pub fn send<const N: usize>(
    called: Result<[u8; N], CallFault>,
    to_server: &mut VecDeque<u8>,
) -> Result<Option<Refused>, Fault>
    ensures taken { IfOk called.entry (λ message. IfOk result (λ refused. refused ≡ None)) }
    ensures sent { IfOk called.entry (λ message. OnOk result
        (to_server.new.items ≡ to_server.old.items ++ message)) }
    ensures refused { IfErr called.entry (λ fault. result ≡ Ok (refused_as (Some fault))) }
    ensures kept { OnErr called.entry (to_server.new ≡ to_server.old) }
{
    match called {
        Ok(message) => {
            to_server.write_all(&message)?;
            Ok(None)
        }
        Err(fault) => Ok(Some(Refused::from(fault))),
    }
}

/// The same of a list of encodings.
pub fn send_list(
    called: &Result<ArrayVec<u8, 20>, CallFault>,
    to_server: &mut VecDeque<u8>,
) -> Result<Option<Refused>, Fault>
    ensures taken { IfOk called.now (λ message. IfOk result (λ refused. refused ≡ None)) }
    ensures sent { IfOk called.now (λ message. OnOk result
        (to_server.new.items ≡ to_server.old.items ++ message.items)) }
    ensures refused { IfErr called.now (λ fault. result ≡ Ok (refused_as (Some fault))) }
    ensures kept { OnErr called.now (to_server.new ≡ to_server.old) }
{
    match called {
        Ok(message) => {
            to_server.write_all(message.as_slice())?;
            Ok(None)
        }
        Err(fault) => Ok(Some(Refused::from(*fault))),
    }
}

/// Why a drawing was refused, if it was.
pub fn of_drawing(drawing: Result<(), Outside>) -> Option<Refused>
    ensures { result ≡ refused_by drawing }
{
    match drawing {
        Ok(()) => None,
        Err(Outside) => Some(Refused::Outside),
    }
}
