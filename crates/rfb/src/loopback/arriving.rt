//! Bytes that arrive at an end, and what it answers.

ghost use Rattle.std.specs.Prelude.{◌≡◌, ◌≢◌, ◌≤◌, ◌++◌, drop, take, IfOk, OnOk};
ghost use Rattle.rfb_server.specs.declared.fault.ServerFault.TheVariants as ServerFault;
ghost use Rattle.rfb_viewer.specs.declared.fault.ViewerFault.TheVariants as ViewerFault;
ghost use Rattle.rfb.specs.Delivery.{Hears, ReachesServer, ReachesViewer, Watches, server_end};
ghost use Rattle.rfb.specs.Delivery.{viewer_end};

use crate::fault::Fault;
use crate::loopback::link::{Link, PART, carry};
use rfb_server::{Server, ServerFault};
use rfb_session::{server_reply, viewer_reply};
use rfb_viewer::{Viewer, ViewerFault};
use std::collections::VecDeque;
use std::io::{Read, Write};

/// Takes some of the bytes in flight, at most `most` and at most a part.
pub fn take_some(
    in_flight: &mut VecDeque<u8>,
    most: usize,
    part: &mut [u8; PART],
) -> Result<usize, Fault>
    requires some { 1 ≤ most }
    ensures count { IfOk result (λ taken. (1 ≤ taken) × (taken ≤ most) × (taken ≤ 4096)) }
    ensures taken { IfOk result (λ taken. in_flight.new.items ≡ drop taken in_flight.old.items) }
    ensures part { IfOk result (λ taken.
        in_flight.old.items ≡ take taken part.new ++ in_flight.new.items) }
{
    let wanted = most.min(PART);
    let taken = in_flight.read(&mut part[..wanted])?;
    if taken == 0 {
        return Err(Fault::Device);
    }
    Ok(taken)
}

/// Sends these bytes over the connection, and feeds the server what comes there in their place.
pub fn reach_server<C: Read + Write>(
    bytes: &mut [u8],
    link: &mut Link<C>,
    server: &mut Server,
    to_viewer: &mut VecDeque<u8>,
) -> Result<(), Fault>
    ensures { OnOk result (ReachesServer bytes.old
        (C.contents (viewer_end link.old)) (C.contents (viewer_end link.new))
        (C.remaining (server_end link.old)) (C.remaining (server_end link.new))
        server.old to_viewer.old.items to_viewer.new.items server.new) }
{
    carry(bytes, &mut link.viewer, &mut link.server)?;
    hear(bytes, server, to_viewer)
}

/// The same the other way.
pub fn reach_viewer<C: Read + Write>(
    bytes: &mut [u8],
    link: &mut Link<C>,
    viewer: &mut Viewer,
    to_server: &mut VecDeque<u8>,
) -> Result<(), Fault>
    ensures { OnOk result (ReachesViewer bytes.old
        (C.contents (server_end link.old)) (C.contents (server_end link.new))
        (C.remaining (viewer_end link.old)) (C.remaining (viewer_end link.new))
        viewer.old to_server.old.items to_server.new.items viewer.new) }
{
    carry(bytes, &mut link.server, &mut link.viewer)?;
    watch(bytes, viewer, to_server)
}

// Feeds the server all of these bytes, and its answers are in flight. One that has failed takes
// them to no effect.
fn hear(bytes: &[u8], server: &mut Server, to_viewer: &mut VecDeque<u8>) -> Result<(), Fault>
    ensures { OnOk result
        (Hears server.old bytes.now to_viewer.old.items to_viewer.new.items server.new) }
{
    let mut rest = bytes;
    while !rest.is_empty() {
        match server.feed(rest) {
            Ok(fed) => {
                to_viewer.write_all(server_reply(&fed.event))?;
                rest = &rest[fed.used..];
            }
            Err(fault) => return end_of_server(fault),
        }
    }
    Ok(())
}

// The same of the viewer.
fn watch(bytes: &[u8], viewer: &mut Viewer, to_server: &mut VecDeque<u8>) -> Result<(), Fault>
    ensures { OnOk result
        (Watches viewer.old bytes.now to_server.old.items to_server.new.items viewer.new) }
{
    let mut rest = bytes;
    while !rest.is_empty() {
        match viewer.feed(rest) {
            Ok(fed) => {
                to_server.write_all(viewer_reply(&fed.event))?;
                rest = &rest[fed.used..];
            }
            Err(fault) => return end_of_viewer(fault),
        }
    }
    Ok(())
}

// A fault of its bytes ends the server alone, and want of memory the script.
fn end_of_server(fault: ServerFault) -> Result<(), Fault>
    ensures { OnOk result (fault ≢ ServerFault.NoMemory) }
{
    match fault {
        ServerFault::NoMemory => Err(Fault::NoMemory),
        _ => Ok(()),
    }
}

// The same of the viewer.
fn end_of_viewer(fault: ViewerFault) -> Result<(), Fault>
    ensures { OnOk result (fault ≢ ViewerFault.NoMemory) }
{
    match fault {
        ViewerFault::NoMemory => Err(Fault::NoMemory),
        _ => Ok(()),
    }
}
