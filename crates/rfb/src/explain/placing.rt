//! Where a recording goes wrong.

use crate::explain::Early;
use rfb_session::EngineFault;
use rfb_viewer::ViewerFault;
use std::io::Write;

/// Says with which `byte` of a recording it went wrong, after how many whole updates, and what may
/// be the reason, once the handshake is done.
pub fn tell_place<N: Write>(fault: EngineFault, byte: u64, came: Early, notes: &mut N) {
    let _ = writeln!(
        notes,
        "rfb: that is at byte {byte}; whole updates before it: {}",
        came.updates
    );
    if came.is_ready && is_of_another_format(fault) {
        let _ = writeln!(
            notes,
            "rfb: a recording in another format than the one of --format reads like that"
        );
    }
}

// Whether data of another pixel size read like that.
fn is_of_another_format(fault: EngineFault) -> bool {
    match fault {
        EngineFault::Viewer(fault) => match fault {
            ViewerFault::UnknownMessage(_)
            | ViewerFault::UnknownEncoding(_)
            | ViewerFault::RectOutside
            | ViewerFault::SubrectOutside
            | ViewerFault::NoBackground
            | ViewerFault::NoForeground
            | ViewerFault::BothColourBits
            | ViewerFault::SourceOutside => true,
            _ => false,
        },
        EngineFault::Truncated => true,
        EngineFault::Server(_) | EngineFault::Device | EngineFault::NoMemory => false,
    }
}
