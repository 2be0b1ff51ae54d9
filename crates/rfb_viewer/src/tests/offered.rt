//! The security types that a server offered, as a viewer lends them.

use super::play::fault_at;
use super::*;
use crate::ViewerFault;
use rfb_hello::Offered;

fn is_listed(viewer: &Viewer, types: &[u8]) -> bool {
    match viewer.offered() {
        Offered::Listed(listed) => listed.as_slice() == types,
        Offered::Nothing | Offered::Chosen(_) => false,
    }
}

// Whether a server of 3.8 that sends this list is answered or refused so, and its types are lent.
fn lists(alloc: Global, list: &[u8], fault: Option<ViewerFault>, types: &[u8]) -> bool {
    let mut viewer = viewer(alloc, Format::rgb888(), Version::V38);
    let greeted = fault_at(&mut viewer, b"RFB 003.008\n").is_none();
    greeted && fault_at(&mut viewer, list) == fault && is_listed(&viewer, types)
}

#[test]
fn a_list_is_lent_that_is_taken_and_one_that_is_refused(rt: HostRuntime) {
    let refused = Some(ViewerFault::NoneNotOffered);
    assert!(rt; lists(rt.alloc(), b"\x02\x13\x01", None, b"\x13\x01"));
    assert!(rt; lists(rt.alloc(), b"\x03\x02\x10\x13", refused, b"\x02\x10\x13"));
}
