//! The security types that a server offered, as they are lent.

use super::ends::{offered_of, viewer_fault, viewer_of};
use crate::{HelloFault, Offered, Version, ViewerHello};
use std::alloc::Global;

// A count of 255 types, and then types that are one but for the last.
fn longest() -> [u8; 256] {
    let mut bytes = [2; 256];
    bytes[0] = 255;
    bytes[255] = 19;
    bytes
}

// What a server of 3.3 chooses, RFC 6143 Appendix A, and the fault of it.
const CHOICES: [([u8; 4], u32, Option<HelloFault>); 4] = [
    ([0, 0, 0, 1], 1, None),
    ([0, 0, 0, 2], 2, Some(HelloFault::NoneNotOffered)),
    ([0, 0, 0, 19], 19, Some(HelloFault::BadSecurityWord)),
    ([1, 0, 0, 1], 0x0100_0001, Some(HelloFault::BadSecurityWord)),
];

// A viewer's end that was fed a server's version.
fn greeted(alloc: Global, version: &[u8]) -> ViewerHello {
    let mut hello = viewer_of(alloc, Version::V38, 64, 16);
    let _none = viewer_fault(&mut hello, version);
    hello
}

// The fault of these slices, if there is one.
fn fault_of(hello: &mut ViewerHello, slices: &[&[u8]]) -> Option<HelloFault> {
    let mut fault = None;
    for slice in slices {
        fault = viewer_fault(hello, slice);
    }
    fault
}

fn is_listed(hello: &ViewerHello, types: &[u8]) -> bool {
    match offered_of(hello) {
        Offered::Listed(listed) => listed.as_slice() == types,
        Offered::Nothing | Offered::Chosen(_) => false,
    }
}

fn is_chosen(hello: &ViewerHello, number: u32) -> bool {
    match offered_of(hello) {
        Offered::Chosen(chosen) => *chosen == number,
        Offered::Nothing | Offered::Listed(_) => false,
    }
}

fn is_nothing(hello: &ViewerHello) -> bool {
    matches!(offered_of(hello), Offered::Nothing)
}

// Whether the end lends such a list after these slices, and nothing before the last one.
fn lists(
    alloc: Global,
    front: &[&[u8]],
    last: &[u8],
    fault: Option<HelloFault>,
    types: &[u8],
) -> bool {
    let mut hello = greeted(alloc, b"RFB 003.008\n");
    let early = fault_of(&mut hello, front).is_some() || !is_nothing(&hello);
    let good = viewer_fault(&mut hello, last) == fault && is_listed(&hello, types);
    drop(hello);
    good && !early
}

#[test]
fn a_list_is_lent_once_its_last_type_has_come(rt: HostRuntime) {
    let refused = Some(HelloFault::NoneNotOffered);
    assert!(rt; lists(rt.alloc(), &[&[3, 2], &[16]], &[19], refused, &[2, 16, 19]));
    assert!(rt; lists(rt.alloc(), &[&[3, 2, 1]], &[19], None, &[2, 1, 19]));
    assert!(rt; lists(rt.alloc(), &[], &[1, 19], refused, &[19]));
}

#[test]
fn a_list_of_255_is_lent_whole(rt: HostRuntime) {
    let refused = Some(HelloFault::NoneNotOffered);
    let bytes = longest();
    let (front, last) = bytes.split_at(100);
    assert!(rt; lists(rt.alloc(), &[], &bytes, refused, &bytes[1..]));
    assert!(rt; lists(rt.alloc(), &[front], last, refused, &bytes[1..]));
}

fn chooses(alloc: Global, word: &[u8], number: u32, fault: Option<HelloFault>) -> bool {
    let mut hello = greeted(alloc, b"RFB 003.003\n");
    let good = viewer_fault(&mut hello, word) == fault && is_chosen(&hello, number);
    drop(hello);
    good
}

#[test]
fn the_choice_of_3_3_is_lent_whatever_it_is(rt: HostRuntime) {
    for (word, number, fault) in CHOICES {
        assert!(rt; chooses(rt.alloc(), &word, number, fault));
    }
}
