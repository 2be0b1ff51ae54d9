//! Calls of both ends without what their contracts say, so that a test of many calls is cheap to
//! prove.

use crate::server_hello::MAX_NAME;
use crate::{Fed, HelloFault, Offered, ServerHello, ServerStep, Version, ViewerHello, ViewerStep};
use std::alloc::Global;

/// A server's end of that name, if it is not too long, and else of none.
pub(crate) fn server_of(offer: Version, width: u16, height: u16, name: &[u8]) -> ServerHello {
    let kept = if name.len() <= MAX_NAME { name } else { &[] };
    ServerHello::new(offer, width, height, kept)
}

/// A viewer's end that shares the screen.
pub(crate) fn viewer_of(
    alloc: Global,
    limit: Version,
    max_places: u32,
    text_limit: u32,
) -> ViewerHello {
    ViewerHello::new(alloc, limit, true, max_places, text_limit)
}

pub(crate) fn feed_server(
    hello: &mut ServerHello,
    bytes: &[u8],
) -> Result<Fed<ServerStep>, HelloFault> {
    hello.feed(bytes)
}

pub(crate) fn feed_viewer(
    hello: &mut ViewerHello,
    bytes: &[u8],
) -> Result<Fed<ViewerStep>, HelloFault> {
    hello.feed(bytes)
}

/// The fault that bytes end in, if they do.
pub(crate) fn server_fault(hello: &mut ServerHello, bytes: &[u8]) -> Option<HelloFault> {
    hello.feed(bytes).err()
}

pub(crate) fn viewer_fault(hello: &mut ViewerHello, bytes: &[u8]) -> Option<HelloFault> {
    hello.feed(bytes).err()
}

pub(crate) fn is_server_open(hello: &ServerHello) -> bool {
    hello.is_open()
}

pub(crate) fn is_viewer_open(hello: &ViewerHello) -> bool {
    hello.is_open()
}

/// How many bytes are pending.
pub(crate) fn server_pending(hello: &ServerHello) -> usize {
    hello.pending()
}

pub(crate) fn viewer_pending(hello: &ViewerHello) -> usize {
    hello.pending()
}

/// The security types that the server offered.
pub(crate) fn offered_of(hello: &ViewerHello) -> &Offered {
    hello.offered()
}

pub(crate) fn reason_of(hello: &ViewerHello) -> &[u8] {
    hello.reason()
}
