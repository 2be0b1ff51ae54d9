//! What is found of one session or of two, each of its own viewer of one screen.

ghost use Rattle.rfb_server.specs.KnownScreen.{Follows};

use crate::Session;
use rfb_picture::Picture;
use rfb_pixel::Colour;
use std::alloc::Global;

// Whether it composes exactly these bytes.
pub(super) fn sends(
    session: &mut Session,
    screen: &Picture<Colour>,
    alloc: Global,
    bytes: &[u8],
) -> bool
    requires { Follows screen.now session.old }
    ensures { Follows screen.now session.new }
{
    let mut out = Vec::new(alloc);
    session.compose(screen, &mut out) == Ok(true) && out.as_slice() == bytes
}

// Whether it composes exactly these bytes, and a twin of it takes them over. Neither asks for
// anything any more, so they are no twins though both know the same.
pub(super) fn sends_both(
    one: &mut Session,
    twin: &mut Session,
    screen: &Picture<Colour>,
    alloc: Global,
    bytes: &[u8],
) -> bool
    requires follows { Follows screen.now one.old }
    requires follows_too { Follows screen.now twin.old }
    ensures follows { Follows screen.now one.new }
    ensures follows_too { Follows screen.now twin.new }
{
    if !twin.is_twin_of(one, false) {
        return false;
    }
    let mut out = Vec::new(alloc);
    match one.compose(screen, &mut out) {
        Ok(true) => {
            twin.take_over(screen, one);
            out.as_slice() == bytes && !twin.is_twin_of(one, true)
        }
        _ => false,
    }
}

// Whether an update for the one is one for the other too: found by what both know, and then by the
// word that it is the same.
pub(super) fn are_twins(one: &Session, twin: &Session, screen: &Picture<Colour>) -> bool
    requires follows { Follows screen.now one.now }
    requires follows_too { Follows screen.now twin.now }
{
    twin.is_twin_of(one, false) && twin.is_twin_of(one, true)
}

// Whether the viewer asks for the first place, and is known to have that there.
pub(super) fn stands(session: &Session, asked: bool, has: Option<u32>) -> bool {
    asks(session) == asked && known(session) == has && session.knows_first() == has.is_some()
}

// Whether it asks for the first place.
fn asks(session: &Session) -> bool {
    let area = session.asked();
    area.width() > 0 && area.height() > 0 && area.is_asked(0, 0)
}

// What the viewer is known to have at the first place.
fn known(session: &Session) -> Option<u32> {
    let known = session.known();
    let pixels = session.recorded();
    if known.width() > 0
        && known.height() > 0
        && pixels.width() > 0
        && pixels.height() > 0
        && known.is_asked(0, 0)
    {
        Some(pixels.at(0, 0))
    } else {
        None
    }
}
