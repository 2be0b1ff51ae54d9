//! What ends are made with where nothing else is said.

ghost use Rattle.std.specs.Prelude.{◌≡◌, ◌∷◌, [], IfOk};
ghost use Rattle.rfb_wire.specs.declared.encoding.Encoding.TheVariants.{CopyRect, Hextile};
ghost use Rattle.rfb_wire.specs.declared.encoding.Encoding.TheVariants.{Raw, Rre};
ghost use Rattle.rfb.specs.ScriptRun.{IsFreshServer};
ghost use Rattle.rfb_session.specs.relay.Setup.{viewing_by};
ghost use Rattle.rfb.specs.Recording.{IsFresh, viewing_of};

use arrayvec::ArrayVec;
use rfb_hello::Version;
use rfb_pixel::Format;
use rfb_server::{Server, ServerSetup};
use rfb_session::language::Screen;
use rfb_viewer::{Viewer, ViewerSetup};
use rfb_wire::Encoding;
use std::alloc::{AllocError, Global};

/// How many bytes of a text each end keeps.
pub const TEXT_LIMIT: u32 = 1024;

/// How many places of a screen a viewer admits: those of the largest one.
pub const MAX_PLACES: u32 = 16_777_216;

/// The loopback address.
pub const LOOPBACK: &str = "127.0.0.1";

/// The seconds that a viewer's handshake has.
pub const HANDSHAKE_SECONDS: u32 = 10;

/// The seconds that a scene, or an update of a server that is relayed, has before it is shown.
pub const HOLD_SECONDS: u32 = 1;

/// The seconds that a line of a rig has.
pub const LINE_SECONDS: u32 = 30;

/// A server of version 3.8 with a black screen that is named `rfb`.
pub fn fresh_server(alloc: Global, screen: Screen) -> Result<Server, AllocError>
    ensures { IfOk result (λ server. IsFreshServer screen server) }
{
    let setup = ServerSetup {
        width: screen.width,
        height: screen.height,
        name: b"rfb",
        offer: Version::V38,
        text_limit: TEXT_LIMIT,
    };
    Server::of(alloc, setup)
}

/// A viewer of version 3.8 that asks for a shared screen, in these encodings, the best first.
pub fn fresh_viewer(alloc: Global, format: Format, encodings: ArrayVec<Encoding, 4>) -> Viewer
    ensures { IsFresh format encodings.items result }
{
    Viewer::of(alloc, viewer_setup(format, encodings))
}

/// What such a viewer is made with.
pub fn viewer_setup(format: Format, encodings: ArrayVec<Encoding, 4>) -> ViewerSetup
    ensures { viewing_by result ≡ viewing_of format encodings.items }
{
    ViewerSetup {
        format,
        encodings,
        limit: Version::V38,
        shared: true,
        max_places: MAX_PLACES,
        text_limit: TEXT_LIMIT,
    }
}

/// The same encodings.
pub fn copy_of(encodings: &ArrayVec<Encoding, 4>) -> ArrayVec<Encoding, 4>
    ensures { result.items ≡ encodings.now.items }
{
    let mut copy = ArrayVec::new();
    match copy.try_extend_from_slice(encodings.as_slice()) {
        Ok(()) => copy,
        Err(_) => unreachable!(),
    }
}

/// All that there are: those that take few bytes to pass on first.
pub fn all_encodings() -> ArrayVec<Encoding, 4>
    ensures { result.items ≡ CopyRect ∷ Hextile ∷ Rre ∷ Raw ∷ [] }
{
    let mut encodings = ArrayVec::new();
    encodings.push(Encoding::CopyRect);
    encodings.push(Encoding::Hextile);
    encodings.push(Encoding::Rre);
    encodings.push(Encoding::Raw);
    encodings
}

/// Raw alone.
pub fn only_raw() -> ArrayVec<Encoding, 4>
    ensures { result.items ≡ Raw ∷ [] }
{
    let mut encodings = ArrayVec::new();
    encodings.push(Encoding::Raw);
    encodings
}
