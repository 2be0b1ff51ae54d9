//! What is sent for the events of an end: its answers, and for others nothing.

ghost use Rattle.std.specs.Prelude.{◌≡◌};
ghost use Rattle.rfb_server.specs.Told.{seen as seen_by_server};
ghost use Rattle.rfb_viewer.specs.Told.{seen as seen_by_viewer};
ghost use Rattle.rfb_session.specs.InFlight.{server_reply as reply_of_server};
ghost use Rattle.rfb_session.specs.InFlight.{viewer_reply as reply_of_viewer};

use rfb_server::ServerEvent;
use rfb_viewer::ViewerEvent;

/// Lends the bytes that are to be sent for an event of a server, if there is one.
pub fn server_reply(event: &Option<ServerEvent>) -> &[u8]
    ensures { result.now ≡ reply_of_server (seen_by_server event.now) }
{
    match event {
        Some(event) => event.reply(),
        None => &[],
    }
}

/// Lends the bytes that are to be sent for an event of a viewer, if there is one.
pub fn viewer_reply(event: &Option<ViewerEvent>) -> &[u8]
    ensures { result.now ≡ reply_of_viewer (seen_by_viewer event.now) }
{
    match event {
        Some(event) => event.reply(),
        None => &[],
    }
}
