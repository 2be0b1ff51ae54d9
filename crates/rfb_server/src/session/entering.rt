//! A session that has the memory of its places at last.

ghost use Rattle.std.specs.Prelude.{◌≡◌};
ghost use Rattle.rfb_server.specs.Late.{entered};
ghost use Rattle.rfb_server.specs.session.Ended.{progress_at};
ghost use Rattle.rfb_server.specs.session.NewSession.{IsMoved};
ghost use Rattle.rfb_server.specs.session.Marks.{AreUntouched};

use crate::encodings::EncodingList;
use crate::fault::ServerFault;
use crate::late::entrance::Entrance;
use crate::session::Session;
use crate::session::input::progress::Progress;
use crate::session::places::Places;
use rfb_codec::Block;
use rfb_pixel::Format;

impl Session {
    /// The session that an entrance is, with memory for its places. Nothing is known or asked of
    /// them yet.
    pub(crate) fn entering(entrance: Entrance, places: Places) -> Session
        requires { AreUntouched entrance.width entrance.height places.known places.area
            places.marks }
        ensures { IsMoved (entered entrance) result }
    {
        Session {
            alloc: entrance.alloc,
            hello: entrance.hello,
            progress: progress_at(entrance.ended),
            text_limit: entrance.text_limit,
            format: Format::rgb888(),
            encodings: EncodingList::new(),
            known: places.known,
            area: places.area,
            marks: places.marks,
            hints: entrance.hints,
            claim: None,
            block: Block::single(0),
        }
    }
}

// How far a session is that has no memory for its places.
fn progress_at(ended: Option<ServerFault>) -> Progress
    ensures { result ≡ progress_at ended }
{
    match ended {
        None => Progress::Handshake,
        Some(fault) => Progress::Failed(fault),
    }
}
