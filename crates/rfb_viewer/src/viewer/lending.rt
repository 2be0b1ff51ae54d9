//! What a viewer lends and answers: its picture, the server's reason and security types, and how
//! far the bytes have come.

ghost use Rattle.std.specs.Prelude.{◌≡◌, ◌≢◌, ◌<◌, ℕ, List, [], false, None, option_copied};
ghost use Rattle.rfb_viewer.specs.ServerBytes.{is_between, server_bytes_pending};
ghost use Rattle.rfb_viewer.specs.ShownPieces.{Shows};
ghost use Rattle.rfb_viewer.specs.steps.Sound.{is_idle};
ghost use Rattle.rfb_viewer.specs.Viewer.{Viewing, ViewerState};

use crate::viewer::Viewer;
use crate::viewer::progress::Progress;
use rfb_hello::Offered;
use rfb_picture::Picture;
use rfb_pixel::Colour;

// How many bytes a colour of SetColorMapEntries has, RFC 6143 section 7.6.2.
const COLOUR_SIZE: u32 = 6;

impl Viewer {
    ghost use Rattle.rfb_viewer.specs.Model.{StandsFor, fault_of, picture_of, reason_of};
    ghost use Rattle.rfb_viewer.specs.Model.{offered_of, taken_of};

    /// What the viewer shows, once there is a screen. Between two items it is the picture; of a
    /// rectangle under way it shows the whole pieces that came. It stays after a fault.
    pub fn picture(&self) -> Option<&Picture<Colour>>
        ensures value { option_copied result ≡ picture_of self.now }
        ensures shows { (viewing : Viewing) (s : ViewerState) (prefix : List ℕ)
            → StandsFor viewing self.now s prefix → Shows s prefix (option_copied result) }
    {
        self.picture.as_ref()
    }

    /// What is kept of the reason that the server gave, after `Refused` and `SecurityFailed`;
    /// before a fault no bytes. What they are encoded in is the server's matter.
    pub fn reason(&self) -> &[u8]
        ensures value { result.now ≡ reason_of self.now }
        ensures none { (viewing : Viewing) (s : ViewerState) (prefix : List ℕ)
            → StandsFor viewing self.now s prefix → result.now ≡ [] }
    {
        self.hello.reason()
    }

    /// The security types that the server offered, RFC 6143 section 7.1.2: nothing until all of
    /// them have come, and from then on exactly these, also after a fault. After `NoneNotOffered`
    /// and `BadSecurityWord` they are those that were refused.
    pub fn offered(&self) -> &Offered
        ensures { result.now ≡ offered_of self.now }
    {
        self.hello.offered()
    }

    /// Whether the server's bytes end between two messages: the handshake is done, no message has
    /// begun, no rectangle is left of an update, and no fault was returned.
    pub fn between(&self) -> bool
        ensures value { (viewing : Viewing) (s : ViewerState) (prefix : List ℕ)
            → StandsFor viewing self.now s prefix → result ≡ is_between s.point prefix }
        ensures failed { fault_of self.now ≢ None → result ≡ false }
    {
        self.is_idle()
    }

    /// How many bytes are pending: those of the server's item under way after its last whole piece.
    /// It holds no others, but security types and the first bytes of a text.
    pub fn pending(&self) -> usize
        ensures value { (viewing : Viewing) (s : ViewerState) (prefix : List ℕ)
            → StandsFor viewing self.now s prefix
            → result ≡ server_bytes_pending s.point prefix }
        ensures few { result < 1536 }
        ensures failed { fault_of self.now ≢ None → result ≡ 0 }
    {
        match &self.progress {
            Progress::Handshake => self.hello.pending(),
            Progress::Head(part) => part.len(),
            Progress::RectHead { head, .. } => head.len(),
            Progress::Data { painter, .. } => painter.pending(),
            Progress::Colours { more } => (COLOUR_SIZE - 1 - *more % COLOUR_SIZE) as usize,
            Progress::CutText { .. } | Progress::Failed(_) => 0,
        }
    }

    /// How many bytes `feed` has used in all, as far as 64 bits go. After a fault they are those up
    /// to the byte with which it came: the first with which the bytes are refused.
    pub fn taken(&self) -> u64
        ensures { result ≡ taken_of self.now }
    {
        self.taken
    }

    // Whether the server's bytes end between two messages.
    fn is_idle(&self) -> bool
        ensures { result ≡ is_idle self.now.progress }
    {
        match &self.progress {
            Progress::Head(part) => part.len() == 0,
            _ => false,
        }
    }
}
