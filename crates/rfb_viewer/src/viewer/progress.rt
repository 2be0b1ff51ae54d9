//! How far a server's bytes have come in a viewer.

ghost use Rattle.std.specs.Prelude.{◌≡◌};
ghost use Rattle.rfb_viewer.specs.declared.viewer.progress.Progress.{Progress};
ghost use Rattle.rfb_viewer.specs.Model.{is_outstanding};
ghost use Rattle.rfb_viewer.specs.steps.Steps.{at_message, at_rectangle};

use crate::fault::ViewerFault;
use arrayvec::ArrayVec;
use rfb_codec::Painter;
use rfb_hello::Text;

/// How many bytes come before the last of the longest head of a server message: of ServerCutText,
/// RFC 6143 section 7.6.4.
pub(crate) const HEAD_PART: usize = 7;

/// How many bytes come before the last of a rectangle's head, section 7.6.1.
pub(crate) const RECT_HEAD_PART: usize = 11;

/// What the next bytes are.
#[derive(Debug, Drop)]
pub(crate) enum Progress {
    /// Those of a step of the handshake; the handshake's end holds what came of it.
    Handshake,
    /// Those of a message's head: what came of it.
    Head(ArrayVec<u8, HEAD_PART>),
    /// Those of a rectangle's head in an update: how many rectangles follow that one, and what came
    /// of its head.
    RectHead {
        more: u16,
        head: ArrayVec<u8, RECT_HEAD_PART>,
    },
    /// Those of a rectangle's data: how many rectangles follow it, and what paints it.
    Data {
        more: u16,
        painter: Painter,
    },
    /// Those of colours of SetColorMapEntries: how many follow the next one.
    Colours {
        more: u32,
    },
    /// Those of a text: how many it has, how many follow the next one, and what is kept of it.
    CutText {
        length: u32,
        more: u32,
        kept: Text,
    },
    /// None: the viewer has failed.
    Failed(ViewerFault),
}

/// Where a step fails: by which fault, and how many of its bytes lead there.
#[derive(Clone, Copy, Debug)]
pub(crate) struct Failure {
    pub(crate) used: usize,
    pub(crate) fault: ViewerFault,
}

/// Whether an update is asked for.
#[derive(Clone, Copy, Debug)]
pub(crate) enum Request {
    /// None is, or the one that was has come.
    Answered,
    /// A request was sent, and no update has ended since.
    Outstanding,
}

impl Request {
    /// Whether a request was sent, and no update has ended since.
    pub(crate) fn is_outstanding(self) -> bool
        ensures { result ≡ is_outstanding self }
    {
        matches!(self, Request::Outstanding)
    }
}

impl Progress {
    /// Comes to a message's head. This and the next one are calls of their own, so each writes the
    /// progress in place, and makes no value that is moved there.
    #[inline(never)]
    pub(crate) fn begin_message(&mut self)
        ensures { self.new ≡ at_message }
    {
        *self = Progress::Head(ArrayVec::new());
    }

    /// Comes to a rectangle's head, after which `more` rectangles follow.
    #[inline(never)]
    pub(crate) fn begin_rectangle(&mut self, more: u16)
        ensures { self.new ≡ at_rectangle more }
    {
        *self = Progress::RectHead {
            more,
            head: ArrayVec::new(),
        };
    }

    /// Holds a fault from now on.
    pub(crate) fn fail(&mut self, fault: ViewerFault) -> ViewerFault
        ensures value { result ≡ fault }
        ensures after { self.new ≡ Progress.Failed fault }
    {
        *self = Progress::Failed(fault);
        fault
    }
}
