//! How far the owner's bytes have come.

ghost use Rattle.rfb_session.specs.owner.Reader.{Advances, IsFresh};
ghost use Rattle.rfb_session.specs.owner.Lines.{IsOneLine};
ghost use Rattle.rfb_session.specs.declared.owner.stage.Stage.TheVariants as Stage;

use crate::owner::order::Refusal;
use crate::owner::pixels::Pixels;
use arrayvec::ArrayVec;

/// A line that is longer says nothing.
pub const LINE_MAX: usize = 96;

/// How far the bytes have come, from the end of what was read last on.
#[derive(Drop)]
pub enum Stage {
    /// In a line. These bytes of it have come.
    Line(ArrayVec<u8, LINE_MAX>),
    /// After a line of pixels, in their bytes or at their end.
    Pixels(Pixels),
    /// In what is refused: this many bytes of pixels come yet, and all up to a newline.
    Refused(u64, Refusal),
}

impl Stage {
    /// Nothing has come.
    pub fn new() -> Stage
        ensures { IsFresh result }
    {
        Stage::Line(ArrayVec::new())
    }
}

/// More bytes of a line have come, none of them its newline.
pub fn longer(mut line: ArrayVec<u8, LINE_MAX>, more: &[u8]) -> Stage
    requires { IsOneLine more.now }
    ensures { Advances (Stage.Line line) more.now result }
{
    match line.try_extend_from_slice(more) {
        Ok(()) => Stage::Line(line),
        Err(_) => Stage::Refused(0, Refusal::Bad),
    }
}
