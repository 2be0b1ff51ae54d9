//! A viewer whose picture is shown to others.

ghost use Rattle.std.specs.Prelude.{◌≡◌, ◌≤◌, [], length, Some, None, IfOk, IfErr};
ghost use Rattle.rfb_viewer.specs.Call.{text_in};
ghost use Rattle.rfb_viewer.specs.Damage.{damage_of, ended_of, IsSameOutside};
ghost use Rattle.rfb_viewer.specs.Moved.{moved_of};
ghost use Rattle.rfb_viewer.specs.Model.{picture_of};
ghost use Rattle.rfb_session.specs.Mirrors.{seen_by, StandsOrFailed, TakesBytes, FailsAt};
ghost use Rattle.rfb_session.specs.Mirrors.{KeepsViewing, MakesCall};

use arrayvec::ArrayVec;
use rfb_hello::Fed;
use rfb_picture::{Picture, Rect};
use rfb_pixel::Colour;
use rfb_viewer::{AppendFault, Call, MAX_MOVES, Move, Viewer, ViewerEvent, ViewerFault};

/// A viewer that has a picture. It stands for what the server's bytes led to, or it has failed.
#[derive(Debug, Drop)]
pub(crate) struct Mirror {
    viewer: Viewer,
    ghost shown: { picture_of viewer ≡ Some (seen_by viewer) },
    ghost stands: { ∥ StandsOrFailed viewer ∥₁ },
}

impl Mirror {
    /// The mirror of a viewer, which is given back where it has no picture.
    pub(crate) fn of(viewer: Viewer) -> Result<Mirror, Viewer>
        requires stands { ∥ StandsOrFailed viewer ∥₁ }
        ensures made { IfOk result (λ mirror. mirror.viewer ≡ viewer) }
        ensures back { IfErr result (λ same. same ≡ viewer) }
        ensures none { IfErr result (λ same. picture_of viewer ≡ None) }
    {
        if viewer.picture().is_none() {
            return Err(viewer);
        }
        Ok(Mirror { viewer })
    }

    /// Lends the viewer.
    pub(crate) fn viewer(&self) -> &Viewer
        ensures { result.now ≡ self.now.viewer }
    {
        &self.viewer
    }

    /// Lends the picture.
    pub(crate) fn picture(&self) -> &Picture<Colour>
        ensures { result.now ≡ seen_by self.now.viewer }
    {
        match self.viewer.picture() {
            Some(picture) => picture,
            None => unreachable!(),
        }
    }

    /// The viewer takes bytes of its server's. The picture keeps its size, and changes only where
    /// the viewer's damage is.
    pub(crate) fn feed(&mut self, bytes: &[u8]) -> Result<Fed<ViewerEvent>, ViewerFault>
        ensures takes { IfOk result (λ fed.
            TakesBytes self.old.viewer bytes.now fed self.new.viewer) }
        ensures fails { IfErr result (λ fault.
            FailsAt self.old.viewer bytes.now fault self.new.viewer) }
        ensures outside { IsSameOutside (damage_of self.new.viewer)
            (Some (seen_by self.old.viewer)) (Some (seen_by self.new.viewer)) }
        ensures columns { (seen_by self.new.viewer).width ≡ (seen_by self.old.viewer).width }
        ensures rows { (seen_by self.new.viewer).height ≡ (seen_by self.old.viewer).height }
    {
        self.viewer.feed(bytes)
    }

    /// Where the picture changed since this was asked last, as `Viewer::damage` gives it.
    pub(crate) fn damage(&mut self) -> Option<Rect>
        ensures value { result ≡ damage_of self.old.viewer }
        ensures cleared { ended_of self.new.viewer ≡ None }
        ensures moved { moved_of self.new.viewer ≡ moved_of self.old.viewer }
        ensures keeps { KeepsViewing self.old.viewer self.new.viewer }
    {
        self.viewer.damage()
    }

    /// The copies within the picture since this was asked last, as `Viewer::moved` gives them.
    pub(crate) fn moved(&mut self) -> ArrayVec<Move, MAX_MOVES>
        ensures value { result.items ≡ moved_of self.old.viewer }
        ensures cleared { moved_of self.new.viewer ≡ [] }
        ensures ended { ended_of self.new.viewer ≡ ended_of self.old.viewer }
        ensures keeps { KeepsViewing self.old.viewer self.new.viewer }
    {
        self.viewer.moved()
    }

    /// A call of the viewer's, as `Viewer::append` makes it. The picture stays.
    pub(crate) fn append(&mut self, call: &Call<'_>, out: &mut Vec<u8>) -> Result<(), AppendFault>
        requires few { length (text_in call.now) ≤ 1048576 }
        ensures makes { MakesCall self.old.viewer call.now out.old.items result out.new.items
            self.new.viewer }
        ensures shown { seen_by self.new.viewer ≡ seen_by self.old.viewer }
    {
        self.viewer.append(call, out)
    }

    /// Gives the viewer back.
    pub(crate) fn into_viewer(self) -> Viewer
        ensures { result ≡ self.viewer }
    {
        self.viewer
    }
}
