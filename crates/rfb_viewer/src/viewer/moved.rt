//! The copies within a viewer's picture: the latest CopyRect rectangles of updates.

ghost use Rattle.std.specs.Prelude.{◌≡◌, ℕ, List, []};
ghost use Rattle.rfb_codec.specs.Stage.{copied_from};
ghost use Rattle.rfb_viewer.specs.Moved.{moved_if};

use crate::viewer::Viewer;
use arrayvec::ArrayVec;
use rfb_codec::Painter;
use rfb_picture::Rect;
use std::mem;

/// How many copies a viewer keeps until it is asked for them.
pub const MAX_MOVES: usize = 16;

/// A copy within a picture, RFC 6143 section 7.7.2: a rectangle got what the one of its size with
/// its corner at column `sx` and row `sy` had.
#[derive(Clone, Copy, Debug, PartialEq, Eq)]
pub struct Move {
    pub to: Rect,
    pub sx: u16,
    pub sy: u16,
}

impl Default for Move {
    fn default() -> Move {
        Move {
            to: Rect::new(0, 0, 0, 0),
            sx: 0,
            sy: 0,
        }
    }
}

/// Keeps the copy that a rectangle was, once it is painted. One of another encoding is none.
pub(crate) fn keep_move(moved: &mut ArrayVec<Move, MAX_MOVES>, painter: &Painter)
    ensures { moved.new.items
        ≡ moved_if moved.old.items painter.now.rect (copied_from painter.now.stage) }
{
    let Some((sx, sy)) = painter.copied_from() else {
        return;
    };
    if moved.is_full() {
        moved.remove(0);
    }
    moved.push(Move {
        to: painter.rect(),
        sx,
        sy,
    });
}

impl Viewer {
    ghost use Rattle.rfb_viewer.specs.Viewer.{Viewing, ViewerState};
    ghost use Rattle.rfb_viewer.specs.Model.{StandsFor, KeepsRest, picture_of};
    ghost use Rattle.rfb_viewer.specs.Damage.{damage_of, ended_of};
    ghost use Rattle.rfb_viewer.specs.Moved.{moved_of};

    /// The last sixteen copies within the picture, RFC 6143 section 7.7.2, since this was asked
    /// last, the oldest first. A copy counts once its rectangle is painted, one without a place
    /// too. What is painted before, between and after them is not told: who shows the picture
    /// elsewhere copies there what these name, and then paints `damage` from the picture. After a
    /// fault it answers as before.
    pub fn moved(&mut self) -> ArrayVec<Move, MAX_MOVES>
        ensures value { result.items ≡ moved_of self.old }

        // What it leaves.
        ensures cleared { moved_of self.new ≡ [] }
        ensures stands { (viewing : Viewing) (s : ViewerState) (prefix : List ℕ)
            → StandsFor viewing self.old s prefix → StandsFor viewing self.new s prefix }
        ensures picture { picture_of self.new ≡ picture_of self.old }
        ensures keeps { KeepsRest self.old self.new }
        ensures damage { damage_of self.new ≡ damage_of self.old }
        ensures ended { ended_of self.new ≡ ended_of self.old }
    {
        mem::replace(&mut self.moved, ArrayVec::new())
    }
}
