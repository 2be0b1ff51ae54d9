//! What changed of a viewer's picture: the least rectangle that holds the rectangles of updates.

ghost use Rattle.std.specs.Prelude.{◌≡◌, ℕ, List, None};
ghost use Rattle.rfb_picture.specs.Grid.{Holds};
ghost use Rattle.rfb_viewer.specs.Damage.{joined, rect_between};

use crate::viewer::Viewer;
use crate::viewer::progress::Progress;
use rfb_picture::{Picture, Rect};
use rfb_pixel::Colour;

/// The columns from `left` up to `right`, which is the first that is not among them, and the rows
/// from `top` up to `lower`.
#[derive(Clone, Copy, Debug)]
pub(crate) struct Edges {
    pub(crate) left: u16,
    pub(crate) top: u16,
    pub(crate) right: u16,
    pub(crate) lower: u16,
}

impl Edges {
    /// The rectangle with these edges.
    pub(crate) fn rect(self) -> Rect
        ensures { result ≡ rect_between self }
    {
        Rect::new(
            self.left,
            self.top,
            self.right.saturating_sub(self.left),
            self.lower.saturating_sub(self.top),
        )
    }
}

/// Joins a rectangle of the picture to the damage. One without a place adds nothing.
pub(crate) fn join(damage: &mut Option<Edges>, rect: Rect, picture: &Picture<Colour>)
    requires { Holds picture.now rect }
    ensures { damage.new ≡ joined damage.old rect }
{
    if rect.w == 0 || rect.h == 0 {
        return;
    }
    // A picture has less than 65,536 columns and rows, so the edges are no greater.
    prove!(rect.w <= picture.width());
    prove!(rect.h <= picture.height());
    let right = rect.x + rect.w;
    let lower = rect.y + rect.h;
    *damage = Some(match *damage {
        None => Edges {
            left: rect.x,
            top: rect.y,
            right,
            lower,
        },
        Some(edges) => Edges {
            left: edges.left.min(rect.x),
            top: edges.top.min(rect.y),
            right: edges.right.max(right),
            lower: edges.lower.max(lower),
        },
    });
}

impl Viewer {
    ghost use Rattle.rfb_viewer.specs.Viewer.{Viewing, ViewerState};
    ghost use Rattle.rfb_viewer.specs.Model.{StandsFor, KeepsRest, picture_of};
    ghost use Rattle.rfb_viewer.specs.Damage.{damage_of, ended_of, rect_of_damage, joined_if};
    ghost use Rattle.rfb_viewer.specs.Damage.{begun, under_way};
    ghost use Rattle.rfb_viewer.specs.Moved.{moved_of};

    /// The least rectangle that holds those of updates, RFC 6143 section 7.6.1, that were painted
    /// since this was asked last; `None` where there was none, or none had a place. Outside of it
    /// the picture is what it was then. A rectangle under way counts with all of its places, now
    /// and at the next call. A new screen counts whole, and so does a rectangle at fault. After a
    /// fault it answers as before.
    pub fn damage(&mut self) -> Option<Rect>
        // Which it is.
        ensures value { result ≡ damage_of self.old }
        ensures told { (viewing : Viewing) (s : ViewerState) (prefix : List ℕ)
            → StandsFor viewing self.old s prefix
            → result ≡ rect_of_damage (joined_if (ended_of self.old) (begun s.point prefix)) }

        // What it leaves.
        ensures cleared { ended_of self.new ≡ None }
        ensures stands { (viewing : Viewing) (s : ViewerState) (prefix : List ℕ)
            → StandsFor viewing self.old s prefix → StandsFor viewing self.new s prefix }
        ensures picture { picture_of self.new ≡ picture_of self.old }
        ensures moved { moved_of self.new ≡ moved_of self.old }
        ensures keeps { KeepsRest self.old self.new }
    {
        let damage = self.damage_now();
        self.damage = None;
        match damage {
            None => None,
            Some(edges) => Some(edges.rect()),
        }
    }

    // The damage with the rectangle that is under way.
    fn damage_now(&self) -> Option<Edges>
        ensures { result ≡ joined_if (ended_of self.now) (under_way self.now.progress) }
    {
        let mut damage = self.damage;
        if let Progress::Data { painter, .. } = &self.progress {
            let Some(picture) = &self.picture else {
                unreachable!()
            };
            join(&mut damage, painter.rect(), picture);
        }
        damage
    }
}
