//! FramebufferUpdateRequest, RFC 6143 section 7.5.3: what a viewer asks for.

ghost use Rattle.std.specs.Prelude.{◌≡◌, ◌≤◌, ◌<◌, ◌+◌, ℕ, not, true, false};
ghost use Rattle.rfb_picture.specs.Rect.{contains};
ghost use Rattle.rfb_picture.specs.Grid.{Holds};

use crate::session::Session;
use rfb_picture::Rect;

impl Session {
    ghost use Rattle.rfb_server.specs.session.Sessions.{IsAskedFor, StaysCaughtUp};

    /// The viewer asks for the part of the rectangle that lies on the screen, for whatever it has
    /// there if the request is not incremental.
    pub(crate) fn request(&mut self, incremental: bool, rect: Rect)
        ensures asked { IsAskedFor rect (not incremental) self.old self.new }
        ensures caught_up { StaysCaughtUp self.old self.new }
    {
        let part = part_of(rect, self.known.width(), self.known.height());
        if incremental {
            self.ask(part);
        } else {
            self.ask_whole(part);
        }
    }

    // Asks for the places of a rectangle on the screen.
    fn ask(&mut self, rect: Rect)
        requires { Holds self.old.known rect }
        ensures asked { IsAskedFor rect false self.old self.new }
        ensures caught_up { StaysCaughtUp self.old self.new }
    {
        self.area.add(rect, false);
    }

    // Asks for them whole, whatever the viewer has there.
    fn ask_whole(&mut self, rect: Rect)
        requires { Holds self.old.known rect }
        ensures asked { IsAskedFor rect true self.old self.new }
        ensures caught_up { StaysCaughtUp self.old self.new }
    {
        self.area.add(rect, true);
        self.marks.add(rect);
    }
}

// The part of a rectangle that lies on a screen of that size.
fn part_of(rect: Rect, width: u16, height: u16) -> Rect
    ensures held { (result.x + result.w ≤ width) × (result.y + result.h ≤ height) }
    ensures same { (x y : ℕ) → x < width → y < height → contains result x y ≡ contains rect x y }
{
    let x = rect.x.min(width);
    let y = rect.y.min(height);
    Rect {
        x,
        y,
        w: rect.w.min(width - x),
        h: rect.h.min(height - y),
    }
}
