//! A rectangle of places, as RFC 6143 gives one: its top left corner and its size.

ghost use Rattle.std.specs.Prelude.{◌≡◌, ◌+◌, ◌-◌, ◌<◌, ◌^◌, unsigned_abs};
ghost use Rattle.rfb_picture.specs.Rect.{rect, moved_by, start_after, start_before};
ghost use Rattle.rfb_picture.specs.Rect.{scrolled_to, scrolled_from};

/// `w` columns and `h` rows of places from (`x`, `y`) on, to the right and down. All are in places.
/// With `w` or `h` 0 it has no place. No size is refused: it may lie outside every picture.
#[derive(Clone, Copy, Debug, PartialEq, Eq)]
pub struct Rect {
    pub x: u16,
    pub y: u16,
    pub w: u16,
    pub h: u16,
}

impl Rect {
    /// `w` columns and `h` rows of places from (`x`, `y`) on.
    pub const fn new(x: u16, y: u16, w: u16, h: u16) -> Rect
        ensures { result ≡ rect x y w h }
    {
        Rect { x, y, w, h }
    }

    /// All places of a picture of `width` by `height` places.
    pub const fn whole(width: u16, height: u16) -> Rect
        ensures { result ≡ rect 0 0 width height }
    {
        Rect::new(0, 0, width, height)
    }

    /// The rectangle of the same size `x` columns further to the right and `y` rows further down.
    /// So a part of a rectangle, which counts from that one's corner, becomes places of a picture.
    #[inline]
    pub fn moved_by(self, x: u16, y: u16) -> Rect
        requires columns { x + self.x < 2 ^ 16 }
        requires rows { y + self.y < 2 ^ 16 }
        ensures { result ≡ moved_by x y self }
    {
        Rect::new(x + self.x, y + self.y, self.w, self.h)
    }

    /// All that lies in the rectangle moves `dx` columns to the right and `dy` rows down, or to the
    /// left and up where they are negative. What leaves the rectangle is lost. Returns the
    /// rectangle where what stays is afterwards, and the one of that size where it was.
    pub fn scrolled(self, dx: i16, dy: i16) -> (Rect, Rect)
        requires columns { self.x + self.w < 2 ^ 16 }
        requires rows { self.y + self.h < 2 ^ 16 }
        ensures to { result.0 ≡ scrolled_to dx dy self }
        ensures from { result.1 ≡ scrolled_from dx dy self }
    {
        let columns = shift(self.x, self.w, dx);
        let rows = shift(self.y, self.h, dy);
        (
            Rect::new(columns.after, rows.after, columns.left, rows.left),
            Rect::new(columns.before, rows.before, columns.left, rows.left),
        )
    }
}

// Where the first of some places in a line is after a move, where it was, and how many there are.
#[derive(Clone, Copy)]
struct Line {
    after: u16,
    before: u16,
    left: u16,
}

// Those of `len` places from `start` on that stay among these where all move by `by`.
fn shift(start: u16, len: u16, by: i16) -> Line
    requires { start + len < 2 ^ 16 }
    ensures after { result.after ≡ start_after start len by }
    ensures before { result.before ≡ start_before start len by }
    ensures left { result.left ≡ len - unsigned_abs by }
{
    let far = by.unsigned_abs().min(len);
    let left = len - far;
    if by < 0 {
        Line {
            after: start,
            before: start + far,
            left,
        }
    } else {
        Line {
            after: start + far,
            before: start,
            left,
        }
    }
}
