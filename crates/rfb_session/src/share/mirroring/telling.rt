//! What the seats of a share are told of a viewer's picture.

ghost use Rattle.std.specs.Prelude.{◌≡◌, ℕ, [], ◌∷◌, length, All, None, Some};
ghost use Rattle.std.specs.Option.{ForSome};
ghost use Rattle.rfb_codec.specs.Effect.{IsAlike};
ghost use Rattle.rfb_picture.specs.Grid.{Grid, IsGrid, Holds};
ghost use Rattle.rfb_picture.specs.Rect.{rect};
ghost use Rattle.rfb_pixel.specs.declared.colour.Colour.{Colour};
ghost use Rattle.rfb_server.specs.KnownScreen.{IsTold};
ghost use Rattle.rfb_server.specs.Model.{notes_in};
ghost use Rattle.rfb_server.specs.Strokes.{area_told, hint_told};
ghost use Rattle.rfb_session.specs.ShareMoves.{IsRelayed, GetsChange, GetsMoves, GetsWhole};
ghost use Rattle.rfb_session.specs.ShareSeats.{session_at};
ghost use Rattle.rfb_session.specs.Slots.{seat_at, OnSlot};
ghost use Rattle.rfb_viewer.specs.Damage.{IsSameOutside};

use crate::share::seat::ShareSeat;
use crate::slots::{Follower, SLOTS};
use rfb_picture::{Picture, Rect};
use rfb_pixel::Colour;
use rfb_server::{Notice, Outside};
use rfb_viewer::Move;

/// Each session is told of a change of the picture there, and of these copies, the oldest first.
pub(super) fn tell_all(
    slots: &mut [Option<ShareSeat>; SLOTS],
    picture: &Picture<Colour>,
    damage: Option<Rect>,
    moves: &[Move],
)
    requires alike { All (λ slot. ForSome slot (λ seat.
        IsAlike picture.now (notes_in (session_at seat)).known)) slots.old }
    ensures whole { IsGrid picture.now }
    ensures size { length slots.new ≡ length slots.old }
    ensures told { (k : ℕ) → OnSlot (λ a b. IsRelayed picture.now damage moves.now a b)
        (seat_at k slots.old) (seat_at k slots.new) }
{
    let whole = whole_of(picture);
    for slot in slots.iter_mut() {
        if let Some(seat) = slot {
            tell_seat(seat, picture, damage, whole, moves);
        }
    }
}

/// Each session is told that all of the picture changed.
pub(super) fn tell_whole(slots: &mut [Option<ShareSeat>; SLOTS], picture: &Picture<Colour>)
    requires alike { All (λ slot. ForSome slot (λ seat.
        IsAlike picture.now (notes_in (session_at seat)).known)) slots.old }
    ensures size { length slots.new ≡ length slots.old }
    ensures told { (k : ℕ) → OnSlot (λ a b. GetsWhole picture.now a b)
        (seat_at k slots.old) (seat_at k slots.new) }
{
    let whole = whole_of(picture);
    tell_all(slots, picture, Some(whole), &[]);
}

// The rectangle that is all of a picture.
fn whole_of(picture: &Picture<Colour>) -> Rect
    ensures value { result ≡ rect 0 0 picture.now.width picture.now.height }
    ensures full { IsGrid picture.now }
{
    Rect::new(0, 0, picture.width(), picture.height())
}

// One is told of both.
fn tell_seat(
    seat: &mut ShareSeat,
    picture: &Picture<Colour>,
    damage: Option<Rect>,
    whole: Rect,
    moves: &[Move],
)
    requires alike { IsAlike picture.now (notes_in (session_at seat.old)).known }
    requires full { IsGrid picture.now }
    requires whole { whole ≡ rect 0 0 picture.now.width picture.now.height }
    ensures { IsRelayed picture.now damage moves.now seat.old seat.new }
{
    tell_change(seat, picture, damage, whole);
    tell_moves(seat, picture, moves);
}

// A session is told of a change.
fn tell_change(seat: &mut ShareSeat, picture: &Picture<Colour>, damage: Option<Rect>, whole: Rect)
    requires alike { IsAlike picture.now (notes_in (session_at seat.old)).known }
    requires full { IsGrid picture.now }
    requires whole { whole ≡ rect 0 0 picture.now.width picture.now.height }
    ensures { GetsChange picture.now damage seat.old seat.new }
{
    if let Some(area) = damage {
        seat.notified(&change_in(picture, area, whole));
    }
}

// What is told of a change in a rectangle. It lies on the picture. If it would not, a change of the
// whole picture is told.
fn change_in(picture: &Picture<Colour>, area: Rect, whole: Rect) -> Notice
    requires { whole ≡ rect 0 0 picture.now.width picture.now.height }
    ensures held { Holds picture.now (area_told result) }
    ensures hint { hint_told result ≡ None }
    ensures told { (before : Grid Colour) → IsGrid picture.now → IsAlike picture.now before
        → IsSameOutside (Some area) (Some before) (Some picture.now)
        → IsTold result before picture.now }
{
    match Notice::changed(picture, area) {
        Ok(notice) => notice,
        Err(Outside) => match Notice::changed(picture, whole) {
            Ok(notice) => notice,
            Err(Outside) => unreachable!(),
        },
    }
}

// A session is told of copies.
fn tell_moves(seat: &mut ShareSeat, picture: &Picture<Colour>, moves: &[Move])
    ensures { GetsMoves picture.now moves.now seat.old seat.new }
{
    for copy in moves {
        tell_move(seat, picture, copy);
    }
}

// A copy is told as a hint, if it lies on the picture.
fn tell_move(seat: &mut ShareSeat, picture: &Picture<Colour>, copy: &Move)
    ensures { GetsMoves picture.now (copy.now ∷ []) seat.old seat.new }
{
    let Ok(notice) = Notice::hint(picture, copy.to, copy.sx, copy.sy) else {
        return;
    };
    seat.notified(&notice);
}
