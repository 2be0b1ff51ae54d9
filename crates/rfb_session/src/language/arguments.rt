//! The words of a line after its first, for each kind of line that scripts and owners share.

ghost use Rattle.std.specs.Prelude.{ℕ, MatchOption};
ghost use Rattle.rfb_picture.specs.declared.rect.Rect.{Rect};
ghost use Rattle.rfb_pixel.specs.declared.colour.Colour.{Colour};
ghost use Rattle.rfb_session.specs.declared.language.screen.Screen.{Screen};
ghost use Rattle.rfb_session.specs.language.Words.{IsSlotAlone, AreFill, AreMove, AreSize, texts};

use crate::language::{Screen, read_colour, read_number, read_rect, read_side, read_slot};
use rfb_picture::Rect;
use rfb_pixel::Colour;

/// The size of the screen.
pub fn read_size(words: &[&[u8]]) -> Option<Screen>
    ensures { MatchOption result ((size : Screen) → ¬ (AreSize (texts words.now) size))
        (AreSize (texts words.now)) }
{
    let [width, height] = words else {
        return None;
    };
    Some(Screen {
        width: read_side(width)?,
        height: read_side(height)?,
    })
}

/// A rectangle and a colour.
pub fn read_fill(words: &[&[u8]]) -> Option<(Rect, Colour)>
    ensures { MatchOption result
        ((rect : Rect) (colour : Colour) → ¬ (AreFill (texts words.now) rect colour))
        (λ fill. AreFill (texts words.now) fill.0 fill.1) }
{
    let [x, y, w, h, colour] = words else {
        return None;
    };
    Some((read_rect(x, y, w, h)?, read_colour(colour)?))
}

/// A rectangle, and the corner of the one that it is to look as.
pub fn read_move(words: &[&[u8]]) -> Option<(Rect, u16, u16)>
    ensures { MatchOption result
        ((rect : Rect) (sx sy : ℕ) → ¬ (AreMove (texts words.now) rect sx sy))
        (λ move. AreMove (texts words.now) move.0 move.1 move.2) }
{
    let [x, y, w, h, sx, sy] = words else {
        return None;
    };
    Some((read_rect(x, y, w, h)?, read_number(sx)?, read_number(sy)?))
}

/// One slot.
pub fn read_only_slot(words: &[&[u8]]) -> Option<u8>
    ensures { MatchOption result ((slot : ℕ) → ¬ (IsSlotAlone (texts words.now) slot))
        (IsSlotAlone (texts words.now)) }
{
    match words {
        [slot] => read_slot(slot),
        _ => None,
    }
}
