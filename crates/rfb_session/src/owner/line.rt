//! Reading one line of the owner's, by itself.

ghost use Rattle.std.specs.Prelude.{◌≡◌, ◌≢◌, ◌∷◌, [], ℕ, ℤ, pos, codes, MatchOption};
ghost use Rattle.rfb_picture.specs.declared.rect.Rect.{Rect};
ghost use Rattle.rfb_session.specs.language.Words.{words_of, texts};
ghost use Rattle.rfb_session.specs.owner.Lines.{ArePlaces, AreScroll, IsShift, IsStep, SaysNoOwner};
ghost use Rattle.rfb_session.specs.owner.Lines.{SaysOwner};
ghost use Rattle.rfb_session.specs.declared.owner.order.OwnerLine.{OwnerLine};

use crate::language::{
    DrawingLine, SCREEN, parted, read_drawing, read_number, read_only_slot, read_rect, read_size,
};
use crate::owner::order::OwnerLine;
use rfb_picture::Rect;

// The words that no line of a script begins with.
pub const SCROLL: &[u8] = b"scroll";

pub const PIXELS: &[u8] = b"pixels";

pub const END: &[u8] = b"end";

pub const HOLD: &[u8] = b"hold";

pub const SHOW: &[u8] = b"show";

pub const QUIT: &[u8] = b"quit";

const MINUS: u8 = b'-';

/// What a line without its newline says. It is `None` where the line is bad at any place.
pub fn read_owner_line(line: &[u8]) -> Option<OwnerLine>
    ensures { MatchOption result (SaysNoOwner (words_of line.now)) (SaysOwner (words_of line.now)) }
{
    owner_line_of(parted(line)?.as_slice())
}

// What the words of a line say.
fn owner_line_of(words: &[&[u8]]) -> Option<OwnerLine>
    ensures { MatchOption result (SaysNoOwner (texts words.now)) (SaysOwner (texts words.now)) }
{
    let (keyword, rest) = words.split_first()?;
    if *keyword == SCREEN {
        return Some(OwnerLine::Screen(read_size(rest)?));
    }
    if *keyword == END {
        return Some(OwnerLine::End(read_only_slot(rest)?));
    }
    if *keyword == HOLD {
        return alone(OwnerLine::Hold, rest);
    }
    if *keyword == SHOW {
        return alone(OwnerLine::Show, rest);
    }
    if *keyword == QUIT {
        return alone(OwnerLine::Quit, rest);
    }
    drawing_of(keyword, rest)
}

// The line of a keyword after which there is no word.
fn alone(line: OwnerLine, rest: &[&[u8]]) -> Option<OwnerLine>
    ensures { MatchOption result (texts rest.now ≢ [])
        (λ said. (said ≡ line) × (texts rest.now ≡ [])) }
{
    if rest.is_empty() {
        return Some(line);
    }
    None
}

// What a keyword and the words after it ask to be drawn.
fn drawing_of(keyword: &[u8], rest: &[&[u8]]) -> Option<OwnerLine>
    requires screen { keyword.now ≢ codes "screen" }
    requires end { keyword.now ≢ codes "end" }
    requires hold { keyword.now ≢ codes "hold" }
    requires show { keyword.now ≢ codes "show" }
    requires quit { keyword.now ≢ codes "quit" }
    ensures { MatchOption result (SaysNoOwner (keyword.now ∷ texts rest.now))
        (SaysOwner (keyword.now ∷ texts rest.now)) }
{
    if keyword == SCROLL {
        let (rect, dx, dy) = read_scroll(rest)?;
        return Some(OwnerLine::Scroll(rect, dx, dy));
    }
    if keyword == PIXELS {
        return Some(OwnerLine::Pixels(read_places(rest)?));
    }
    match read_drawing(keyword, rest)? {
        DrawingLine::Fill(rect, colour) => Some(OwnerLine::Fill(rect, colour)),
        DrawingLine::Copy(rect, sx, sy) => Some(OwnerLine::Copy(rect, sx, sy)),
        DrawingLine::Hint(rect, sx, sy) => Some(OwnerLine::Hint(rect, sx, sy)),
    }
}

// A rectangle alone.
fn read_places(words: &[&[u8]]) -> Option<Rect>
    ensures { MatchOption result ((rect : Rect) → ¬ (ArePlaces (texts words.now) rect))
        (ArePlaces (texts words.now)) }
{
    let [x, y, w, h] = words else {
        return None;
    };
    read_rect(x, y, w, h)
}

// A rectangle, and how far what lies there moves to the right and down.
fn read_scroll(words: &[&[u8]]) -> Option<(Rect, i16, i16)>
    ensures { MatchOption result
        ((rect : Rect) (dx dy : ℤ) → ¬ (AreScroll (texts words.now) rect dx dy))
        (λ scroll. AreScroll (texts words.now) scroll.0 scroll.1 scroll.2) }
{
    let [x, y, w, h, dx, dy] = words else {
        return None;
    };
    Some((read_rect(x, y, w, h)?, read_shift(dx)?, read_shift(dy)?))
}

/// A number up to 32,767, with a minus before it or without.
pub fn read_shift(word: &[u8]) -> Option<i16>
    ensures { MatchOption result ((by : ℤ) → ¬ (IsShift word.now by)) (IsShift word.now) }
{
    match word.split_first() {
        Some((first, digits)) if *first == MINUS => Some(-read_step(digits)?),
        _ => read_step(word),
    }
}

// A number up to 32,767.
fn read_step(word: &[u8]) -> Option<i16>
    ensures { MatchOption result ((n : ℕ) → ¬ (IsStep word.now n))
        (λ by. (n : ℕ) × IsStep word.now n × (by ≡ pos n)) }
{
    i16::try_from(read_number(word)?).ok()
}
