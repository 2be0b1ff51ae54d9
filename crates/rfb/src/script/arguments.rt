//! The words of a line after its first, for kinds of line that scripts alone have.

ghost use Rattle.std.specs.Prelude.{ℕ, Bool, MatchOption};
ghost use Rattle.rfb_picture.specs.declared.rect.Rect.{Rect};
ghost use Rattle.rfb_pixel.specs.Format.{PixelFormat};
ghost use Rattle.rfb.specs.declared.script.line.Wants.{Wants};
ghost use Rattle.rfb_session.specs.language.Words.{texts};
ghost use Rattle.rfb.specs.Words.{AreRequest, AreWants, IsCountAlone, IsFormatAlone};

use crate::script::line::Wants;
use rfb_picture::Rect;
use rfb_pixel::Format;
use rfb_session::language::{read_count, read_encodings, read_format, read_rect};

/// The word of a request for all.
pub const FULL: &[u8] = b"full";

/// The word of a request for what has changed.
pub const INCREMENTAL: &[u8] = b"inc";

/// What the viewer wants.
pub fn read_wants(words: &[&[u8]]) -> Option<Wants>
    ensures { MatchOption result ((wants : Wants) → ¬ (AreWants (texts words.now) wants))
        (AreWants (texts words.now)) }
{
    let (format, encodings) = words.split_first()?;
    Some(Wants {
        format: read_format(format)?,
        encodings: read_encodings(encodings)?,
    })
}

/// Whether a request is incremental, and its area.
pub fn read_request(words: &[&[u8]]) -> Option<(bool, Rect)>
    ensures { MatchOption result
        ((incremental : Bool) (rect : Rect) →
        ¬ (AreRequest (texts words.now) incremental rect))
        (λ request. AreRequest (texts words.now) request.0 request.1) }
{
    let [kind, x, y, w, h] = words else {
        return None;
    };
    if *kind == FULL {
        return Some((false, read_rect(x, y, w, h)?));
    }
    if *kind == INCREMENTAL {
        return Some((true, read_rect(x, y, w, h)?));
    }
    None
}

/// How many bytes a delivery moves at most.
pub fn read_bytes(words: &[&[u8]]) -> Option<u32>
    ensures { MatchOption result ((count : ℕ) → ¬ (IsCountAlone (texts words.now) count))
        (IsCountAlone (texts words.now)) }
{
    let [count] = words else {
        return None;
    };
    read_count(count)
}

/// The format that the viewer is to ask for.
pub fn read_only_format(words: &[&[u8]]) -> Option<Format>
    ensures { MatchOption result
        ((format : PixelFormat) → ¬ (IsFormatAlone (texts words.now) format))
        (IsFormatAlone (texts words.now)) }
{
    let [format] = words else {
        return None;
    };
    read_format(format)
}
