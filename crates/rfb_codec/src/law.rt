//! Laws of what rectangles' data stand for and of the stream that they come in, with nothing to
//! run.

ghost use Rattle.std.specs.Prelude.{ℕ, List, [], ◌∷◌, ◌≡◌, ◌++◌, if◌then◌else◌};
ghost use Rattle.rfb_pixel.specs.Format.{PixelFormat};
ghost use Rattle.rfb_picture.specs.declared.rect.Rect.{Rect};
ghost use Rattle.rfb_picture.specs.Rect.{contains};
ghost use Rattle.rfb_wire.specs.declared.encoding.Encoding.{Encoding};
ghost use Rattle.rfb_wire.specs.stream.Prefix.{Reads};
ghost use Rattle.rfb_wire.specs.stream.Grammar.{IsSpelled, IsGrammar};
ghost use Rattle.rfb_codec.specs.declared.subrect.Subrect.{Subrect};
ghost use Rattle.rfb_codec.specs.Rre.{pixel_at};
ghost use Rattle.rfb_codec.specs.RectData.{RectData, SpellsData, data_says, rect_data};
ghost use Rattle.rfb_codec.specs.UpdateStream.{update_says, update_stream};

pub mod choices;
pub mod effects;
pub mod painters;
pub mod pending;
pub mod tiles;
pub mod updates;

/// Reading the data of a rectangle gives exactly what the bytes say under its head and exactly the
/// faults that they end in, whatever follows; so no data go on as others, and bytes say one thing.
pub fn data_are_spelled()
    ensures reads { (f : PixelFormat) (width height : ℕ) (rect : Rect) (encoding : Encoding) →
        Reads (rect_data f width height rect encoding)
        (data_says f width height rect encoding) }
    ensures apart { (f : PixelFormat) (width height : ℕ) (rect : Rect) (encoding : Encoding)
        (contents other : RectData) (front rest : List ℕ) →
        SpellsData f width height rect encoding contents front →
        SpellsData f width height rect encoding other (front ++ rest) →
        (contents ≡ other) × (rest ≡ []) }
{}

/// Reading all that a server sends after the handshake gives exactly the messages and the
/// rectangles that its bytes spell, and exactly the faults that they end in, whatever follows.
pub fn updates_are_spelled()
    ensures stream { IsSpelled update_stream update_says }
    ensures laws { IsGrammar update_stream }
{}

/// Of the subrectangles that hold a place the last one's pixel is shown, and the background where
/// none holds it.
pub fn the_last_subrectangle_wins()
    ensures none { (background x y : ℕ) → pixel_at background [] x y ≡ background }
    ensures last { (background : ℕ) (subs : List Subrect) (s : Subrect) (x y : ℕ) →
        pixel_at background (subs ++ s ∷ []) x y ≡
        (if contains s.rect x y then s.pixel else pixel_at background subs x y) }
{}
