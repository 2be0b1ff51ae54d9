//! Laws of painters: what they stand for is shown, and what they keep is what is pending.

ghost use Rattle.std.specs.Prelude.{◌≡◌, ℕ, List, [], length, true};
ghost use Rattle.rfb_pixel.specs.declared.colour.Colour.{Colour};
ghost use Rattle.rfb_picture.specs.Grid.{Grid, IsGrid};
ghost use Rattle.rfb_wire.specs.stream.Prefix.{Got};
ghost use Rattle.rfb_codec.specs.RectData.{RectData, painted};
ghost use Rattle.rfb_codec.specs.Painter.{data_of};
ghost use Rattle.rfb_codec.specs.PendingBytes.{data_pending};
ghost use Rattle.rfb_codec.specs.Stage.{encoding_at, is_ended};
ghost use Rattle.rfb_codec.specs.UnderWay.{UnderWay, painting, StandsFor, ShowsPieces};

/// Where a painter and a picture stand for a picture before the rectangle and for data, the picture
/// shows the whole pieces of the data over that before, and the painter keeps the bytes that are
/// pending. Where the data have ended, that is what they make of the picture as a whole.
pub fn what_a_painter_stands_for_is_shown()
    ensures shown { (p : UnderWay) (now before : Grid Colour) (body : List ℕ) →
        StandsFor p now before body → ShowsPieces p now before body }
    ensures pending { (p : UnderWay) (now before : Grid Colour) (body : List ℕ) →
        StandsFor p now before body →
        data_pending p.form p.rect (encoding_at p.stage) body ≡ length p.pending }
    ensures ended { (p : UnderWay) (now before : Grid Colour) (body : List ℕ) → IsGrid before →
        is_ended p.rect p.stage ≡ true → StandsFor p now before body →
        (contents : RectData) × (data_of (painting p) before body ≡ Got contents [])
        × (now ≡ painted p.form p.rect contents before) }
{}
