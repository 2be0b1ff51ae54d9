//! Laws of pending bytes in all that a server sends: those of an item under way after its last
//! whole piece.

ghost use Rattle.std.specs.Prelude.{◌≡◌, ℕ, ◌+◌, ◌*◌, ◌<◌, ◌≤◌, List, [], ◌∷◌, ◌++◌, length, true};
ghost use Rattle.std.specs.Prelude.{false};
ghost use Rattle.rfb_pixel.specs.Format.{PixelFormat, IsFormat, size_of};
ghost use Rattle.rfb_pixel.specs.FormatBytes.{AreBytes};
ghost use Rattle.rfb_picture.specs.declared.rect.Rect.{Rect};
ghost use Rattle.rfb_wire.specs.declared.encoding.Encoding.{Encoding};
ghost use Rattle.rfb_wire.specs.declared.encoding.Encoding.TheVariants.{Raw, CopyRect, Rre};
ghost use Rattle.rfb_wire.specs.declared.encoding.Encoding.TheVariants.{Hextile};
ghost use Rattle.rfb_wire.specs.declared.rect_head.RectHead.{RectHead};
ghost use Rattle.rfb_wire.specs.stream.Prefix.{More, Listed, ListedAfter};
ghost use Rattle.rfb_wire.specs.RectHead.{SpellsRectHead, IsOnScreen};
ghost use Rattle.rfb_wire.specs.MessagePieces.{server_pending};
ghost use Rattle.rfb_codec.specs.declared.subrect.Subrect.{Subrect};
ghost use Rattle.rfb_codec.specs.Rre.{SpellsRreHead, SpellsInside};
ghost use Rattle.rfb_codec.specs.Tile.{Tile, is_raw};
ghost use Rattle.rfb_codec.specs.Hextile.{SpellsNextTile, next_tile, tile_count};
ghost use Rattle.rfb_codec.specs.UpdateStream.{UpdatePoint};
ghost use Rattle.rfb_codec.specs.PendingBytes.{tile_pending, data_pending, update_pending};

/// The pieces of a rectangle's data are a pixel of Raw, the source of CopyRect, RRE's count with
/// the background, and a subrectangle of RRE. Those of Hextile are the pieces of the tile under
/// way. At most 1,535 bytes are pending, and no more than came.
pub fn data_pending_follows_the_last_piece()
    ensures pixel { (f : PixelFormat) (rect : Rect) (count : ℕ) (front rest : List ℕ) →
        length front ≡ count * size_of f → length rest < size_of f →
        data_pending f rect Raw (front ++ rest) ≡ length rest }
    ensures source { (f : PixelFormat) (rect : Rect) (bytes : List ℕ) →
        length bytes < 4 → data_pending f rect CopyRect bytes ≡ length bytes }
    ensures background { (f : PixelFormat) (rect : Rect) (bytes : List ℕ) →
        length bytes < 4 + size_of f → data_pending f rect Rre bytes ≡ length bytes }
    ensures subrectangle { (f : PixelFormat) (rect : Rect) (count background : ℕ)
        (subs : List Subrect) (head list rest : List ℕ) →
        SpellsRreHead f count background head → Listed (SpellsInside f rect.w rect.h) subs list →
        length rest < size_of f + 8 →
        data_pending f rect Rre (head ++ (list ++ rest)) ≡ length rest }
    ensures tile { (f : PixelFormat) (rect : Rect) (tiles : List Tile) (front rest : List ℕ) →
        ListedAfter (SpellsNextTile f rect.w rect.h) [] tiles front →
        length tiles < tile_count rect.w rect.h → next_tile f rect.w rect.h tiles rest ≡ More →
        data_pending f rect Hextile (front ++ rest) ≡ tile_pending f rest }
    ensures most { (f : PixelFormat) (rect : Rect) (encoding : Encoding) (bytes : List ℕ) →
        IsFormat f → AreBytes bytes → data_pending f rect encoding bytes ≤ 1535 }
    ensures few { (f : PixelFormat) (rect : Rect) (encoding : Encoding) (bytes : List ℕ) →
        data_pending f rect encoding bytes ≤ length bytes }
{}

/// Of a raw tile of Hextile the mask is a piece and each pixel is one; of any other tile all its
/// bytes with the mask are one.
pub fn a_tile_is_pending_by_its_mask()
    ensures none { (f : PixelFormat) → tile_pending f [] ≡ 0 }
    ensures raw { (f : PixelFormat) (mask count : ℕ) (pixels rest : List ℕ) → is_raw mask ≡ true →
        length pixels ≡ count * size_of f → length rest < size_of f →
        tile_pending f (mask ∷ (pixels ++ rest)) ≡ length rest }
    ensures drawn { (f : PixelFormat) (mask : ℕ) (rest : List ℕ) → is_raw mask ≡ false →
        tile_pending f (mask ∷ rest) ≡ length (mask ∷ rest) }
{}

/// Where no rectangle is left of an update, bytes of a message are pending; else those of a
/// rectangle's head, and after it those of its data. At most 1,535 are, and no more than came.
pub fn update_pending_follows_the_last_piece()
    ensures message { (p : UpdatePoint) (bytes : List ℕ) →
        p.left ≡ 0 → update_pending p bytes ≡ server_pending bytes }
    ensures head { (p : UpdatePoint) (bytes : List ℕ) →
        0 < p.left → length bytes < 12 → update_pending p bytes ≡ length bytes }
    ensures body { (p : UpdatePoint) (head : RectHead) (front body : List ℕ) → 0 < p.left →
        SpellsRectHead head front → IsOnScreen p.width p.height head.rect →
        update_pending p (front ++ body) ≡ data_pending p.form head.rect head.encoding body }
    ensures most { (p : UpdatePoint) (bytes : List ℕ) →
        IsFormat p.form → AreBytes bytes → update_pending p bytes ≤ 1535 }
    ensures few { (p : UpdatePoint) (bytes : List ℕ) → update_pending p bytes ≤ length bytes }
{}
