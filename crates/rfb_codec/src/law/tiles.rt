//! The tiles of Hextile, RFC 6143 section 7.7.4: which places each has, and which masks are
//! refused.

ghost use Rattle.std.specs.Prelude.{◌≡◌, ℕ, ◌-◌, ◌%◌, ◌<◌, List, Some, None, true};
ghost use Rattle.rfb_picture.specs.Rect.{contains};
ghost use Rattle.rfb_wire.specs.RectHead.{IsOnScreen};
ghost use Rattle.rfb_codec.specs.declared.fault.PaintFault.{PaintFault};
ghost use Rattle.rfb_codec.specs.Tile.{Tile, mask_fault};
ghost use Rattle.rfb_codec.specs.MaskFaults.{IsMaskFault};
ghost use Rattle.rfb_codec.specs.Hextile.{tile_count, tile_part, tile_at};

/// The tiles of a rectangle share out its places: each place lies in one of them and in no other,
/// and is numbered from its corner. Each tile has a place, and lies in the rectangle.
pub fn tiles_share_out_the_places()
    ensures number { (width height x y : ℕ) → x < width → y < height →
        tile_at width x y < tile_count width height }
    ensures held { (width height x y : ℕ) → x < width → y < height →
        contains (tile_part width height (tile_at width x y)) x y ≡ true }
    ensures once { (width height n x y : ℕ) →
        contains (tile_part width height n) x y ≡ true → tile_at width x y ≡ n }
    ensures column { (width height x y : ℕ) → x < width → y < height →
        x - (tile_part width height (tile_at width x y)).x ≡ x % 16 }
    ensures row { (width height x y : ℕ) → x < width → y < height →
        y - (tile_part width height (tile_at width x y)).y ≡ y % 16 }
    ensures inside { (width height n : ℕ) → n < tile_count width height →
        IsOnScreen width height (tile_part width height n) }
    ensures some { (width height n : ℕ) → n < tile_count width height →
        (0 < (tile_part width height n).w) × (0 < (tile_part width height n).h) }
{}

/// A mask is refused exactly where its bits and the tiles before it show a fault: a background that
/// is missing, then both colour bits, then a foreground that is missing. Else it is good.
pub fn masks_are_refused_by_their_bits()
    ensures shown { (before : List Tile) (mask : ℕ) (fault : PaintFault) →
        mask_fault before mask ≡ Some fault → IsMaskFault before mask fault }
    ensures told { (before : List Tile) (mask : ℕ) (fault : PaintFault) →
        IsMaskFault before mask fault → mask_fault before mask ≡ Some fault }
    ensures good { (before : List Tile) (mask : ℕ) →
        ((fault : PaintFault) → IsMaskFault before mask fault → ⊥) → mask_fault before mask ≡ None }
{}
