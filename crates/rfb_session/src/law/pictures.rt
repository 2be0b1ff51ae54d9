//! The law of pictures and files, with nothing to run.

ghost use Rattle.std.specs.Prelude.{◌≡◌, ◌*◌, length};
ghost use Rattle.rfb_pixel.specs.declared.colour.Colour.{Colour};
ghost use Rattle.rfb_picture.specs.Grid.{Grid};
ghost use Rattle.rfb_session.specs.Pixmap.{pixmap};
ghost use Rattle.rfb_session.specs.netpbm.File.{Spells};
ghost use Rattle.rfb_session.specs.netpbm.Places.{AreColours};
ghost use Rattle.rfb_session.specs.netpbm.Side.{IsSide};

/// What `ppm` writes of a picture of 1 to 4,096 places a side spells that picture. `read_ppm` reads
/// the same again, if memory is there and no read fails.
pub fn a_picture_that_is_written_is_read()
    ensures { (picture : Grid Colour) → IsSide picture.width → IsSide picture.height →
        length picture.places ≡ picture.height * picture.width → AreColours picture.places →
        Spells (pixmap picture) picture }
{}
