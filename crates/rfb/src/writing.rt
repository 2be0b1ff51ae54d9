//! Bytes and pictures, to any writer.

ghost use Rattle.std.specs.Prelude.{OnErr, OnOk};
ghost use Rattle.std.specs.Io.KnownBytes.{Appends};
ghost use Rattle.rfb_session.specs.Devices.{AppendsBeginning};
ghost use Rattle.rfb_session.specs.Pixmap.{pixmap};

use crate::fault::Fault;
use rfb_picture::Picture;
use rfb_pixel::Colour;
use rfb_session::{Device, Lent, ppm, send};
use std::io::Write;

/// Writes all of these bytes. Where it gives an error, a beginning of them was written; it is not
/// tried again, whatever its kind.
pub fn write_whole<W: Write>(bytes: &[u8], output: &mut W) -> Result<(), Device>
    ensures done { OnOk result (Appends (W.contents output.old) (W.contents output.new) bytes.now) }
    ensures stopped { OnErr result
        (AppendsBeginning (W.contents output.old) (W.contents output.new) bytes.now) }
{
    let mut sink = Lent::new(output);
    send(bytes, &mut sink)
}

/// Writes a picture as PPM. All is written and flushed where it gives `Ok`; where it gives an
/// error, a beginning was written.
pub fn write_ppm<W: Write>(picture: &Picture<Colour>, output: &mut W) -> Result<(), Fault>
    ensures done { OnOk result
        (Appends (W.contents output.old) (W.contents output.new) (pixmap picture.now)) }
    ensures stopped { OnErr result
        (AppendsBeginning (W.contents output.old) (W.contents output.new) (pixmap picture.now)) }
{
    put_ppm(picture, output)?;
    output.flush()?;
    Ok(())
}

// The same, not flushed.
fn put_ppm<W: Write>(picture: &Picture<Colour>, output: &mut W) -> Result<(), Device>
    ensures done { OnOk result
        (Appends (W.contents output.old) (W.contents output.new) (pixmap picture.now)) }
    ensures stopped { OnErr result
        (AppendsBeginning (W.contents output.old) (W.contents output.new) (pixmap picture.now)) }
{
    let mut sink = Lent::new(output);
    ppm(picture, &mut sink)
}
