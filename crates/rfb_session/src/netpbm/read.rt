//! A pixmap, from its bytes to its picture.

ghost use Rattle.std.specs.Prelude.{◌≡◌, ℕ, List, Some, Err, IfOk, IfErr};
ghost use Rattle.rfb_pixel.specs.declared.colour.Colour.{Colour};
ghost use Rattle.rfb_picture.specs.Grid.{Grid};
ghost use Rattle.rfb_session.specs.declared.netpbm.fault.Flaw.{Flaw};
ghost use Rattle.rfb_session.specs.declared.netpbm.fault.PixmapError.TheVariants as PixmapError;
ghost use Rattle.rfb_session.specs.netpbm.File.{FailsToSpell, Spells, SpellsKnown, picture_of};

use crate::netpbm::Pixmap;
use crate::netpbm::fault::PixmapError;
use crate::netpbm::head::read_head;
use crate::netpbm::input::read_up_to;
use crate::netpbm::places::read_places;
use std::alloc::Global;
use std::io::Read;

// In how many bytes a head has to end.
const FRONT: usize = 8192;

/// Reads the picture that all of `input` spells. It takes memory for its places, once the size is
/// judged, and for no more. Where it spells none, the first thing that is wrong is reported. What
/// follows that is not read, but for the rest of a piece of some 8,192 bytes.
pub fn read_ppm<R: Read>(alloc: Global, input: &mut R) -> Result<Pixmap, PixmapError>
    ensures read { IfOk result (λ pixmap. SpellsKnown (R.remaining input.old) (picture_of pixmap)) }
    ensures refused { IfErr result (FailsToSpell (R.remaining input.old)) }
    ensures one { (bytes : List ℕ) (picture : Grid Colour) → R.remaining input.old ≡ Some bytes →
        Spells bytes picture → IfOk result (λ pixmap. picture_of pixmap ≡ picture) }
    ensures no_other { (bytes : List ℕ) (picture : Grid Colour) (flaw : Flaw) →
        R.remaining input.old ≡ Some bytes → Spells bytes picture →
        ¬ (result ≡ Err (PixmapError.Flaw flaw)) }
{
    read_parts(alloc, input)
}

// The head first, and then the places.
fn read_parts<R: Read>(alloc: Global, input: &mut R) -> Result<Pixmap, PixmapError>
    ensures read { IfOk result (λ pixmap. SpellsKnown (R.remaining input.old) (picture_of pixmap)) }
    ensures refused { IfErr result (FailsToSpell (R.remaining input.old)) }
{
    let mut front = [0; FRONT];
    let count = read_up_to(input, &mut front)?;
    let (head, rest) = read_head(&front[..count])?;
    let total = usize::from(head.height) * usize::from(head.width);
    let mut all = rest.chain(input);
    let places = read_places(alloc, &mut all, head.sample, total)?;
    Ok(Pixmap {
        width: head.width,
        height: head.height,
        places,
    })
}
