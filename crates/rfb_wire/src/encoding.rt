//! How the data of a rectangle are laid out, RFC 6143 section 7.7.

ghost use Rattle.std.specs.Prelude.{◌≡◌, IfOk, IfErr};
ghost use Rattle.rfb_wire.specs.Encoding.{number_of, IsNoEncoding};

use crate::fault::WireFault;

/// An encoding of this project's, of those that RFC 6143 has. The default is Raw, which
/// every viewer has to take.
#[derive(Clone, Copy, Debug, Default, PartialEq, Eq)]
pub enum Encoding {
    /// Pixels row by row, section 7.7.1.
    #[default]
    Raw,
    /// A copy of another rectangle of the screen, section 7.7.2.
    CopyRect,
    /// Rectangles of one colour each over a background, section 7.7.3.
    Rre,
    /// Tiles of 16 by 16, section 7.7.4.
    Hextile,
}

impl Encoding {
    /// Its number on the wire, where it is an S32.
    pub fn number(self) -> i32
        ensures { result ≡ number_of self }
    {
        match self {
            Encoding::Raw => 0,
            Encoding::CopyRect => 1,
            Encoding::Rre => 2,
            Encoding::Hextile => 5,
        }
    }
}

/// The encoding of a number. `UnknownEncoding` where no encoding here has it.
impl TryFrom<i32> for Encoding {
    ghost use Rattle.rfb_wire.specs.declared.fault.WireFault.TheVariants.{UnknownEncoding};

    type Error = WireFault;

    ghost try_from_gives = { λ number r. IfOk r (λ encoding. number_of encoding ≡ number)
        × IfErr r (λ fault. (fault ≡ UnknownEncoding number) × IsNoEncoding number) };

    fn try_from(number: i32) -> Result<Encoding, WireFault> {
        match number {
            0 => Ok(Encoding::Raw),
            1 => Ok(Encoding::CopyRect),
            2 => Ok(Encoding::Rre),
            5 => Ok(Encoding::Hextile),
            _ => Err(WireFault::UnknownEncoding(number)),
        }
    }
}
