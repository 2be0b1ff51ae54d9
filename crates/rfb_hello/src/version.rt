//! ProtocolVersion, RFC 6143 section 7.1.1.

ghost use Rattle.std.specs.Prelude.{◌≡◌, ◌==◌, ◌+◌, ◌-◌, ◌*◌, ◌&&◌, length, Some, None, Ok, Err};
ghost use Rattle.std.specs.Prelude.{if◌then◌else◌};
ghost use Rattle.rfb_hello.specs.Version.{is_digit, is_version_text, minor_of, version_of};
ghost use Rattle.rfb_hello.specs.Version.{version_text};

use crate::fault::HelloFault;

/// A published version of the protocol.
#[derive(Clone, Copy, Debug, PartialEq, Eq)]
pub enum Version {
    /// 3.3, RFC 6143 Appendix A.
    V33,
    /// 3.7, RFC 6143 Appendix A.
    V37,
    /// 3.8.
    V38,
}

/// How many bytes a ProtocolVersion has.
pub const VERSION_SIZE: usize = 12;

/// How many bytes of one are kept at most until it is whole.
pub const VERSION_PART: usize = VERSION_SIZE - 1;

impl Version {
    /// The ProtocolVersion of this version: `RFB 003.003`, `RFB 003.007` or `RFB 003.008`, and a
    /// line feed.
    pub fn text(self) -> [u8; VERSION_SIZE]
        ensures { result ≡ version_text self }
    {
        match self {
            Version::V33 => *b"RFB 003.003\n",
            Version::V37 => *b"RFB 003.007\n",
            Version::V38 => *b"RFB 003.008\n",
        }
    }

    /// The minor number; the major number of each is 3.
    pub fn minor(self) -> u8
        ensures { result ≡ minor_of self }
    {
        match self {
            Version::V33 => 3,
            Version::V37 => 7,
            Version::V38 => 8,
        }
    }
}

/// The version that a ProtocolVersion stands for: 3.7 and 3.8 for themselves, any other number for
/// 3.3. `BadVersion` where the bytes are not of the shape `RFB ddd.ddd` and a line feed.
impl TryFrom<&[u8]> for Version {
    ghost use Rattle.rfb_hello.specs.declared.fault.HelloFault.TheVariants.{BadVersion};

    type Error = HelloFault;

    ghost try_from_gives = { λ text r. r ≡ (if length text.now == 12 && is_version_text text.now
        then Ok (version_of text.now) else Err BadVersion) };

    fn try_from(text: &[u8]) -> Result<Version, HelloFault> {
        let &[b'R', b'F', b'B', b' ', a, b, c, b'.', d, e, f, b'\n'] = text else {
            return Err(HelloFault::BadVersion);
        };
        let (Some(major), Some(minor)) = (number(a, b, c), number(d, e, f)) else {
            return Err(HelloFault::BadVersion);
        };
        Ok(match (major, minor) {
            (3, 8) => Version::V38,
            (3, 7) => Version::V37,
            _ => Version::V33,
        })
    }
}

// The number that three decimal digits are, or `None` where one of them is no digit.
fn number(a: u8, b: u8, c: u8) -> Option<u16>
    ensures { result ≡ (if is_digit a && is_digit b && is_digit c
        then Some ((a - 48) * 100 + (b - 48) * 10 + (c - 48)) else None) }
{
    if !(a.is_ascii_digit() && b.is_ascii_digit() && c.is_ascii_digit()) {
        return None;
    }
    let (a, b, c) = (a - b'0', b - b'0', c - b'0');
    Some(u16::from(a) * 100 + u16::from(b) * 10 + u16::from(c))
}
