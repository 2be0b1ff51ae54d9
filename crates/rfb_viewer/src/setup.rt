//! What a viewer is made with, by name.

ghost use Rattle.std.specs.Prelude.{◌≡◌, ◌∷◌, [], true};
ghost use Rattle.rfb_hello.specs.declared.version.Version.TheVariants.{V38};
ghost use Rattle.rfb_wire.specs.declared.encoding.Encoding.TheVariants.{Raw, CopyRect, Rre};
ghost use Rattle.rfb_wire.specs.declared.encoding.Encoding.TheVariants.{Hextile};

use arrayvec::ArrayVec;
use rfb_hello::Version;
use rfb_pixel::Format;
use rfb_wire::Encoding;

/// What a viewer is made with, as `Viewer::new` takes it. `ViewerSetup::usual` has what most owners
/// want; each field may be another.
#[derive(Debug, Drop)]
pub struct ViewerSetup {
    /// The format that it asks for, RFC 6143 section 7.4.
    pub format: Format,
    /// The encodings that it takes, the best first.
    pub encodings: ArrayVec<Encoding, 4>,
    /// The highest version that it goes up to.
    pub limit: Version,
    /// Whether others may go on: the shared-flag of its ClientInit, section 7.3.1.
    pub shared: bool,
    /// How many places a screen may have that it admits.
    pub max_places: u32,
    /// How many bytes it keeps of each text.
    pub text_limit: u32,
}

impl ViewerSetup {
    /// Of a viewer that takes all encodings there are, CopyRect and Hextile first. It goes up to
    /// 3.8, lets others go on, admits screens of 4,096 by 4,096 places, and keeps 65,536 bytes of
    /// each text.
    pub fn usual(format: Format) -> ViewerSetup
        ensures format { result.format ≡ format }
        ensures encodings { result.encodings.items ≡ CopyRect ∷ Hextile ∷ Rre ∷ Raw ∷ [] }
        ensures limit { result.limit ≡ V38 }
        ensures shared { result.shared ≡ true }
        ensures max_places { result.max_places ≡ 16777216 }
        ensures text_limit { result.text_limit ≡ 65536 }
    {
        let mut encodings = ArrayVec::new();
        encodings.push(Encoding::CopyRect);
        encodings.push(Encoding::Hextile);
        encodings.push(Encoding::Rre);
        encodings.push(Encoding::Raw);
        ViewerSetup {
            format,
            encodings,
            limit: Version::V38,
            shared: true,
            max_places: 16_777_216,
            text_limit: 65_536,
        }
    }
}
