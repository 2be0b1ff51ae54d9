//! What a server is made with, by name.

ghost use Rattle.std.specs.Prelude.{◌≡◌};
ghost use Rattle.rfb_hello.specs.declared.version.Version.TheVariants.{V38};

use rfb_hello::Version;

/// What a server or a session is made with, as `Server::new` takes it. `ServerSetup::usual` has
/// what most owners want; each field may be another.
#[derive(Clone, Copy, Debug)]
pub struct ServerSetup<'a> {
    /// How many columns the screen has: 1 to 4,096.
    pub width: u16,
    /// How many rows it has: 1 to 4,096.
    pub height: u16,
    /// Its name, as ServerInit has it, RFC 6143 section 7.3.2: at most 255 bytes.
    pub name: &'a [u8],
    /// The highest version that is offered.
    pub offer: Version,
    /// How many bytes of each text that the viewer cuts are kept: at most 1,048,576.
    pub text_limit: u32,
}

impl<'a> ServerSetup<'a> {
    /// Of a screen of that size and name: 3.8 is offered, and 65,536 bytes of each text are kept.
    pub fn usual(width: u16, height: u16, name: &'a [u8]) -> ServerSetup<'a>
        ensures width { result.width ≡ width }
        ensures height { result.height ≡ height }
        ensures name { result.name.now ≡ name.now }
        ensures offer { result.offer ≡ V38 }
        ensures text_limit { result.text_limit ≡ 65536 }
    {
        ServerSetup {
            width,
            height,
            name,
            offer: Version::V38,
            text_limit: 65_536,
        }
    }
}
