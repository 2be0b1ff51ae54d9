//! The colours that a tile leaves to the next one.

ghost use Rattle.std.specs.Prelude.{◌≡◌};
ghost use Rattle.rfb_codec.specs.HextileRule.{named_in};
ghost use Rattle.rfb_codec.specs.encoder.Carried.{IsNamed};

/// The background and the foreground that the next tile may use without naming them, where there is
/// one.
#[derive(Clone, Copy, Debug, PartialEq, Eq)]
pub struct Carried {
    pub background: Option<u32>,
    pub foreground: Option<u32>,
}

/// The colour where it has to be named: where it is not the one that is carried.
pub fn named(carried: Option<u32>, colour: u32) -> Option<u32>
    ensures meant { IsNamed result carried colour }
    ensures value { result ≡ named_in carried colour }
{
    match carried {
        Some(held) if held == colour => None,
        _ => Some(colour),
    }
}
