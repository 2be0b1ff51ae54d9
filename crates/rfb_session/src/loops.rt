//! Loops that end by what they read.

ghost use Rattle.std.specs.Prelude.{◌≡◌, ◌-◌, ◌^◌};

/// How often a loop may go round that ends by what it reads: as often as a `u64` counts, which it
/// never reaches. At a turn each nanosecond that lasts five hundred years. A loop without an end
/// would be no function that returns.
pub fn turns() -> u64
    ensures { result ≡ 2 ^ 64 - 1 }
{
    u64::MAX
}
