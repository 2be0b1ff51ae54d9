//! Which writes count as failures.

ghost use Rattle.std.specs.Prelude.{◌≡◌, ◌<◌, ◌+◌, ◌-◌, ◌^◌, length, MatchResult};

use std::io;

/// The answer of a write of `buf`, which is counted where it failed: it gave an error, or took none
/// of the bytes that there are.
pub fn counted(answer: io::Result<usize>, buf: &[u8], failures: &mut u64) -> io::Result<usize>
    requires countable { failures.old < 2 ^ 64 - 1 }
    ensures same { result ≡ answer }
    ensures count { MatchResult answer
        (λ taken. (0 < taken → failures.new ≡ failures.old)
        × (taken ≡ 0 → 0 < length buf.now → failures.new ≡ failures.old + 1)
        × (length buf.now ≡ 0 → failures.new ≡ failures.old))
        (λ error. failures.new ≡ failures.old + 1) }
{
    match &answer {
        Ok(taken) if *taken > 0 || buf.is_empty() => {}
        _ => *failures += 1,
    }
    answer
}
