//! The beginning of some bytes.

ghost use Rattle.std.specs.Prelude.{◌≡◌, ◌≤◌, length, take};

/// So many bytes from the front, or all where they are fewer.
pub(crate) fn beginning_of(bytes: &[u8], most: usize) -> &[u8]
    ensures value { result.now ≡ take most bytes.now }
    ensures few { length result.now ≤ most }
{
    if bytes.len() <= most {
        return bytes;
    }
    &bytes[..most]
}
