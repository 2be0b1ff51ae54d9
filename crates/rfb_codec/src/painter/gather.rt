//! Bytes of a piece that comes in parts.

ghost use Rattle.std.specs.Prelude.{◌≡◌, ◌+◌, ◌-◌, ◌<◌, ◌≤◌, ◌++◌, length, take, min};
ghost use Rattle.arrayvec.specs.ArrayVec.{array_vec_len};

use arrayvec::ArrayVec;

/// The bytes of the piece under way.
pub type Pending = ArrayVec<u8, MAX_PENDING>;

/// How many bytes the longest piece has: a tile of Hextile with 255 coloured subrectangles.
pub const MAX_PENDING: usize = 1536;

/// Appends bytes to those pending, up to the end of a piece of `size` bytes, and returns how many.
pub fn gather(pending: &mut Pending, size: usize, bytes: &[u8]) -> usize
    requires short { array_vec_len pending.old < size }
    requires room { size ≤ 1536 }
    ensures used { result ≤ length bytes.now }
    ensures count { result ≡ min (size - array_vec_len pending.old) (length bytes.now) }
    ensures items { pending.new.items ≡ pending.old.items ++ take result bytes.now }
    ensures len { array_vec_len pending.new ≡ array_vec_len pending.old + result }
    ensures within { array_vec_len pending.new ≤ size }
{
    let used = bytes.len().min(size - pending.len());
    match pending.try_extend_from_slice(&bytes[..used]) {
        Ok(()) => used,
        Err(_) => unreachable!(),
    }
}
