//! Bytes of a vector that come to its front.

ghost use Rattle.std.specs.Prelude.{◌≡◌, ◌≤◌, ◌+◌, length, drop};
ghost use Rattle.std.specs.Vec.{vec_capacity};

/// The bytes from number `from` on take the place of those before them, which are at least as many,
/// and the vector ends with them. They move by runs of memory.
pub(crate) fn bring_to_front(bytes: &mut Vec<u8>, from: usize)
    requires within { from ≤ length bytes.old.items }
    requires apart { length bytes.old.items ≤ from + from }
    ensures items { bytes.new.items ≡ drop from bytes.old.items }
    ensures room { vec_capacity bytes.new ≡ vec_capacity bytes.old }
{
    let count = bytes.len() - from;
    let (front, back) = bytes.as_mut_slice().split_at_mut(from);
    front[..count].copy_from_slice(back);
    bytes.truncate(count);
}
