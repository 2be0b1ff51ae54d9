//! Bytes that are appended within room, and pieces that come in slices.

ghost use Rattle.std.specs.Prelude.{◌≡◌, ◌≤◌, ◌<◌, ◌+◌, ◌++◌, length, take, vec_len, IfSome, None};
ghost use Rattle.std.specs.Vec.{vec_capacity};
ghost use Rattle.arrayvec.specs.ArrayVec.{array_vec_len};

use arrayvec::ArrayVec;
use std::mem;

/// Takes further bytes of a piece of `SIZE` bytes. Returns how many it took, and the piece, if it
/// is whole now.
pub fn gather<const PART: usize, const SIZE: usize>(
    part: &mut ArrayVec<u8, PART>,
    bytes: &[u8],
) -> (usize, Option<ArrayVec<u8, SIZE>>)
    requires size { SIZE ≡ PART + 1 }
    requires some { 0 < length bytes.now }
    ensures used { (0 < result.0) × (result.0 ≤ length bytes.now) }
    ensures more { result.1 ≡ None
        → (part.new.items ≡ part.old.items ++ take result.0 bytes.now)
        × (length part.new.items < SIZE) }
    ensures whole { IfSome result.1 (λ whole.
        (whole.items ≡ part.old.items ++ take result.0 bytes.now)
        × (length whole.items ≡ SIZE)) }
{
    let missing = SIZE - part.len();
    if bytes.len() < missing {
        append(part, bytes);
        return (bytes.len(), None);
    }
    let mut whole = ArrayVec::new();
    append(&mut whole, part.as_slice());
    append(&mut whole, &bytes[..missing]);
    (missing, Some(whole))
}

/// Appends items for which there is room.
pub fn append<T: Copy, const ROOM: usize>(kept: &mut ArrayVec<T, ROOM>, items: &[T])
    requires { array_vec_len kept.old + length items.now ≤ ROOM }
    ensures items { kept.new.items ≡ kept.old.items ++ items.now }
    ensures len { array_vec_len kept.new ≡ array_vec_len kept.old + length items.now }
{
    match kept.try_extend_from_slice(items) {
        Ok(()) => {}
        Err(_) => unreachable!(),
    }
}

/// Appends bytes for which there is room, so the vector keeps its memory. Each is a push into that
/// room, since of a whole slice std says only that the room does not become less. The vector is
/// taken out for it: behind a reference each byte would read and write its pointer and its length.
pub fn append_within(out: &mut Vec<u8>, bytes: &[u8])
    requires { vec_len out.old + length bytes.now ≤ vec_capacity out.old }
    ensures items { out.new.items ≡ out.old.items ++ bytes.now }
    ensures len { vec_len out.new ≡ vec_len out.old + length bytes.now }
    ensures room { vec_capacity out.new ≡ vec_capacity out.old }
{
    let empty = Vec::new(*out.allocator());
    let mut taken = mem::replace(out, empty);
    for byte in bytes {
        taken.push_reserved(*byte);
    }
    *out = taken;
}
