//! Room for bytes that are to be appended.

ghost use Rattle.std.specs.Prelude.{◌≡◌, ◌+◌, ◌^◌, ◌≤◌, ◌⊎◌, vec_len, OnOk};
ghost use Rattle.std.specs.Vec.{vec_capacity};
ghost use Rattle.rfb_server.specs.Room.{GrowsWithin};

use std::alloc::AllocError;

/// Makes room for that many bytes more, if there is less. It doubles the room, so that a buffer
/// that takes one update after another is seldom moved. Where `more` is at least the room that
/// there was, or there is no memory for twice, it makes just enough. On an error nothing changes.
pub(crate) fn make_room(out: &mut Vec<u8>, more: usize) -> Result<(), AllocError>
    requires few { more ≤ 2 ^ 27 }
    ensures items { out.new.items ≡ out.old.items }
    ensures enough { OnOk result (vec_len out.old + more ≤ vec_capacity out.new) }
    ensures most { GrowsWithin (vec_capacity out.old) (vec_len out.old + more)
        (vec_capacity out.new) }
{
    let len = out.len();
    let room = out.capacity();
    if more <= room - len {
        return Ok(());
    }
    if more < room {
        return grow(out, room + (room - len), more);
    }
    out.reserve_exact(more)
}

// Makes room for as many bytes more as are best, or where there is no memory for these for the
// least.
fn grow(out: &mut Vec<u8>, best: usize, least: usize) -> Result<(), AllocError>
    requires least { least ≤ best }
    ensures items { out.new.items ≡ out.old.items }
    ensures enough { OnOk result (vec_len out.old + least ≤ vec_capacity out.new) }
    ensures most { (vec_capacity out.new ≤ vec_capacity out.old)
        ⊎ (vec_capacity out.new ≤ vec_len out.old + best) }
{
    match out.reserve_exact(best) {
        Ok(()) => Ok(()),
        Err(_) => out.reserve_exact(least),
    }
}
