//! What a core still wants of its doors.

ghost use Rattle.std.specs.Prelude.{◌≡◌, ◌↔◌, ◌<◌, ◌⊎◌, ℕ, IsTrue};
ghost use Rattle.rfb_session.specs.doors.Wants.{IsOver, IsWanted, longest};

use crate::doors::clock::{Clock, Pause};
use crate::doors::cores::Core;

// How long a loop over so many doors may wait, if its core wants to be called at a time.
pub(super) fn how_long<C: Core, K: Clock>(
    core: &C,
    clock: &K,
    doors: usize,
    next: Option<u64>,
) -> Pause
    // It never sleeps on a door that is both ready and wanted, and it sleeps where none is.
    ensures look { (d : ℕ) → d < doors →
        IsWanted C.space C.waiting K.readable K.writable core.now clock.now d →
        result ≡ Pause.Look }
    ensures wanted { result ≡ Pause.Look → (d : ℕ) × (d < doors)
        × IsWanted C.space C.waiting K.readable K.writable core.now clock.now d }
    ensures longest { (result ≡ Pause.Look) ⊎ (result ≡ longest next) }
{
    for door in 0..doors {
        if is_wanted(core, clock, door) {
            return Pause::Look;
        }
    }
    match next {
        Some(time) => Pause::Until(time),
        None => Pause::Ready,
    }
}

// Whether a door is ready for what the core wants there.
fn is_wanted<C: Core, K: Clock>(core: &C, clock: &K, door: usize) -> bool
    ensures { IsTrue result
        ↔ IsWanted C.space C.waiting K.readable K.writable core.now clock.now door }
{
    clock.reads(door) && core.room(door) > 0
        || clock.writes(door) && !core.to_write(door).is_empty()
}

// Whether all of so many doors may be closed, and nothing waits at any of them.
pub(super) fn are_over<C: Core>(core: &C, doors: usize) -> bool {
    for door in 0..doors {
        if !is_over(core, door) {
            return false;
        }
    }
    true
}

// Whether a door may be closed, and nothing waits there.
pub(super) fn is_over<C: Core>(core: &C, door: usize) -> bool
    ensures { IsTrue result ↔ IsOver C.closed C.waiting core.now door }
{
    core.is_closed(door) && core.to_write(door).is_empty()
}
