//! A core of two doors, for trials: what came at one waits at the other.

ghost use Rattle.std.specs.Prelude.{◌≤◌};
ghost use Rattle.arrayvec.specs.ArrayVec.{array_vec_len};

mod laws;

use crate::doors::cores::Core;
use arrayvec::ArrayVec;
pub use laws::{echoes_all, serve};

/// An echo of the doors 0 and 1, with at most 64 bytes on their way to each.
#[derive(Debug, Drop)]
pub struct Echo {
    first: ArrayVec<u8, 64>,
    second: ArrayVec<u8, 64>,
    first_ended: bool,
    second_ended: bool,
    ghost first_few: { array_vec_len first ≤ 64 },
    ghost second_few: { array_vec_len second ≤ 64 },
}

impl Echo {
    ghost use Rattle.std.specs.Prelude.{◌≡◌, ℕ, []};
    ghost use Rattle.rfb_session.specs.doors.Echo.{waiting_at};

    /// Nothing waits yet.
    pub fn new() -> Echo
        ensures { (d : ℕ) → waiting_at result d ≡ [] }
    {
        Echo {
            first: ArrayVec::new(),
            second: ArrayVec::new(),
            first_ended: false,
            second_ended: false,
        }
    }
}

/// It is over once both doors have ended. A door that failed counts as ended; what waits there
/// stays.
impl Core for Echo {
    ghost use Rattle.std.specs.Prelude.{None};
    ghost use Rattle.rfb_session.specs.doors.Echo.{Echoes, waiting_at, space_at, closed_at};

    ghost steps = { Echoes };

    ghost waiting = { waiting_at };

    ghost space = { space_at };

    ghost closed = { closed_at };

    ghost due = { λ echo. None };

    fn room(&self, door: usize) -> usize {
        match door {
            0 if !self.first_ended => 64 - self.second.len(),
            1 if !self.second_ended => 64 - self.first.len(),
            _ => 0,
        }
    }

    fn received(&mut self, door: usize, bytes: &[u8]) -> usize {
        if door == 0 {
            self.second.push(bytes[0]);
        } else {
            self.first.push(bytes[0]);
        }
        1
    }

    fn ended(&mut self, door: usize) {
        if door == 0 {
            self.first_ended = true;
        } else {
            self.second_ended = true;
        }
    }

    fn failed(&mut self, door: usize) {
        self.ended(door);
    }

    fn to_write(&self, door: usize) -> &[u8] {
        match door {
            0 => self.first.as_slice(),
            1 => self.second.as_slice(),
            _ => &[],
        }
    }

    fn written(&mut self, door: usize, count: usize) {
        if door == 0 {
            self.first.drain(..count);
        } else {
            self.second.drain(..count);
        }
    }

    fn is_closed(&self, _door: usize) -> bool {
        self.first_ended && self.second_ended
    }

    fn turned(&mut self, _now: u64) -> Option<u64> {
        None
    }
}
