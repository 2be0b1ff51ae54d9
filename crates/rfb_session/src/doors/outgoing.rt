//! One write at one door.

ghost use Rattle.std.specs.Prelude.{◌≡◌, ◌<◌, length};
ghost use Rattle.rfb_session.specs.doors.Turns.{MovesOut, Learns};

use crate::doors::cores::Core;
use crate::doors::device::{Answer, Device};

// How many bytes leave by one write at most, so that no door has the others wait for long.
const PIECE: usize = 1 << 20;

/// Writes once at a door, if something waits there, a mebibyte of it at most, and reports to the
/// core how much of it has left. Where nothing waits it answers `Again`, so what is known of the
/// door's readiness stays.
pub fn tell<C: Core, D: Device>(core: &mut C, device: &mut D, door: usize) -> Answer
    ensures moves { MovesOut C.steps D.unread D.written D.failed D.stands
        door core.old core.new device.old device.new }
    ensures learns { Learns C.steps door (C.waiting core.old door) result core.old core.new }
    ensures waits { result ≡ Answer.Waits → 0 < length (C.waiting core.old door) }
{
    let waiting = core.to_write(door);
    if waiting.is_empty() {
        return Answer::Again;
    }
    match device.write(&waiting[..waiting.len().min(PIECE)]) {
        Answer::Moved(left) => {
            core.written(door, left);
            Answer::Moved(left)
        }
        Answer::Ended => unreachable!(),
        Answer::Again => Answer::Again,
        Answer::Waits => Answer::Waits,
        Answer::Failed => {
            core.failed(door);
            Answer::Failed
        }
    }
}
