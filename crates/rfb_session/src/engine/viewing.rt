//! A viewer run over a wire.

ghost use Rattle.std.specs.Prelude.{◌≡◌, ◌≤◌, ◌<◌, ◌+◌, ◌-◌, ◌^◌, length, take};
ghost use Rattle.std.specs.Prelude.{IfOk, IfErr, OnOk};
ghost use Rattle.rfb_viewer.specs.Model.{fault_of};
ghost use Rattle.rfb_session.specs.Failed.{FailsAgain};
ghost use Rattle.rfb_session.specs.EngineRead.{HasLooked, Looks, StopsLooking};
ghost use Rattle.rfb_session.specs.OverWire.{HasViewedOver, NoneFailedOver, StaysUnfedOver};
ghost use Rattle.rfb_session.specs.OverWire.{StopsViewingOver};
ghost use Rattle.rfb_session.specs.ViewOrder.{StopsViewInOrder, ViewsInOrder};
ghost use Rattle.rfb_session.specs.Watcher.{EndsLooking, EndsViewing, HearsDown, HearsOf};
ghost use Rattle.rfb_session.specs.Watcher.{HearsRead};
ghost use Rattle.rfb_session.specs.Wire.{by_steps};

mod asking;

use crate::engine::UPDATE_READ_SIZE;
use crate::engine::device::Sink;
use crate::engine::fault::EngineFault;
use crate::engine::watcher::{Unwatched, Watcher, tell};
use crate::engine::whole_write::send;
use crate::engine::wire::Wire;
use crate::loops::turns;
use asking::answer;
use rfb_viewer::Viewer;

/// `view_recording` over a wire. It writes all that a read asks for before it reads again: the
/// viewer's answers, and the requests that were due. Only its last turn may stop before that. A
/// `kept` of `Nowhere` makes no recording.
pub fn view_over<W: Wire, K: Sink>(
    wire: &mut W,
    kept: &mut K,
    viewer: &mut Viewer,
    updates: u32,
) -> Result<u32, EngineFault>
    requires readable { (W.known wire.old).failed_reads < 2 ^ 64 - 1 }
    requires writable { (W.known wire.old).failed_writes < 2 ^ 64 - 1 }
    requires keepable { K.failed kept.old < 2 ^ 64 - 1 }
    requires some { 1 ≤ updates }
    // The order of reads and writes.
    ensures in_order { OnOk result (ViewsInOrder W.steps wire.old (K.written kept.old) viewer.old
        updates wire.new (K.written kept.new) viewer.new) }
    ensures stopped_in_order { IfErr result (λ fault. StopsViewInOrder W.steps W.known
        wire.old (K.written kept.old) (K.failed kept.old) viewer.old updates fault
        wire.new (K.written kept.new) (K.failed kept.new) viewer.new) }

    // The bytes, as `view_recording` has them.
    ensures told { IfOk result (λ told. told ≡ updates) }
    ensures viewed { OnOk result (HasViewedOver (W.known wire.old) (W.known wire.new)
        (K.written kept.old) (K.written kept.new) viewer.old updates viewer.new) }
    ensures none_failed { OnOk result (NoneFailedOver (W.known wire.old) (W.known wire.new)
        (K.failed kept.old) (K.failed kept.new)) }
    ensures stopped { IfErr result (λ fault. StopsViewingOver (W.known wire.old) (W.known wire.new)
        (K.written kept.old) (K.written kept.new) (K.failed kept.old) (K.failed kept.new)
        viewer.old updates fault viewer.new) }
    ensures same_reference { K.reference kept.new ≡ K.reference kept.old }
    ensures failed { StaysUnfedOver (λ f. EngineFault.Viewer f) (Err EngineFault.Truncated)
        (fault_of viewer.old) (W.known wire.old) (W.known wire.new) viewer.old result viewer.new }
    ensures same_references { (W.known wire.new).lent ≡ (W.known wire.old).lent }
{
    view_watched(wire, kept, viewer, updates, &mut Unwatched)
}

/// `view_over` with somebody who watches. The watcher hears of every event of the viewer's before
/// anything is sent for it, also of those before a fault.
pub fn view_watched<W: Wire, K: Sink, A: Watcher>(
    wire: &mut W,
    kept: &mut K,
    viewer: &mut Viewer,
    updates: u32,
    watcher: &mut A,
) -> Result<u32, EngineFault>
    requires readable { (W.known wire.old).failed_reads < 2 ^ 64 - 1 }
    requires writable { (W.known wire.old).failed_writes < 2 ^ 64 - 1 }
    requires keepable { K.failed kept.old < 2 ^ 64 - 1 }
    requires some { 1 ≤ updates }
    // What the watcher heard.
    ensures heard { HearsRead A.steps (EndsViewing updates result viewer.new)
        (W.known wire.old).unread (W.known wire.new).unread
        viewer.old watcher.old watcher.new }

    // The order of reads and writes.
    ensures in_order { OnOk result (ViewsInOrder W.steps wire.old (K.written kept.old) viewer.old
        updates wire.new (K.written kept.new) viewer.new) }
    ensures stopped_in_order { IfErr result (λ fault. StopsViewInOrder W.steps W.known
        wire.old (K.written kept.old) (K.failed kept.old) viewer.old updates fault
        wire.new (K.written kept.new) (K.failed kept.new) viewer.new) }

    // The bytes, as `view_recording` has them.
    ensures told { IfOk result (λ told. told ≡ updates) }
    ensures viewed { OnOk result (HasViewedOver (W.known wire.old) (W.known wire.new)
        (K.written kept.old) (K.written kept.new) viewer.old updates viewer.new) }
    ensures none_failed { OnOk result (NoneFailedOver (W.known wire.old) (W.known wire.new)
        (K.failed kept.old) (K.failed kept.new)) }
    ensures stopped { IfErr result (λ fault. StopsViewingOver (W.known wire.old) (W.known wire.new)
        (K.written kept.old) (K.written kept.new) (K.failed kept.old) (K.failed kept.new)
        viewer.old updates fault viewer.new) }
    ensures same_reference { K.reference kept.new ≡ K.reference kept.old }
    ensures failed { StaysUnfedOver (λ f. EngineFault.Viewer f) (Err EngineFault.Truncated)
        (fault_of viewer.old) (W.known wire.old) (W.known wire.new) viewer.old result viewer.new }
    ensures same_references { (W.known wire.new).lent ≡ (W.known wire.old).lent }
{
    let mut part = [0; UPDATE_READ_SIZE];
    let mut left = updates;
    // Each turn reads a byte or is the last.
    for _turn in 0..turns() {
        let Ok(count) = wire.read(&mut part) else {
            return Err(EngineFault::Device);
        };
        if count == 0 {
            return Err(EngineFault::Truncated);
        }
        let fewer = look(&part[..count], wire, kept, viewer, left, watcher)?;
        if fewer == 0 {
            return Ok(updates);
        }
        left = fewer;
    }
    Err(EngineFault::Truncated)
}

// Feeds a viewer these bytes, up to the end of the last update that is looked for, and returns how
// many are looked for then.
fn look<W: Wire, K: Sink, A: Watcher>(
    bytes: &[u8],
    wire: &mut W,
    kept: &mut K,
    viewer: &mut Viewer,
    before: u32,
    watcher: &mut A,
) -> Result<u32, EngineFault>
    requires writable { (W.known wire.old).failed_writes < 2 ^ 64 - 1 }
    requires keepable { K.failed kept.old < 2 ^ 64 - 1 }
    requires wanted { 0 < before }
    ensures looked { IfOk result (λ left. HasLooked (by_steps W.steps) viewer.old bytes.now
        before left wire.old wire.new (K.written kept.old) (K.written kept.new) viewer.new) }
    ensures none_failed { OnOk result
        (((W.known wire.new).failed_writes ≡ (W.known wire.old).failed_writes)
        × (K.failed kept.new ≡ K.failed kept.old)) }
    ensures stopped { IfErr result (λ fault. StopsLooking (by_steps W.steps) viewer.old bytes.now
        wire.old wire.new (K.written kept.old) (K.written kept.new)
        ((W.known wire.old).failed_writes + K.failed kept.old)
        ((W.known wire.new).failed_writes + K.failed kept.new) fault viewer.new) }
    ensures failed { 0 < length bytes.now → FailsAgain (λ f. EngineFault.Viewer f)
        (fault_of viewer.old) viewer.old result viewer.new }
    ensures same_reference { K.reference kept.new ≡ K.reference kept.old }
    ensures heard { HearsOf A.steps (EndsLooking before result viewer.new)
        viewer.old watcher.old bytes.now watcher.new }
{
    let mut rest = bytes;
    let mut left = before;
    while left > 0 && !rest.is_empty() {
        let (used, fewer) = look_once(rest, wire, kept, viewer, left, watcher)?;
        rest = &rest[used..];
        left = fewer;
    }
    Ok(left)
}

// Feeds a viewer of these bytes what it takes at once, reports it to the watcher and keeps it. Then
// writes the viewer's answer, and the request that is due. Returns how many bytes were taken, and
// how many updates are looked for.
fn look_once<W: Wire, K: Sink, A: Watcher>(
    bytes: &[u8],
    wire: &mut W,
    kept: &mut K,
    viewer: &mut Viewer,
    left: u32,
    watcher: &mut A,
) -> Result<(usize, u32), EngineFault>
    requires writable { (W.known wire.old).failed_writes < 2 ^ 64 - 1 }
    requires keepable { K.failed kept.old < 2 ^ 64 - 1 }
    requires some { 0 < length bytes.now }
    requires wanted { 0 < left }
    ensures used { IfOk result (λ told. (0 < told.0) × (told.0 ≤ length bytes.now)) }
    ensures looked { IfOk result (λ told. Looks (by_steps W.steps) viewer.old
        (take told.0 bytes.now) left told.1 wire.old wire.new
        (K.written kept.old) (K.written kept.new) viewer.new) }
    ensures none_failed { OnOk result
        (((W.known wire.new).failed_writes ≡ (W.known wire.old).failed_writes)
        × (K.failed kept.new ≡ K.failed kept.old)) }
    ensures stopped { IfErr result (λ fault. StopsLooking (by_steps W.steps) viewer.old bytes.now
        wire.old wire.new (K.written kept.old) (K.written kept.new)
        ((W.known wire.old).failed_writes + K.failed kept.old)
        ((W.known wire.new).failed_writes + K.failed kept.new) fault viewer.new) }
    ensures failed { FailsAgain (λ f. EngineFault.Viewer f)
        (fault_of viewer.old) viewer.old result viewer.new }
    ensures same_reference { K.reference kept.new ≡ K.reference kept.old }
    ensures heard { IfOk result (λ told. HearsDown A.steps viewer.old watcher.old
        (take told.0 bytes.now) left told.1 viewer.new watcher.new) }
    ensures heard_so_far { IfErr result (λ fault. HearsOf A.steps
        (EndsLooking left (Err fault) viewer.new) viewer.old watcher.old bytes.now watcher.new) }
{
    match viewer.feed(bytes) {
        Ok(fed) => {
            tell(&fed.event, viewer, watcher);
            send(&bytes[..fed.used], kept)?;
            let fewer = answer(&fed.event, left, wire, viewer)?;
            Ok((fed.used, fewer))
        }
        Err(fault) => {
            let _ = send(bytes, kept);
            Err(EngineFault::Viewer(fault))
        }
    }
}
