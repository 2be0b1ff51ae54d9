//! A viewer that is fed what a source gives.

ghost use Rattle.std.specs.Prelude.{◌≡◌, ◌≤◌, ◌<◌, ◌+◌, ◌-◌, ◌^◌, length, min, take};
ghost use Rattle.std.specs.Bool.{OnFalse, OnTrue};
ghost use Rattle.std.specs.Prelude.{IfOk, IfErr, IfSome, OnErr, OnOk};
ghost use Rattle.rfb_viewer.specs.Model.{fault_of};
ghost use Rattle.rfb_viewer.specs.Told.{seen};
ghost use Rattle.rfb_wire.specs.stream.End.{StaysFailed};
ghost use Rattle.rfb_session.specs.Failed.{StaysUnfed};
ghost use Rattle.rfb_session.specs.Playback.{AllPlayed};
ghost use Rattle.rfb_session.specs.FirstUpdates.{AreEnough, AreFewer, AreNoFewer, AreNoMore};
ghost use Rattle.rfb_session.specs.FirstUpdates.{IsWatchedFirst, PlayedFirst, StopsPlayingUpTo};
ghost use Rattle.rfb_session.specs.FirstUpdates.{WasCounted};
ghost use Rattle.rfb_session.specs.Watcher.{EndsPlaying, EndsRead, HearsCounted, HearsOf};
ghost use Rattle.rfb_session.specs.Watcher.{HearsRead};
ghost use Rattle.rfb_session.specs.ViewerActs.{EndsBy, EndsWithin, IsWatched, ends_told};

use crate::engine::UPDATE_READ_SIZE;
use crate::engine::device::Source;
use crate::engine::fault::EngineFault;
use crate::engine::watcher::{Watcher, tell};
use crate::loops::turns;
use rfb_viewer::{Viewer, ViewerEvent, ViewerFault};

// Feeds a viewer what `source` gives, until enough updates ended or it ends.
pub(super) fn feed_all<R: Source, A: Watcher>(
    source: &mut R,
    viewer: &mut Viewer,
    enough: Option<u64>,
    watcher: &mut A,
) -> Result<u64, EngineFault>
    requires some { IfSome enough (λ count. 1 ≤ count) }
    requires countable { R.failed source.old < 2 ^ 64 - 1 }
    ensures few { IfOk result (λ told. AreNoMore enough told) }
    ensures first { IfOk result (λ told. AreEnough enough told → PlayedFirst
        (R.unread source.old) (R.unread source.new) viewer.old told viewer.new) }
    ensures played { IfOk result (λ told. AreFewer enough told → AllPlayed
        (R.unread source.old) (R.unread source.new) viewer.old told viewer.new) }
    ensures none_failed { OnOk result (R.failed source.new ≡ R.failed source.old) }
    ensures stopped { IfErr result (λ fault. StopsPlayingUpTo enough
        (R.unread source.old) (R.unread source.new) (R.failed source.old) (R.failed source.new)
        viewer.old fault viewer.new) }
    ensures failed { StaysUnfed (λ f. EngineFault.Viewer f) (Ok 0) (fault_of viewer.old)
        (R.unread source.old) (R.unread source.new) viewer.old result viewer.new }
    ensures heard { HearsRead A.steps (EndsPlaying enough result viewer.new)
        (R.unread source.old) (R.unread source.new) viewer.old watcher.old watcher.new }
{
    let mut part = [0; UPDATE_READ_SIZE];
    let mut updates = 0;
    // Each turn reads a byte or is the last.
    for _turn in 0..turns() {
        let Ok(count) = source.read(&mut part) else {
            return Err(EngineFault::Device);
        };
        if count == 0 {
            return Ok(updates);
        }
        updates = feed_read(&part[..count], viewer, updates, enough, watcher)?;
        if are_enough(updates, enough) {
            return Ok(updates);
        }
    }
    Ok(updates)
}

// Feeds a viewer these bytes, until enough updates ended, and adds their number to `before`, as far
// as a `u64` goes.
fn feed_read<A: Watcher>(
    bytes: &[u8],
    viewer: &mut Viewer,
    before: u64,
    enough: Option<u64>,
    watcher: &mut A,
) -> Result<u64, ViewerFault>
    requires some { AreFewer enough before }
    ensures few { IfOk result (λ told. AreNoMore enough told) }
    ensures watched { IfOk result (λ told. AreFewer enough told →
        IsWatched viewer.old bytes.now before told viewer.new) }
    ensures first { IfOk result (λ told. AreEnough enough told →
        IsWatchedFirst viewer.old bytes.now before told viewer.new) }
    ensures stopped { IfErr result (λ fault. EndsWithin viewer.old bytes.now fault viewer.new) }
    ensures failed { 0 < length bytes.now →
        StaysFailed (fault_of viewer.old) viewer.old result viewer.new }
    ensures heard { HearsOf A.steps (EndsRead enough before result viewer.new)
        viewer.old watcher.old bytes.now watcher.new }
{
    let mut rest = bytes;
    let mut updates = before;
    while !rest.is_empty() {
        let (used, more) = feed_once(rest, viewer, updates, watcher)?;
        if are_enough(more, enough) {
            return Ok(more);
        }
        rest = &rest[used..];
        updates = more;
    }
    Ok(updates)
}

// Feeds a viewer of these bytes what it takes at once, and reports it to the watcher. Returns how
// many bytes that were, and how many updates ended then.
fn feed_once<A: Watcher>(
    bytes: &[u8],
    viewer: &mut Viewer,
    before: u64,
    watcher: &mut A,
) -> Result<(usize, u64), ViewerFault>
    requires some { 0 < length bytes.now }
    ensures used { IfOk result (λ told. (0 < told.0) × (told.0 ≤ length bytes.now)) }
    ensures counted { IfOk result (λ told. WasCounted
        viewer.old (take told.0 bytes.now) before told.1 viewer.new) }
    ensures ends { IfErr result (λ fault. EndsBy fault viewer.old bytes.now viewer.new) }
    ensures failed { StaysFailed (fault_of viewer.old) viewer.old result viewer.new }
    ensures heard { IfOk result (λ told. HearsCounted A.steps viewer.old watcher.old
        (take told.0 bytes.now) before told.1 viewer.new watcher.new) }
    ensures unheard { OnErr result (watcher.new ≡ watcher.old) }
{
    let fed = viewer.feed(bytes)?;
    tell(&fed.event, viewer, watcher);
    Ok((fed.used, count(&fed.event, before)))
}

// `updates`, and one more where the event is the end of one.
fn count(event: &Option<ViewerEvent>, updates: u64) -> u64
    ensures { result ≡ min (updates + ends_told (seen event.now)) (2 ^ 64 - 1) }
{
    match event {
        Some(ViewerEvent::UpdateDone) => updates.saturating_add(1),
        Some(ViewerEvent::Reply(_))
        | Some(ViewerEvent::Ready { .. })
        | Some(ViewerEvent::Bell)
        | Some(ViewerEvent::CutText { .. })
        | Some(ViewerEvent::ColourMapSkipped)
        | None => updates,
    }
}

// Whether so many updates are enough.
pub(super) fn are_enough(updates: u64, enough: Option<u64>) -> bool
    ensures yes { OnTrue result (AreNoFewer enough updates) }
    ensures no { OnFalse result (AreFewer enough updates) }
{
    match enough {
        Some(most) => updates >= most,
        None => false,
    }
}
