//! Recorded bytes of a server, played to a viewer.

ghost use Rattle.std.specs.Prelude.{◌≡◌, ◌≤◌, ◌<◌, ◌-◌, ◌^◌, None, true};
ghost use Rattle.std.specs.Prelude.{IfOk, IfErr, IfSome, OnOk};
ghost use Rattle.rfb_session.specs.Failed.{StaysUnfed};
ghost use Rattle.rfb_session.specs.Playback.{AllPlayed, StopsPlaying};
ghost use Rattle.rfb_session.specs.FirstUpdates.{AreEnough, AreFewer, AreNoMore, PlayedFirst};
ghost use Rattle.rfb_session.specs.FirstUpdates.{StopsPlayingSome, StopsPlayingUpTo};
ghost use Rattle.rfb_session.specs.Verdict.{JudgesAll};
ghost use Rattle.rfb_session.specs.Watcher.{EndsPlaying, HearsRead};
ghost use Rattle.rfb_session.specs.ViewerActs.{StandsBetween};
ghost use Rattle.rfb_viewer.specs.Model.{fault_of};

mod feeding;

use crate::engine::device::Source;
use crate::engine::fault::EngineFault;
use crate::engine::watcher::{Unwatched, Watcher};
use feeding::{are_enough, feed_all};
use rfb_viewer::Viewer;

/// Feeds a fresh viewer what `source` gives, until it ends, and returns how many updates ended, as
/// many as a `u64` has. What the viewer answers is dropped. The errors are `Truncated` where the
/// bytes end inside a message or the handshake, `Device` where a read fails, and the viewer's fault
/// where it ends by one. After `Truncated` and `Device` the viewer is as the bytes left it.
pub fn play<R: Source>(source: &mut R, viewer: &mut Viewer) -> Result<u64, EngineFault>
    requires countable { R.failed source.old < 2 ^ 64 - 1 }
    ensures played { IfOk result (λ updates. AllPlayed
        (R.unread source.old) (R.unread source.new) viewer.old updates viewer.new) }
    ensures between { OnOk result (StandsBetween viewer.new true) }
    ensures none_failed { OnOk result (R.failed source.new ≡ R.failed source.old) }
    ensures stopped { IfErr result (λ fault. StopsPlaying
        (R.unread source.old) (R.unread source.new) (R.failed source.old) (R.failed source.new)
        viewer.old fault viewer.new) }
    // Of a viewer that had failed.
    ensures failed { StaysUnfed (λ f. EngineFault.Viewer f) (Err EngineFault.Truncated)
        (fault_of viewer.old) (R.unread source.old) (R.unread source.new)
        viewer.old result viewer.new }
    // All of the bytes are answered by their verdict.
    ensures verdict { JudgesAll (R.unread source.old) (R.failed source.old) (R.failed source.new)
        viewer.old result viewer.new }
{
    play_watched(source, viewer, None, &mut Unwatched)
}

/// `play` that stops once `updates` updates ended, at least one, and returns their number then. It
/// feeds no byte after the last of them. Where fewer end it does as `play`.
pub fn play_some<R: Source>(
    source: &mut R,
    viewer: &mut Viewer,
    updates: u64,
) -> Result<u64, EngineFault>
    requires countable { R.failed source.old < 2 ^ 64 - 1 }
    requires some { 1 ≤ updates }
    ensures few { IfOk result (λ told. told ≤ updates) }
    ensures first { IfOk result (λ told. told ≡ updates → PlayedFirst
        (R.unread source.old) (R.unread source.new) viewer.old updates viewer.new) }
    ensures played { IfOk result (λ told. told < updates → AllPlayed
        (R.unread source.old) (R.unread source.new) viewer.old told viewer.new) }
    ensures between { IfOk result (λ told. told < updates → StandsBetween viewer.new true) }
    ensures none_failed { OnOk result (R.failed source.new ≡ R.failed source.old) }
    ensures stopped { IfErr result (λ fault. StopsPlayingSome
        (R.unread source.old) (R.unread source.new) (R.failed source.old) (R.failed source.new)
        viewer.old updates fault viewer.new) }
    // Of a viewer that had failed.
    ensures failed { StaysUnfed (λ f. EngineFault.Viewer f) (Err EngineFault.Truncated)
        (fault_of viewer.old) (R.unread source.old) (R.unread source.new)
        viewer.old result viewer.new }
{
    play_watched(source, viewer, Some(updates), &mut Unwatched)
}

/// `play` with somebody who watches; or `play_some`, where a number of updates is given. The
/// watcher hears of every event of the viewer's before the next byte is fed, also of those before a
/// fault.
pub fn play_watched<R: Source, A: Watcher>(
    source: &mut R,
    viewer: &mut Viewer,
    updates: Option<u64>,
    watcher: &mut A,
) -> Result<u64, EngineFault>
    requires countable { R.failed source.old < 2 ^ 64 - 1 }
    requires some { IfSome updates (λ count. 1 ≤ count) }
    // What the watcher heard.
    ensures heard { HearsRead A.steps (EndsPlaying updates result viewer.new)
        (R.unread source.old) (R.unread source.new) viewer.old watcher.old watcher.new }

    // The bytes, as `play` and `play_some` have them.
    ensures few { IfOk result (λ told. AreNoMore updates told) }
    ensures first { IfOk result (λ told. AreEnough updates told → PlayedFirst
        (R.unread source.old) (R.unread source.new) viewer.old told viewer.new) }
    ensures played { IfOk result (λ told. AreFewer updates told → AllPlayed
        (R.unread source.old) (R.unread source.new) viewer.old told viewer.new) }
    ensures between { IfOk result (λ told. AreFewer updates told → StandsBetween viewer.new true) }
    ensures none_failed { OnOk result (R.failed source.new ≡ R.failed source.old) }
    ensures stopped { IfErr result (λ fault. StopsPlayingUpTo updates
        (R.unread source.old) (R.unread source.new) (R.failed source.old) (R.failed source.new)
        viewer.old fault viewer.new) }
    // Of a viewer that had failed.
    ensures failed { StaysUnfed (λ f. EngineFault.Viewer f) (Err EngineFault.Truncated)
        (fault_of viewer.old) (R.unread source.old) (R.unread source.new)
        viewer.old result viewer.new }
    // Where all are played, all of the bytes are answered by their verdict.
    ensures verdict { updates ≡ None → JudgesAll (R.unread source.old) (R.failed source.old)
        (R.failed source.new) viewer.old result viewer.new }
{
    let told = feed_all(source, viewer, updates, watcher)?;
    if are_enough(told, updates) {
        return Ok(told);
    }
    if !viewer.between() {
        return Err(EngineFault::Truncated);
    }
    Ok(told)
}
