//! Engines over a source and a sink apart.

ghost use Rattle.std.specs.Prelude.{◌≡◌, ◌≤◌, ◌<◌, ◌+◌, ◌-◌, ◌^◌, true, None};
ghost use Rattle.std.specs.Prelude.{IfOk, IfErr, OnOk};
ghost use Rattle.rfb_server.specs.Model.{fault_of as fault_of_server};
ghost use Rattle.rfb_viewer.specs.Model.{fault_of as fault_of_viewer};
ghost use Rattle.rfb_session.specs.Failed.{StaysUnfed};
ghost use Rattle.rfb_session.specs.ServeEngine.{AllServed, GoesOn, ServerBetween, StopsServing};
ghost use Rattle.rfb_session.specs.Turns.{GreetsAndTurns, StopsByTurns};
ghost use Rattle.rfb_session.specs.ViewEngine.{HasViewed, StopsViewing};

use crate::engine::device::{Sink, Source};
use crate::engine::fault::EngineFault;
use crate::engine::nowhere::Nowhere;
use crate::engine::pair::Pair;
use crate::engine::scene::Scene;
use crate::engine::serving::serve_over;
use crate::engine::viewing::view_over;
use rfb_server::Server;
use rfb_viewer::Viewer;
use std::alloc::Global;

/// Runs a fresh server, whose screen may be drawn on: writes its greeting, and then reads, feeds it
/// what comes and writes its answers, until `source` ends. After each read, of 4,096 bytes at most,
/// it composes once; an update is written, and then the scene draws. Returns how many updates there
/// were, as many as a `u64` has. The errors are `Truncated` where the bytes end inside a message or
/// the handshake, `Device` where a read or a write fails, `NoMemory` where there is none for an
/// update, and the server's fault where it ends by one. But for that fault the server is as the
/// bytes and drawings left it.
pub fn serve<R: Source, W: Sink, S: Scene>(
    alloc: Global,
    source: &mut R,
    sink: &mut W,
    server: &mut Server,
    scene: &mut S,
) -> Result<u64, EngineFault>
    requires readable { R.failed source.old < 2 ^ 64 - 1 }
    requires writable { W.failed sink.old < 2 ^ 64 - 1 }
    ensures served { IfOk result (λ updates. GoesOn (λ front. AllServed
        (R.unread source.old) (R.unread source.new) (W.written sink.old) (W.written sink.new)
        front server.old updates server.new) server.old) }
    ensures turns { IfOk result (λ updates. GreetsAndTurns S.shows
        (R.unread source.old) (R.unread source.new) (W.written sink.old) (W.written sink.new)
        server.old scene.old updates server.new scene.new) }
    ensures between { OnOk result (ServerBetween server.new true) }
    ensures none_failed { OnOk result ((R.failed source.new ≡ R.failed source.old)
        × (W.failed sink.new ≡ W.failed sink.old)) }
    ensures stopped { IfErr result (λ fault. GoesOn (λ front. StopsServing
        (R.unread source.old) (R.unread source.new) (R.failed source.old) (R.failed source.new)
        (W.written sink.old) (W.written sink.new) (W.failed sink.old) (W.failed sink.new)
        front server.old fault server.new) server.old) }
    ensures in_turn { IfErr result (λ fault. StopsByTurns S.shows
        (R.unread source.old) (R.unread source.new) (R.failed source.old) (R.failed source.new)
        (W.written sink.old) (W.written sink.new) (W.failed sink.old) (W.failed sink.new)
        server.old scene.old fault server.new scene.new) }
    // Of a server that had failed.
    ensures failed { StaysUnfed (λ f. EngineFault.Server f) (Err EngineFault.Truncated)
        (fault_of_server server.old) (R.unread source.old) (R.unread source.new)
        server.old result server.new }
{
    let mut wire = Pair { source, sink };
    serve_over(alloc, &mut wire, server, scene)
}

/// Runs a fresh viewer until `updates` updates ended, at least one: reads, feeds it what comes and
/// writes its answers. Once it is ready it asks for the whole screen, and after each update but the
/// last for what has changed. It stops at once after the last: later bytes of that read are not
/// fed. The errors are `Truncated` where the bytes end before that, `Device` where a read or a
/// write fails, and the viewer's fault where it ends by one. But for that fault the viewer is as
/// the bytes and requests left it.
pub fn view<R: Source, W: Sink>(
    source: &mut R,
    sink: &mut W,
    viewer: &mut Viewer,
    updates: u32,
) -> Result<u32, EngineFault>
    requires readable { R.failed source.old < 2 ^ 64 - 1 }
    requires writable { W.failed sink.old < 2 ^ 64 - 1 }
    requires some { 1 ≤ updates }
    ensures told { IfOk result (λ told. told ≡ updates) }
    ensures viewed { OnOk result (HasViewed (R.unread source.old) (R.unread source.new)
        (W.written sink.old) (W.written sink.new) None None viewer.old updates viewer.new) }
    ensures none_failed { OnOk result ((R.failed source.new ≡ R.failed source.old)
        × (W.failed sink.new ≡ W.failed sink.old)) }
    ensures stopped { IfErr result (λ fault. StopsViewing
        (R.unread source.old) (R.unread source.new) (W.written sink.old) (W.written sink.new)
        None None (R.failed source.old + W.failed sink.old)
        (R.failed source.new + W.failed sink.new) viewer.old updates fault viewer.new) }
    // Of a viewer that had failed.
    ensures failed { StaysUnfed (λ f. EngineFault.Viewer f) (Err EngineFault.Truncated)
        (fault_of_viewer viewer.old) (R.unread source.old) (R.unread source.new)
        viewer.old result viewer.new }
{
    view_recording(source, sink, &mut Nowhere, viewer, updates)
}

/// `view` that also writes to `kept` the server's bytes as they came, before it answers them: those
/// that the viewer was fed, and no others. So `play` of them ends as this does. Where the server
/// does wrong, the later bytes of that read are there too, unless writing them fails.
pub fn view_recording<R: Source, W: Sink, K: Sink>(
    source: &mut R,
    sink: &mut W,
    kept: &mut K,
    viewer: &mut Viewer,
    updates: u32,
) -> Result<u32, EngineFault>
    requires some { 1 ≤ updates }
    requires readable { R.failed source.old < 2 ^ 64 - 1 }
    requires writable { W.failed sink.old < 2 ^ 64 - 1 }
    requires keepable { K.failed kept.old < 2 ^ 64 - 1 }
    ensures told { IfOk result (λ told. told ≡ updates) }
    ensures viewed { OnOk result (HasViewed (R.unread source.old) (R.unread source.new)
        (W.written sink.old) (W.written sink.new) (K.written kept.old) (K.written kept.new)
        viewer.old updates viewer.new) }
    ensures none_failed { OnOk result ((R.failed source.new ≡ R.failed source.old)
        × (W.failed sink.new ≡ W.failed sink.old) × (K.failed kept.new ≡ K.failed kept.old)) }
    ensures stopped { IfErr result (λ fault. StopsViewing
        (R.unread source.old) (R.unread source.new) (W.written sink.old) (W.written sink.new)
        (K.written kept.old) (K.written kept.new)
        (R.failed source.old + W.failed sink.old + K.failed kept.old)
        (R.failed source.new + W.failed sink.new + K.failed kept.new)
        viewer.old updates fault viewer.new) }
    ensures same_reference { K.reference kept.new ≡ K.reference kept.old }
    // Of a viewer that had failed.
    ensures failed { StaysUnfed (λ f. EngineFault.Viewer f) (Err EngineFault.Truncated)
        (fault_of_viewer viewer.old) (R.unread source.old) (R.unread source.new)
        viewer.old result viewer.new }
{
    let mut wire = Pair { source, sink };
    view_over(&mut wire, kept, viewer, updates)
}
