//! A server run over a wire.

ghost use Rattle.std.specs.Prelude.{◌≡◌, ◌<◌, ◌+◌, ◌-◌, ◌^◌, ◌≤◌, [], length, take, true, false};
ghost use Rattle.std.specs.Prelude.{None};
ghost use Rattle.std.specs.Prelude.{IfOk, IfErr, IfSome, OnOk, OnErr};
ghost use Rattle.rfb_server.specs.Model.{fault_of};
ghost use Rattle.rfb_session.specs.Failed.{FailsAgain};
ghost use Rattle.rfb_session.specs.OverWire.{AllServedOver, GreetsAndTurnsOver, NoneMissed};
ghost use Rattle.rfb_session.specs.OverWire.{StaysUnfedOver, StopsByTurnsOver, StopsInTurnOver};
ghost use Rattle.rfb_session.specs.OverWire.{StopsServingOver, TakesTurnsOver};
ghost use Rattle.rfb_session.specs.ServeEngine.{GoesOn, ServerBetween, StopsHearing, StopsUpdating};
ghost use Rattle.rfb_session.specs.ServeOrder.{ServesInOrder, StopsAfterTurns, StopsInOrder};
ghost use Rattle.rfb_session.specs.ServeOrder.{StopsTurnOver, TurnOver, TurnsToEnd};
ghost use Rattle.rfb_session.specs.Turns.{EndsTurn, IsAnsweredBy};
ghost use Rattle.rfb_session.specs.Wire.{Ended, by_steps};

use crate::engine::READ_SIZE;
use crate::engine::fault::EngineFault;
use crate::engine::scene::Scene;
use crate::engine::whole_write::send_over;
use crate::engine::wire::Wire;
use crate::loops::turns;
use crate::reply::server_reply;
use rfb_server::Server;
use std::alloc::Global;

/// `serve` over a wire. It writes its greeting before it reads, and all that a read asks for before
/// it reads again: the answers, and then the update. Only its last turn may stop before that.
pub fn serve_over<W: Wire, S: Scene>(
    alloc: Global,
    wire: &mut W,
    server: &mut Server,
    scene: &mut S,
) -> Result<u64, EngineFault>
    requires readable { (W.known wire.old).failed_reads < 2 ^ 64 - 1 }
    requires writable { (W.known wire.old).failed_writes < 2 ^ 64 - 1 }
    // The order of reads and writes.
    ensures in_order { IfOk result (λ updates. ServesInOrder W.steps S.shows
        wire.old server.old scene.old updates wire.new server.new scene.new) }
    ensures stopped_in_order { IfErr result (λ fault. StopsInOrder W.steps W.known S.shows
        wire.old server.old scene.old fault wire.new server.new scene.new) }

    // The bytes, as `serve` has them.
    ensures served { IfOk result (λ updates. GoesOn (λ front. AllServedOver
        (W.known wire.old) (W.known wire.new) front server.old updates server.new) server.old) }
    ensures turns { IfOk result (λ updates. GreetsAndTurnsOver S.shows
        (W.known wire.old) (W.known wire.new) server.old scene.old updates server.new scene.new) }
    ensures between { OnOk result (ServerBetween server.new true) }
    ensures none_failed { OnOk result (NoneMissed (W.known wire.old) (W.known wire.new)) }
    ensures stopped { IfErr result (λ fault. GoesOn (λ front. StopsServingOver
        (W.known wire.old) (W.known wire.new) front server.old fault server.new) server.old) }
    ensures in_turn { IfErr result (λ fault. StopsByTurnsOver S.shows
        (W.known wire.old) (W.known wire.new) server.old scene.old fault server.new scene.new) }
    ensures failed { StaysUnfedOver (λ f. EngineFault.Server f) (Err EngineFault.Truncated)
        (fault_of server.old) (W.known wire.old) (W.known wire.new) server.old result server.new }
    ensures same_references { (W.known wire.new).lent ≡ (W.known wire.old).lent }
{
    let greeting = server.greeting();
    send_over(&greeting, wire)?;
    let updates = serve_all(wire, alloc, server, scene)?;
    if !server.between() {
        return Err(EngineFault::Truncated);
    }
    Ok(updates)
}

// Does so after the greeting.
fn serve_all<W: Wire, S: Scene>(
    wire: &mut W,
    alloc: Global,
    server: &mut Server,
    scene: &mut S,
) -> Result<u64, EngineFault>
    requires readable { (W.known wire.old).failed_reads < 2 ^ 64 - 1 }
    requires writable { (W.known wire.old).failed_writes < 2 ^ 64 - 1 }
    ensures served { IfOk result (λ updates. AllServedOver
        (W.known wire.old) (W.known wire.new) [] server.old updates server.new) }
    ensures turns { IfOk result (λ updates. TakesTurnsOver S.shows
        (W.known wire.old) (W.known wire.new) server.old scene.old updates server.new scene.new) }
    ensures none_failed { OnOk result (NoneMissed (W.known wire.old) (W.known wire.new)) }
    ensures stopped { IfErr result (λ fault. StopsServingOver
        (W.known wire.old) (W.known wire.new) [] server.old fault server.new) }
    ensures in_turn { IfErr result (λ fault. StopsInTurnOver S.shows
        (W.known wire.old) (W.known wire.new) server.old scene.old fault server.new scene.new) }
    ensures failed { StaysUnfedOver (λ f. EngineFault.Server f) (Ok 0) (fault_of server.old)
        (W.known wire.old) (W.known wire.new) server.old result server.new }
    ensures in_order { IfOk result (λ updates. TurnsToEnd W.steps S.shows
        wire.old server.old scene.old updates wire.new server.new scene.new) }
    ensures stopped_in_order { IfErr result (λ fault. StopsAfterTurns W.steps W.known S.shows
        wire.old server.old scene.old fault wire.new server.new scene.new) }
    ensures same_references { (W.known wire.new).lent ≡ (W.known wire.old).lent }
{
    let mut part = [0; READ_SIZE];
    let mut out = Vec::new(alloc);
    let mut updates: u64 = 0;
    // Each turn reads a byte or is the last.
    for _turn in 0..turns() {
        match turn(&mut part, &mut out, wire, server, scene)? {
            Some(more) => updates = updates.saturating_add(more),
            None => return Ok(updates),
        }
    }
    Ok(updates)
}

// Reads once, feeds the server that, and composes. Returns how many updates there were, one or
// none. All that this sends is written then. Where the wire has ended, the answer says so.
fn turn<W: Wire, S: Scene>(
    part: &mut [u8; READ_SIZE],
    out: &mut Vec<u8>,
    wire: &mut W,
    server: &mut Server,
    scene: &mut S,
) -> Result<Option<u64>, EngineFault>
    requires readable { (W.known wire.old).failed_reads < 2 ^ 64 - 1 }
    requires writable { (W.known wire.old).failed_writes < 2 ^ 64 - 1 }
    ensures turned { IfOk result (λ turned. IfSome turned (λ updates. TurnOver W.steps S.shows
        wire.old server.old scene.old updates wire.new server.new scene.new)) }
    ensures ended { IfOk result (λ turned. turned ≡ None → W.steps wire.old Ended wire.new
        × (server.new ≡ server.old) × (scene.new ≡ scene.old)) }
    ensures stopped { IfErr result (λ fault. StopsTurnOver W.steps W.known
        wire.old server.old fault wire.new server.new) }
    ensures undrawn { OnErr result (scene.new ≡ scene.old) }
    ensures failed { StaysUnfedOver (λ f. EngineFault.Server f) (Ok None) (fault_of server.old)
        (W.known wire.old) (W.known wire.new) server.old result server.new }
{
    let Ok(count) = wire.read(part) else {
        return Err(EngineFault::Device);
    };
    if count == 0 {
        return Ok(None);
    }
    hear(&part[..count], wire, server)?;
    let updates = update(out, wire, server, scene)?;
    Ok(Some(updates))
}

// Feeds a server all of these bytes, and writes each answer as it comes.
fn hear<W: Wire>(bytes: &[u8], wire: &mut W, server: &mut Server) -> Result<(), EngineFault>
    requires countable { (W.known wire.old).failed_writes < 2 ^ 64 - 1 }
    ensures answered { OnOk result (IsAnsweredBy (by_steps W.steps)
        server.old bytes.now wire.old wire.new server.new) }
    ensures none_failed { OnOk result
        ((W.known wire.new).failed_writes ≡ (W.known wire.old).failed_writes) }
    ensures stopped { IfErr result (λ fault. StopsHearing (by_steps W.steps)
        server.old bytes.now wire.old wire.new
        (W.known wire.old).failed_writes (W.known wire.new).failed_writes fault server.new) }
    ensures failed { 0 < length bytes.now → FailsAgain (λ f. EngineFault.Server f)
        (fault_of server.old) server.old result server.new }
{
    let mut rest = bytes;
    while !rest.is_empty() {
        let used = hear_some(rest, wire, server)?;
        rest = &rest[used..];
    }
    Ok(())
}

// Feeds a server what it takes of these bytes at once, answers, and returns how many that were.
fn hear_some<W: Wire>(bytes: &[u8], wire: &mut W, server: &mut Server) -> Result<usize, EngineFault>
    requires countable { (W.known wire.old).failed_writes < 2 ^ 64 - 1 }
    requires some { 0 < length bytes.now }
    ensures used { IfOk result (λ used. (0 < used) × (used ≤ length bytes.now)) }
    ensures answered { IfOk result (λ used. IsAnsweredBy (by_steps W.steps)
        server.old (take used bytes.now) wire.old wire.new server.new) }
    ensures none_failed { OnOk result
        ((W.known wire.new).failed_writes ≡ (W.known wire.old).failed_writes) }
    ensures stopped { IfErr result (λ fault. StopsHearing (by_steps W.steps)
        server.old bytes.now wire.old wire.new
        (W.known wire.old).failed_writes (W.known wire.new).failed_writes fault server.new) }
    ensures failed { FailsAgain (λ f. EngineFault.Server f)
        (fault_of server.old) server.old result server.new }
{
    let fed = server.feed(bytes)?;
    send_over(server_reply(&fed.event), wire)?;
    Ok(fed.used)
}

// Composes an update, if one is due, writes it and has the scene draw: one update, or none.
fn update<W: Wire, S: Scene>(
    out: &mut Vec<u8>,
    wire: &mut W,
    server: &mut Server,
    scene: &mut S,
) -> Result<u64, EngineFault>
    requires countable { (W.known wire.old).failed_writes < 2 ^ 64 - 1 }
    ensures updated { IfOk result (λ updates. EndsTurn (by_steps W.steps) S.shows
        server.old scene.old wire.old wire.new updates server.new scene.new) }
    ensures stopped { IfErr result (λ fault. StopsUpdating (by_steps W.steps)
        server.old wire.old wire.new
        (W.known wire.old).failed_writes (W.known wire.new).failed_writes fault server.new) }
    ensures undrawn { OnErr result (scene.new ≡ scene.old) }
{
    out.clear();
    let composed = server.compose(out)?;
    if !composed {
        return Ok(0);
    }
    send_over(out, wire)?;
    scene.draw(server);
    Ok(1)
}
