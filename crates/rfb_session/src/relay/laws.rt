//! What a relay is after all that happens to it, with nothing to run. The law is of a relay that
//! goes on, and of what happens last: once all has ended nothing more is sent.

ghost use Rattle.std.specs.Prelude.{◌≡◌, ◌≢◌, ℕ, List, [], Some, None, true, false};
ghost use Rattle.rfb_session.specs.declared.console.Outcome.TheVariants.{NoMemory};
ghost use Rattle.rfb_session.specs.declared.relay.Relay.{Relay as ARelay};
ghost use Rattle.rfb_session.specs.declared.relay.setup.RelaySetup.{RelaySetup};
ghost use Rattle.rfb_session.specs.doors.Events.{left};
ghost use Rattle.rfb_session.specs.doors.Tenants.{Happening, IsKept, events_in};
ghost use Rattle.rfb_session.specs.relay.History.{Happens, Lasts, HasSent, HasGone, SendsAll};
ghost use Rattle.rfb_session.specs.relay.Presence.{is_gone};
ghost use Rattle.rfb_session.specs.relay.Relay.{OpensRelay};
ghost use Rattle.rfb_session.specs.relay.Sent.{Sent};
ghost use Rattle.rfb_session.specs.relay.Server.{IsFreshRelay};

/// What left for a server since it was called, and what waits for it, is each once and in order:
///
/// - the answers of its handshake;
/// - a request for its whole screen;
/// - once its first update is whole, what the viewers do, as it comes, and requests for what has
///   changed, each after the update that answers the one before.
///
/// There is nothing else, and nothing that viewers do where they only view. Once it has gone, also
/// where all ends with that, what waited is forgotten. Nothing leaves before it is called again;
/// then all this begins anew.
pub fn what_is_sent_leaves_once_and_in_order<S: Drop>()
    ensures begins { (setup : RelaySetup) (relay : ARelay S) → IsFreshRelay setup relay →
        HasSent relay [] × (relay.to_server ≡ []) }
    ensures again { (old new : ARelay S) (from : List ℕ) → OpensRelay old 0 from new →
        HasSent new [] × (new.to_server ≡ []) }
    ensures sends { (old new : ARelay S) (happenings : List Happening) (before : List Sent) →
        HasSent old before → IsKept 0 happenings → new.console.outcome ≡ None →
        is_gone new.presence ≡ false → Lasts old happenings new →
        SendsAll old before happenings new }
    ensures forgets { (old new : ARelay S) (happenings : List Happening) (before : List Sent) →
        HasSent old before → IsKept 0 happenings → new.console.outcome ≡ None →
        is_gone new.presence ≡ true → Lasts old happenings new → HasGone new }
    ensures leaves { (old new : ARelay S) (happening : Happening) → is_gone old.presence ≡ false →
        Happens old happening new → is_gone new.presence ≡ true →
        new.console.outcome ≢ Some NoMemory → HasGone new }
    ensures silent { (old new : ARelay S) (happenings : List Happening) → HasGone old →
        IsKept 0 happenings → new.console.outcome ≡ None → Lasts old happenings new →
        HasGone new × (left 0 (events_in happenings) ≡ []) }
{}
