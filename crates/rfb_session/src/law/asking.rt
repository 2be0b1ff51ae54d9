//! The law of what a relay asks its server for, with nothing to run.

ghost use Rattle.std.specs.Prelude.{◌≡◌, ℕ, false, List, ◌++◌, take};
ghost use Rattle.std.specs.Prelude.{Option, Some, None, Result, Ok};
ghost use Rattle.rfb_picture.specs.Rect.{rect};
ghost use Rattle.rfb_wire.specs.stream.End.{FedBy};
ghost use Rattle.rfb_hello.specs.declared.fed.Fed.{Fed};
ghost use Rattle.rfb_viewer.specs.declared.call.Call.{Call};
ghost use Rattle.rfb_viewer.specs.declared.event.ViewerEvent.{ViewerEvent};
ghost use Rattle.rfb_viewer.specs.declared.fault.AppendFault.{AppendFault};
ghost use Rattle.rfb_viewer.specs.declared.viewer.Viewer.{Viewer};
ghost use Rattle.rfb_viewer.specs.Call.{is_noted, message_bytes, message_of};
ghost use Rattle.rfb_viewer.specs.Messages.{request_message};
ghost use Rattle.rfb_viewer.specs.Model.{StandsFor as ViewerStandsFor};
ghost use Rattle.rfb_viewer.specs.Told.{ViewerTold, Ready, UpdateDone, seen};
ghost use Rattle.rfb_viewer.specs.Viewer.{viewer as viewer_end};
ghost use Rattle.rfb_session.specs.declared.console.desk.Desk.{Desk as ADesk};
ghost use Rattle.rfb_session.specs.declared.event.Event.{Event};
ghost use Rattle.rfb_session.specs.declared.relay.Relay.{Relay as ARelay};
ghost use Rattle.rfb_session.specs.declared.share.Share.{Share};
ghost use Rattle.rfb_session.specs.HopAreas.{FedForAll, BeginsForAll, OpensForAll};
ghost use Rattle.rfb_session.specs.HopAreas.{RenewsForAll, BecomesForAll};
ghost use Rattle.rfb_session.specs.HopEnds.{IsFed, IsRelay, IsBehind};
ghost use Rattle.rfb_session.specs.Hops.{Moment};
ghost use Rattle.rfb_session.specs.InFlight.{AreMade, viewer_reply};
ghost use Rattle.rfb_session.specs.Link.{Ends};
ghost use Rattle.rfb_session.specs.Network.{Network};
ghost use Rattle.rfb_session.specs.Share.{screen_of, viewer_of};
ghost use Rattle.rfb_session.specs.ShareMirrors.{FeedsOn, MakesOn, ShowsOther};
ghost use Rattle.rfb_session.specs.ShareViewers.{plain_message};
ghost use Rattle.rfb_session.specs.relay.Desk.{AsksFrom};
ghost use Rattle.rfb_session.specs.relay.Presence.{is_gone};
ghost use Rattle.rfb_session.specs.relay.Server.{Begins};

/// A relay asks its server for the whole screen: when the handshake of its viewer is done, and
/// where a viewer of its own waits. So whatever it does on its first hop goes for all:
///
/// - Its viewer and its share take the server's bytes.
/// - A share opens, or gets another server's picture.
/// - It asks, or it sends a message that changes nothing of its viewer.
pub fn what_a_relay_asks_goes_for_all<S: Drop>()
    ensures fed { (e : Ends) (old new : Viewer) (bytes : List ℕ) (event : Option ViewerTold)
        (has to_server to_viewer later : List ℕ) (n : Network) → AreMade e →
        to_viewer ≡ bytes ++ later →
        FedBy (viewer_end e.viewing) (ViewerStandsFor e.viewing) old bytes event new →
        IsFed e old has to_server to_viewer n →
        FedForAll e n new has (to_server ++ viewer_reply event) later }
    ensures begins { (e : Ends) (old new : ARelay S) (was now : Viewer) (reply : List ℕ)
        (width height : ℕ) (name : List ℕ) (name_length : ℕ)
        (bytes has to_server to_viewer later : List ℕ) (n : Network) → AreMade e →
        to_viewer ≡ bytes ++ later →
        FedBy (viewer_end e.viewing) (ViewerStandsFor e.viewing) was bytes
        (Some (Ready reply width height name name_length)) now →
        IsFed e was has to_server to_viewer n → Begins old now reply width height new →
        new.console.outcome ≡ None → is_gone new.presence ≡ false →
        BeginsForAll e n new has
        (to_server ++ (reply ++ request_message false (rect 0 0 width height))) later }
    ensures opens { (e : Ends) (share : Share) (old new : Viewer) (bytes : List ℕ)
        (has to_server to_viewer later : List ℕ) (n : Network) → AreMade e →
        to_viewer ≡ bytes ++ later →
        FedBy (viewer_end e.viewing) (ViewerStandsFor e.viewing) old bytes (Some UpdateDone) new →
        viewer_of share ≡ Some new → IsFed e old has to_server to_viewer n →
        OpensForAll e n share has to_server later }
    ensures renews { (e f : Ends) (old new : Share) (was other : Viewer) (bytes : List ℕ)
        (has to_server to_viewer later : List ℕ) (k : ℕ) (viewer : Viewer)
        (sends gets : List ℕ) (m : Moment) (n : Network) → AreMade e →
        to_viewer ≡ bytes ++ later →
        FedBy (viewer_end e.viewing) (ViewerStandsFor e.viewing) was bytes (Some UpdateDone) other →
        ShowsOther old other new → IsFed e was has to_server to_viewer n →
        m.screen ≡ screen_of old → IsBehind f old k viewer sends gets m →
        RenewsForAll e f m n new has to_server later k viewer sends gets }
    ensures heard { (e f : Ends) (old new : Share) (bytes : List ℕ) (told : Fed ViewerEvent)
        (has to_server to_viewer later : List ℕ) (k : ℕ) (viewer : Viewer)
        (sends gets : List ℕ) (m : Moment) → AreMade e → FeedsOn old bytes told new →
        to_viewer ≡ take told.used bytes ++ later → IsRelay e old has to_server to_viewer m →
        IsBehind f old k viewer sends gets m →
        BecomesForAll e f m new has (to_server ++ viewer_reply (seen told.event)) later
        k viewer sends gets }
    ensures asks { (e f : Ends) (old new : ADesk) (asked : Result (Unit {0}) AppendFault)
        (before after has to_server to_viewer : List ℕ) (k : ℕ) (viewer : Viewer)
        (sends gets : List ℕ) (m : Moment) → AsksFrom old asked before after new →
        IsRelay e old.share has to_server to_viewer m →
        IsBehind f old.share k viewer sends gets m →
        (more : List ℕ) × (after ≡ before ++ more)
        × BecomesForAll e f m new.share has (to_server ++ more) to_viewer k viewer sends gets }
    ensures sent { (e f : Ends) (old new : Share) (was : Viewer) (call : Call) (event : Event)
        (before after has to_server to_viewer : List ℕ) (k : ℕ) (viewer : Viewer)
        (sends gets : List ℕ) (m : Moment) → viewer_of old ≡ Some was →
        MakesOn old was call before (Ok tt) after new → is_noted call ≡ false →
        plain_message event ≡ Some (message_of call) →
        IsRelay e old has to_server to_viewer m → IsBehind f old k viewer sends gets m →
        BecomesForAll e f m new has (to_server ++ message_bytes call) to_viewer
        k viewer sends gets }
{}
