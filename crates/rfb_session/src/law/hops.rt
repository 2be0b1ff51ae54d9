//! Laws of two hops, with nothing to run: what a viewer behind a relay shows of a server.

ghost use Rattle.std.specs.Prelude.{◌≡◌, ◌≢◌, ℕ, Bool, false, List, [], ◌∷◌, ◌++◌, take};
ghost use Rattle.std.specs.Prelude.{Option, Some, None, Result, Ok};
ghost use Rattle.rfb_pixel.specs.declared.colour.Colour.{Colour};
ghost use Rattle.rfb_picture.specs.declared.rect.Rect.{Rect};
ghost use Rattle.rfb_picture.specs.Grid.{Grid};
ghost use Rattle.rfb_wire.specs.ClientMessage.{FramebufferUpdateRequest, SpellsClientMessage};
ghost use Rattle.rfb_wire.specs.stream.End.{FedBy};
ghost use Rattle.rfb_hello.specs.Version.{version_text};
ghost use Rattle.rfb_hello.specs.declared.fed.Fed.{Fed};
ghost use Rattle.rfb_viewer.specs.declared.call.Call.{Call};
ghost use Rattle.rfb_viewer.specs.declared.call.Call.TheVariants.{Request};
ghost use Rattle.rfb_viewer.specs.declared.event.ViewerEvent.{ViewerEvent};
ghost use Rattle.rfb_viewer.specs.declared.fault.AppendFault.{AppendFault};
ghost use Rattle.rfb_viewer.specs.declared.fault.ViewerFault.{ViewerFault};
ghost use Rattle.rfb_viewer.specs.declared.fault.ViewerFault.TheVariants.{NoMemory};
ghost use Rattle.rfb_viewer.specs.declared.viewer.Viewer.{Viewer};
ghost use Rattle.rfb_viewer.specs.Call.{is_noted, message_bytes, message_of};
ghost use Rattle.rfb_viewer.specs.Messages.{request_message};
ghost use Rattle.rfb_viewer.specs.Model.{StandsFor as ViewerStandsFor};
ghost use Rattle.rfb_viewer.specs.Told.{ViewerTold, UpdateDone, seen};
ghost use Rattle.rfb_viewer.specs.Viewer.{first_viewer, viewer as viewer_end};
ghost use Rattle.rfb_session.specs.declared.event.Event.{Event};
ghost use Rattle.rfb_session.specs.declared.share.Share.{Share};
ghost use Rattle.rfb_session.specs.Headline.{IsHeadline, due_picture};
ghost use Rattle.rfb_session.specs.HopAreas.{HasAskedAll, GoesForAll, AnswersAll, AllAnswerAll};
ghost use Rattle.rfb_session.specs.HopAreas.{ShowsAll, IsAllPassedOn};
ghost use Rattle.rfb_session.specs.HopEnds.{IsFed, GoesFed, IsRelay, OpensAs, RenewsAs};
ghost use Rattle.rfb_session.specs.HopEnds.{IsBehind, ShowsSame, Becomes};
ghost use Rattle.rfb_session.specs.Hops.{Moment, GoesTo, IsRun, Once, IsBetween, over};
ghost use Rattle.rfb_session.specs.Hops.{ShowsServers, IsPassedOn};
ghost use Rattle.rfb_session.specs.InFlight.{AreMade, viewer_reply};
ghost use Rattle.rfb_session.specs.Link.{Ends, Composing, LinkState, first_link};
ghost use Rattle.rfb_session.specs.Network.{Network, Goes, IsReached};
ghost use Rattle.rfb_session.specs.Share.{screen_of, viewer_of, waits_at};
ghost use Rattle.rfb_session.specs.ShareMirrors.{FeedsOn, FailsOn, MakesOn, ShowsOther};
ghost use Rattle.rfb_session.specs.ShareViewers.{IsWatchedBy, GoesOn, StaysWatched, fresh_over};
ghost use Rattle.rfb_session.specs.ShareViewers.{Requests, plain_message};

/// Whatever happens on both hops, the theorem of a server and its viewer holds of each. Where the
/// relay's viewer is between two messages, the relay's screen is the server's at a composing of the
/// server's, through the relay's format. What a viewer behind it shows over the area of its latest
/// update is the relay's screen at that composing, through its own format. So it shows the server's
/// screen through both.
pub fn a_viewer_behind_a_relay_shows_the_servers_screen()
    ensures above { (e f : Ends) (m : Moment) (earlier : List Moment) →
        IsRun e f (m ∷ earlier) → IsHeadline e m.above.link }
    ensures below { (e f : Ends) (m : Moment) (earlier : List Moment) (l : LinkState) →
        IsRun e f (m ∷ earlier) → m.below ≡ Some l → IsHeadline f l }
    ensures seen { (e f : Ends) (m : Moment) (earlier : List Moment) →
        IsRun e f (m ∷ earlier) → IsBetween m →
        Once (m ∷ earlier) (λ at before. ShowsServers m at before) }
    ensures passed { (e f : Ends) (m : Moment) (earlier : List Moment) (l : LinkState)
        (c : Composing) → IsRun e f (m ∷ earlier) → m.below ≡ Some l → l.latest ≡ Some c →
        Once (m ∷ earlier) (λ at before. IsPassedOn c (due_picture f l) at before) }
{}

/// A relay asks for its whole screen each time. Then each update of its server's answers all of it,
/// from a fresh link on. So the relay shows the server's whole screen. What its viewer shows of
/// that is the server's, wherever the viewer's own update answered.
pub fn a_relay_that_asks_for_all_shows_all()
    ensures first { (e : Ends) → HasAskedAll e (first_link e) }
    ensures goes { (e : Ends) (old new : Network) → IsReached e old → GoesForAll e old new →
        HasAskedAll e old.link → HasAskedAll e new.link }
    ensures answers { (e : Ends) (l : LinkState) → HasAskedAll e l → AnswersAll l }
    ensures seen { (e f : Ends) (m : Moment) (earlier : List Moment) →
        IsRun e f (m ∷ earlier) → AllAnswerAll (m ∷ earlier) → IsBetween m →
        Once (m ∷ earlier) (λ at before. ShowsAll m at before) }
    ensures passed { (e f : Ends) (m : Moment) (earlier : List Moment) (l : LinkState)
        (c : Composing) → IsRun e f (m ∷ earlier) → AllAnswerAll (m ∷ earlier) →
        m.below ≡ Some l → l.latest ≡ Some c →
        Once (m ∷ earlier) (λ at before. IsAllPassedOn c (due_picture f l) at before) }
{}

/// A seat of a relay's share goes on as a link does, whatever its server sends. Bytes of the
/// server's draw the picture that they lead to over its screen, also where they end in a fault. So
/// does the picture of another viewer of a server. A call of the server's viewer leaves the seat as
/// it was.
pub fn a_seat_goes_on_as_a_picture_does()
    ensures fed { (e : Ends) (old new : Share) (bytes : List ℕ) (told : Fed ViewerEvent) (k : ℕ)
        (viewer : Viewer) (to_server on_way : List ℕ) (n : Network) → FeedsOn old bytes told new →
        IsWatchedBy e old k viewer to_server on_way n → GoesOn e n new k viewer to_server on_way }
    ensures failed { (e : Ends) (old new : Share) (bytes : List ℕ) (fault : ViewerFault) (k : ℕ)
        (viewer : Viewer) (to_server on_way : List ℕ) (n : Network) → FailsOn old bytes fault new →
        IsWatchedBy e old k viewer to_server on_way n → GoesOn e n new k viewer to_server on_way }
    ensures shown { (e : Ends) (old new : Share) (other : Viewer) (k : ℕ) (viewer : Viewer)
        (to_server on_way : List ℕ) (n : Network) → ShowsOther old other new →
        IsWatchedBy e old k viewer to_server on_way n → GoesOn e n new k viewer to_server on_way }
    ensures called { (old new : Share) (was : Viewer) (call : Call) (before : List ℕ)
        (result : Result (Unit {0}) AppendFault) (after : List ℕ) (k : ℕ) →
        MakesOn old was call before result after new → StaysWatched old k new }
{}

/// A fresh viewer and a fresh server stand for a fresh link, once the server has greeted. Bytes of
/// the server's and a request of the viewer's go on as the link does. When the end of an update is
/// reported, a share of that viewer's picture opens. Or the viewer takes the place of another's in
/// a share whose seats stay.
pub fn a_relay_meets_its_server()
    ensures first { (e : Ends) (screen : Grid Colour) (viewer : Viewer) →
        ViewerStandsFor e.viewing viewer first_viewer [] →
        screen.width ≡ e.serving.hello.width → screen.height ≡ e.serving.hello.height →
        IsFed e viewer [] [] (version_text e.serving.hello.offer) (fresh_over e screen) }
    ensures fed { (e : Ends) (old new : Viewer) (bytes : List ℕ) (event : Option ViewerTold)
        (has to_server to_viewer later : List ℕ) (n : Network) → AreMade e →
        to_viewer ≡ bytes ++ later →
        FedBy (viewer_end e.viewing) (ViewerStandsFor e.viewing) old bytes event new →
        IsFed e old has to_server to_viewer n →
        GoesFed e n new has (to_server ++ viewer_reply event) later }
    ensures requested { (e : Ends) (old new : Viewer) (incremental : Bool) (rect : Rect)
        (bytes has to_server to_viewer : List ℕ) (n : Network) → Requests e rect old new →
        SpellsClientMessage (FramebufferUpdateRequest incremental rect) bytes →
        IsFed e old has to_server to_viewer n →
        GoesFed e n new has (to_server ++ bytes) to_viewer }
    ensures opens { (e : Ends) (share : Share) (old new : Viewer) (bytes : List ℕ)
        (has to_server to_viewer later : List ℕ) (n : Network) → AreMade e →
        to_viewer ≡ bytes ++ later →
        FedBy (viewer_end e.viewing) (ViewerStandsFor e.viewing) old bytes (Some UpdateDone) new →
        viewer_of share ≡ Some new → IsFed e old has to_server to_viewer n →
        OpensAs e n share has to_server later }
    ensures renews { (e f : Ends) (old new : Share) (was other : Viewer) (bytes : List ℕ)
        (has to_server to_viewer later : List ℕ) (k : ℕ) (viewer : Viewer)
        (sends gets : List ℕ) (m : Moment) (n : Network) → AreMade e →
        to_viewer ≡ bytes ++ later →
        FedBy (viewer_end e.viewing) (ViewerStandsFor e.viewing) was bytes (Some UpdateDone) other →
        ShowsOther old other new → IsFed e was has to_server to_viewer n →
        m.screen ≡ screen_of old → IsBehind f old k viewer sends gets m →
        RenewsAs e f m n new has to_server later k viewer sends gets }
{}

/// A share of a server's picture goes on moment by moment on the first hop. The server, which may
/// be a seat of another share, does whatever it does. Bytes of the server's reach the share. Its
/// viewer requests an update, or sends a message that changes nothing of it. It refuses no byte of
/// such a server.
pub fn a_relay_goes_on_with_its_server()
    ensures above { (e f : Ends) (share : Share) (viewer : Viewer)
        (had to_server to_viewer has sends gets : List ℕ) (m : Moment) (n : Network) →
        IsRelay e share had to_server to_viewer m → viewer_of share ≡ Some viewer →
        Goes e m.above n → IsFed e viewer has sends gets n →
        GoesTo e f m (record m { above = n })
        × IsRelay e share has sends gets (record m { above = n }) }
    ensures seat { (e : Ends) (server : Share) (j : ℕ) (viewer : Viewer)
        (to_server on_way : List ℕ) (n : Network) →
        IsWatchedBy e server j viewer to_server on_way n →
        (has : List ℕ) × IsFed e viewer has to_server (on_way ++ waits_at server j) n }
    ensures heard { (e f : Ends) (old new : Share) (bytes : List ℕ) (told : Fed ViewerEvent)
        (has to_server to_viewer later : List ℕ) (k : ℕ) (viewer : Viewer)
        (sends gets : List ℕ) (m : Moment) → AreMade e → FeedsOn old bytes told new →
        to_viewer ≡ take told.used bytes ++ later → IsRelay e old has to_server to_viewer m →
        IsBehind f old k viewer sends gets m →
        Becomes e f m new has (to_server ++ viewer_reply (seen told.event)) later
        k viewer sends gets }
    ensures never_refused { (e : Ends) (old new : Share) (bytes : List ℕ) (fault : ViewerFault)
        (has to_server to_viewer later : List ℕ) (m : Moment) → fault ≢ NoMemory →
        to_viewer ≡ bytes ++ later → FailsOn old bytes fault new →
        IsRelay e old has to_server to_viewer m → ⊥ }
    ensures requested { (e f : Ends) (old new : Share) (was : Viewer) (incremental : Bool)
        (rect : Rect) (before after has to_server to_viewer : List ℕ) (k : ℕ) (viewer : Viewer)
        (sends gets : List ℕ) (m : Moment) → viewer_of old ≡ Some was →
        MakesOn old was (Request incremental rect) before (Ok tt) after new →
        IsRelay e old has to_server to_viewer m → IsBehind f old k viewer sends gets m →
        Becomes e f m new has (to_server ++ request_message incremental rect) to_viewer
        k viewer sends gets }
    ensures sent { (e f : Ends) (old new : Share) (was : Viewer) (call : Call) (event : Event)
        (before after has to_server to_viewer : List ℕ) (k : ℕ) (viewer : Viewer)
        (sends gets : List ℕ) (m : Moment) → viewer_of old ≡ Some was →
        MakesOn old was call before (Ok tt) after new → is_noted call ≡ false →
        plain_message event ≡ Some (message_of call) →
        IsRelay e old has to_server to_viewer m → IsBehind f old k viewer sends gets m →
        Becomes e f m new has (to_server ++ message_bytes call) to_viewer
        k viewer sends gets }
{}

/// And on the second hop: a viewer takes a seat of the share. What happens between the two goes on
/// there, one thing at a time. What is done at another seat is not seen there, nor by the server.
pub fn a_relay_goes_on_with_its_viewers()
    ensures came { (e f : Ends) (old new : Share) (has to_server to_viewer : List ℕ) (k : ℕ)
        (viewer : Viewer) (m : Moment) → ShowsSame old new →
        IsRelay e old has to_server to_viewer m → m.below ≡ None →
        IsWatchedBy f new k viewer [] [] (fresh_over f (screen_of new)) →
        Becomes e f m new has to_server to_viewer k viewer [] [] }
    ensures below { (e f : Ends) (old new : Share) (has to_server to_viewer : List ℕ) (k : ℕ)
        (viewer : Viewer) (sends gets : List ℕ) (l : LinkState) (m : Moment) →
        ShowsSame old new → IsRelay e old has to_server to_viewer m → m.below ≡ Some l →
        GoesOn f (over m.screen l) new k viewer sends gets →
        Becomes e f m new has to_server to_viewer k viewer sends gets }
    ensures beside { (e f : Ends) (old new : Share) (has to_server to_viewer : List ℕ) (k : ℕ)
        (viewer : Viewer) (sends gets : List ℕ) (m : Moment) → ShowsSame old new →
        StaysWatched old k new → IsRelay e old has to_server to_viewer m →
        IsBehind f old k viewer sends gets m →
        IsRelay e new has to_server to_viewer m × IsBehind f new k viewer sends gets m }
{}
