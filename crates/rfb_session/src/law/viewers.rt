//! Laws of a share's seat whose viewer is this project's, with nothing to run: what it shows,
//! whatever is drawn and whatever other viewers do.

ghost use Rattle.std.specs.Prelude.{◌≡◌, ◌≢◌, ℕ, Bool, false, nat_eq, List, [], ◌++◌, take};
ghost use Rattle.std.specs.Prelude.{Option, Some, None};
ghost use Rattle.rfb_pixel.specs.declared.colour.Colour.{Colour};
ghost use Rattle.rfb_pixel.specs.Format.{PixelFormat};
ghost use Rattle.rfb_picture.specs.declared.rect.Rect.{Rect};
ghost use Rattle.rfb_picture.specs.Grid.{Grid};
ghost use Rattle.rfb_picture.specs.Places.{has_bit};
ghost use Rattle.rfb_wire.specs.ClientMessage.{ClientMessage, SetPixelFormat};
ghost use Rattle.rfb_wire.specs.ClientMessage.{FramebufferUpdateRequest, SpellsClientMessage};
ghost use Rattle.rfb_wire.specs.stream.End.{FedBy};
ghost use Rattle.rfb_server.specs.declared.fault.ServerFault.{ServerFault};
ghost use Rattle.rfb_server.specs.declared.fault.ServerFault.TheVariants.{NoMemory};
ghost use Rattle.rfb_viewer.specs.declared.viewer.Viewer.{Viewer};
ghost use Rattle.rfb_viewer.specs.ShownPieces.{Shows};
ghost use Rattle.rfb_viewer.specs.Model.{StandsFor as ViewerStandsFor, fault_of};
ghost use Rattle.rfb_viewer.specs.Told.{ViewerTold};
ghost use Rattle.rfb_viewer.specs.Viewer.{Viewing, ViewerState, first_viewer};
ghost use Rattle.rfb_viewer.specs.Viewer.{viewer as viewer_end};
ghost use Rattle.rfb_session.specs.declared.event.Event.{Event};
ghost use Rattle.rfb_session.specs.declared.share.Share.{Share};
ghost use Rattle.rfb_session.specs.declared.share.event.Composing.{Composing};
ghost use Rattle.rfb_server.specs.Strokes.{Stroke, IsInside};
ghost use Rattle.rfb_session.specs.declared.share.event.Heard.{Heard};
ghost use Rattle.rfb_session.specs.declared.share.event.ShareFault.{ShareFault};
ghost use Rattle.rfb_session.specs.declared.share.event.ShareFault.TheVariants.{Session};
ghost use Rattle.rfb_session.specs.Headline.{IsHeadline, due_picture};
ghost use Rattle.rfb_session.specs.InFlight.{AreMade, viewer_reply};
ghost use Rattle.rfb_session.specs.Link.{Ends};
ghost use Rattle.rfb_session.specs.Network.{Network};
ghost use Rattle.rfb_session.specs.Share.{screen_of, serving_in, waits_at, fault_in};
ghost use Rattle.rfb_session.specs.ShareSteps.{JoinsAs, DrawsOn, ReceivesAs, RefusesAs};
ghost use Rattle.rfb_session.specs.ShareSteps.{WritesAs, ComposesAs, WantsRoomAs, LeavesAs};
ghost use Rattle.rfb_session.specs.ShareViewers.{IsWatchedBy, GoesOn, StaysWatched, fresh_over};
ghost use Rattle.rfb_session.specs.ShareViewers.{Requests, AsksFormat, MaySend, plain_message};

/// A fresh viewer at a seat that was just taken, and the bytes between the two, stand for a fresh
/// link over the share's screen. Each call of the share's goes on as a link does: a drawing, bytes
/// of the viewer's that are received there, bytes that are written, and a composing, even if memory
/// is wanting for it. Where nothing but the viewer's own bytes reaches the seat, its session
/// refuses none of them.
pub fn a_seat_goes_on_as_a_link()
    ensures joined { (e : Ends) (old new : Share) (joined : Option ℕ) (k : ℕ) (viewer : Viewer) →
        e.serving ≡ serving_in old → ViewerStandsFor e.viewing viewer first_viewer [] →
        JoinsAs old joined new → joined ≡ Some k →
        IsWatchedBy e new k viewer [] [] (fresh_over e (screen_of new)) }
    ensures drawn { (e : Ends) (old new : Share) (s : Stroke) (k : ℕ) (viewer : Viewer)
        (to_server on_way : List ℕ) (n : Network) → IsInside (screen_of old) s → DrawsOn old s new →
        IsWatchedBy e old k viewer to_server on_way n → GoesOn e n new k viewer to_server on_way }
    ensures received { (e : Ends) (old new : Share) (k : ℕ) (bytes : List ℕ) (told : Heard)
        (viewer : Viewer) (to_server later on_way : List ℕ) (n : Network) → AreMade e →
        to_server ≡ take told.used bytes ++ later → ReceivesAs old k bytes told new →
        IsWatchedBy e old k viewer to_server on_way n → GoesOn e n new k viewer later on_way }
    ensures never_refused { (e : Ends) (old new : Share) (k : ℕ) (bytes : List ℕ)
        (fault : ServerFault) (viewer : Viewer) (to_server later on_way : List ℕ) (n : Network) →
        fault ≢ NoMemory → to_server ≡ bytes ++ later →
        RefusesAs old k bytes (Session fault) new →
        IsWatchedBy e old k viewer to_server on_way n → ⊥ }
    ensures written { (e : Ends) (old new : Share) (k count : ℕ) (viewer : Viewer)
        (to_server on_way : List ℕ) (n : Network) → WritesAs old k count new →
        IsWatchedBy e old k viewer to_server on_way n →
        IsWatchedBy e new k viewer to_server (on_way ++ take count (waits_at old k)) n }
    ensures composed { (e : Ends) (old new : Share) (k : ℕ) (told : Composing) (viewer : Viewer)
        (to_server on_way : List ℕ) (n : Network) → ComposesAs old k told new →
        IsWatchedBy e old k viewer to_server on_way n → GoesOn e n new k viewer to_server on_way }
    ensures wanted { (old new : Share) (k : ℕ) → WantsRoomAs old k new → StaysWatched old k new }
{}

/// A call of another seat leaves such a seat and its viewer as they were: a viewer that joins there
/// or leaves, bytes that are received there, taken or refused, bytes that are written, a composing.
/// But a viewer that asks for the screen alone empties it, and it is reported then.
pub fn a_seat_goes_on_beside_others()
    ensures joined { (old new : Share) (joined : Option ℕ) (k : ℕ) → JoinsAs old joined new →
        StaysWatched old k new }
    ensures left { (old new : Share) (j k : ℕ) (taken : Bool) → nat_eq k j ≡ false →
        LeavesAs old j taken new → StaysWatched old k new }
    ensures received { (old new : Share) (j k : ℕ) (bytes : List ℕ) (told : Heard) →
        nat_eq k j ≡ false → has_bit told.ended k ≡ false → ReceivesAs old j bytes told new →
        StaysWatched old k new }
    ensures refused { (old new : Share) (j k : ℕ) (bytes : List ℕ) (fault : ShareFault) →
        nat_eq k j ≡ false → RefusesAs old j bytes fault new → StaysWatched old k new }
    ensures written { (old new : Share) (j k count : ℕ) → nat_eq k j ≡ false →
        WritesAs old j count new → StaysWatched old k new }
    ensures composed { (old new : Share) (j k : ℕ) (told : Composing) → nat_eq k j ≡ false →
        ComposesAs old j told new → StaysWatched old k new }
    ensures wanted { (old new : Share) (j k : ℕ) → nat_eq k j ≡ false →
        WantsRoomAs old j new → StaysWatched old k new }
{}

/// Each call of the viewer's that is not refused goes on as a link does, too: a request, a format,
/// and what changes nothing of it. So do bytes that reach it.
pub fn a_viewer_of_a_seat_goes_on_as_a_link()
    ensures shown { (e : Ends) (share : Share) (k : ℕ) (old new : Viewer) (bytes later : List ℕ)
        (event : Option ViewerTold) (to_server on_way : List ℕ) (n : Network) → AreMade e →
        on_way ≡ bytes ++ later →
        FedBy (viewer_end e.viewing) (ViewerStandsFor e.viewing) old bytes event new →
        IsWatchedBy e share k old to_server on_way n →
        GoesOn e n share k new (to_server ++ viewer_reply event) later }
    ensures requested { (e : Ends) (share : Share) (k : ℕ) (old new : Viewer) (incremental : Bool)
        (rect : Rect) (bytes to_server on_way : List ℕ) (n : Network) → Requests e rect old new →
        SpellsClientMessage (FramebufferUpdateRequest incremental rect) bytes →
        IsWatchedBy e share k old to_server on_way n →
        GoesOn e n share k new (to_server ++ bytes) on_way }
    ensures format { (e : Ends) (share : Share) (k : ℕ) (old new : Viewer) (form : PixelFormat)
        (bytes to_server on_way : List ℕ) (n : Network) → AsksFormat e form old new →
        SpellsClientMessage (SetPixelFormat form) bytes →
        IsWatchedBy e share k old to_server on_way n →
        GoesOn e n share k new (to_server ++ bytes) on_way }
    ensures sent { (e : Ends) (share : Share) (k : ℕ) (viewer : Viewer) (message : ClientMessage)
        (event : Event) (bytes to_server on_way : List ℕ) (n : Network) → MaySend e viewer →
        plain_message event ≡ Some message → SpellsClientMessage message bytes →
        IsWatchedBy e share k viewer to_server on_way n →
        GoesOn e n share k viewer (to_server ++ bytes) on_way }
{}

/// At any time neither end of such a seat has failed. Once all that is on its way and all that
/// waits has reached the viewer, it shows what the session knows it to show. Over the area of its
/// latest update it then shows the screen as it was composed of, as that update's format can show
/// it. Where nothing is on its way and nothing waits, that is what it shows.
pub fn a_viewer_of_a_seat_shows_the_screen()
    ensures going { (e : Ends) (share : Share) (k : ℕ) (viewer : Viewer)
        (to_server on_way : List ℕ) (n : Network) →
        IsWatchedBy e share k viewer to_server on_way n →
        (fault_in share k ≡ None) × (fault_of viewer ≡ None) }
    ensures headline { (e : Ends) (share : Share) (k : ℕ) (viewer : Viewer)
        (to_server on_way : List ℕ) (n : Network) →
        IsWatchedBy e share k viewer to_server on_way n → IsHeadline e n.link }
    ensures arrived { (e : Ends) (share : Share) (k : ℕ) (viewer : Viewer) (to_server : List ℕ)
        (n : Network) (stored : Option (Grid Colour)) → waits_at share k ≡ [] →
        IsWatchedBy e share k viewer to_server [] n →
        ((viewing : Viewing) (s : ViewerState) (prefix : List ℕ) →
        ViewerStandsFor viewing viewer s prefix → Shows s prefix stored) →
        stored ≡ due_picture e n.link }
{}
