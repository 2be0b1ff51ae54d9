//! Laws of a share's seats: what becomes of them by all calls, with nothing to run.

ghost use Rattle.std.specs.Prelude.{◌≡◌, ◌≢◌, ℕ, List, [], ◌++◌, take, Option, Some, Result};
ghost use Rattle.rfb_hello.specs.declared.fed.Fed.{Fed};
ghost use Rattle.rfb_server.specs.KnownScreen.{Follows};
ghost use Rattle.rfb_viewer.specs.declared.call.Call.{Call};
ghost use Rattle.rfb_viewer.specs.declared.event.ViewerEvent.{ViewerEvent};
ghost use Rattle.rfb_viewer.specs.declared.fault.AppendFault.{AppendFault};
ghost use Rattle.rfb_viewer.specs.declared.fault.ViewerFault.{ViewerFault};
ghost use Rattle.rfb_viewer.specs.declared.viewer.Viewer.{Viewer};
ghost use Rattle.rfb_server.specs.Server.{Serving};
ghost use Rattle.rfb_session.specs.declared.share.Share.{Share};
ghost use Rattle.rfb_session.specs.declared.share.event.Composing.{Composing};
ghost use Rattle.rfb_server.specs.Strokes.{Stroke};
ghost use Rattle.rfb_session.specs.declared.share.event.Heard.{Heard};
ghost use Rattle.rfb_session.specs.declared.share.event.ShareFault.{ShareFault};
ghost use Rattle.rfb_session.specs.declared.share.event.ShareFault.TheVariants.{NoMemory};
ghost use Rattle.rfb_session.specs.Share.{seat_in, screen_of, serving_in, waits_at};
ghost use Rattle.rfb_session.specs.ShareLives.{LivesAt};
ghost use Rattle.rfb_session.specs.ShareMirrors.{FeedsOn, FailsOn, MakesOn, ShowsOther};
ghost use Rattle.rfb_session.specs.ShareSeats.{session_at, KeepsShareSeat};
ghost use Rattle.rfb_session.specs.ShareSteps.{JoinsAs, DrawsOn, ReceivesAs, RefusesAs};
ghost use Rattle.rfb_session.specs.ShareSteps.{WritesAs, ComposesAs, WantsRoomAs, KeepsScreen};
ghost use Rattle.rfb_session.specs.Slots.{OnSlot};

/// A seat that a viewer takes begins its life: nothing was received there, nothing written. A call
/// of the share's carries that on. So at any time its session stands for what the bytes received
/// there lead to, over the screen that the drawings lead to. What was written and what waits are
/// its greeting, its answers and its updates, in order, no byte lost and none twice.
pub fn a_seat_lives_as_its_calls_say()
    ensures joined { (old new : Share) (joined : Option ℕ) (k : ℕ) →
        JoinsAs old joined new → joined ≡ Some k → LivesAt (serving_in old) new k [] [] }
    ensures drawn { (serving : Serving) (old new : Share) (s : Stroke) (k : ℕ)
        (heard taken : List ℕ) → DrawsOn old s new →
        LivesAt serving old k heard taken → LivesAt serving new k heard taken }
    ensures received { (serving : Serving) (old new : Share) (k : ℕ) (bytes : List ℕ) (told : Heard)
        (heard taken : List ℕ) → ReceivesAs old k bytes told new →
        LivesAt serving old k heard taken →
        LivesAt serving new k (heard ++ take told.used bytes) taken }
    ensures refused { (serving : Serving) (old new : Share) (k : ℕ) (bytes : List ℕ)
        (fault : ShareFault) (heard taken : List ℕ) → fault ≢ NoMemory →
        RefusesAs old k bytes fault new →
        LivesAt serving old k heard taken → LivesAt serving new k (heard ++ bytes) taken }
    ensures emptied { (old new : Share) (k : ℕ) (bytes : List ℕ) →
        RefusesAs old k bytes NoMemory new → seat_in new k ≡ None }
    ensures written { (serving : Serving) (old new : Share) (k count : ℕ)
        (heard taken : List ℕ) → WritesAs old k count new → LivesAt serving old k heard taken →
        LivesAt serving new k heard (taken ++ take count (waits_at old k)) }
    ensures composed { (serving : Serving) (old new : Share) (k : ℕ) (told : Composing)
        (heard taken : List ℕ) → ComposesAs old k told new →
        LivesAt serving old k heard taken → LivesAt serving new k heard taken }
    ensures wanted { (serving : Serving) (old new : Share) (k : ℕ) (heard taken : List ℕ) →
        WantsRoomAs old k new → LivesAt serving old k heard taken →
        LivesAt serving new k heard taken }
{}

/// A seat that a call leaves as it was, over the screen that it leaves, lives as it did.
pub fn a_seat_that_is_left_alone_lives_on()
    ensures { (serving : Serving) (old new : Share) (k : ℕ) (heard taken : List ℕ) →
        KeepsScreen old new → seat_in new k ≡ seat_in old k →
        LivesAt serving old k heard taken → LivesAt serving new k heard taken }
{}

/// So does a seat of a share whose screen is the picture of a server's viewer, whatever the server
/// sends, also where it fails. The pictures that this leads to are the screens.
pub fn a_seat_lives_on_as_a_picture_changes()
    ensures fed { (serving : Serving) (old new : Share) (bytes : List ℕ) (told : Fed ViewerEvent)
        (k : ℕ) (heard taken : List ℕ) → FeedsOn old bytes told new →
        LivesAt serving old k heard taken → LivesAt serving new k heard taken }
    ensures failed { (serving : Serving) (old new : Share) (bytes : List ℕ) (fault : ViewerFault)
        (k : ℕ) (heard taken : List ℕ) → FailsOn old bytes fault new →
        LivesAt serving old k heard taken → LivesAt serving new k heard taken }
    ensures shown { (serving : Serving) (old new : Share) (other : Viewer) (k : ℕ)
        (heard taken : List ℕ) → ShowsOther old other new →
        LivesAt serving old k heard taken → LivesAt serving new k heard taken }
    ensures called { (serving : Serving) (old new : Share) (was : Viewer) (call : Call)
        (before : List ℕ) (result : Result (Unit {0}) AppendFault) (after : List ℕ) (k : ℕ)
        (heard taken : List ℕ) → MakesOn old was call before result after new →
        LivesAt serving old k heard taken → LivesAt serving new k heard taken }
{}

/// A fault of the server's changes no seat's session. Nobody comes or leaves, each session's state
/// and what waits are as they were, and each follows the picture that the server left.
pub fn a_fault_of_the_server_changes_no_session()
    ensures { (old new : Share) (bytes : List ℕ) (fault : ViewerFault) (k : ℕ) →
        FailsOn old bytes fault new → OnSlot (λ a b. KeepsShareSeat a b
        × Follows (screen_of new) (session_at b)) (seat_in old k) (seat_in new k) }
{}
