//! What a console is after all that happens to it, with nothing to run. Each law is of a console
//! that goes on: once all has ended nothing more is obeyed or composed.

ghost use Rattle.std.specs.Prelude.{◌≡◌, ◌≤◌, ◌<◌, ◌+◌, ◌++◌, ◌⊎◌, ℕ, List, [], Some, None};
ghost use Rattle.std.specs.Prelude.{true, false, length};
ghost use Rattle.rfb_server.specs.Server.{Serving};
ghost use Rattle.rfb_server.specs.Model.{session_fault};
ghost use Rattle.rfb_server.specs.UpdateCall.{OwesUpdate};
ghost use Rattle.rfb_session.specs.declared.console.Console.{Console as AConsole};
ghost use Rattle.rfb_session.specs.declared.console.desk.Desk.{Desk as ADesk};
ghost use Rattle.rfb_session.specs.declared.share.seat.ShareSeat.{ShareSeat as AShareSeat};
ghost use Rattle.rfb_session.specs.Rounds.{seats_before, is_left};
ghost use Rattle.rfb_session.specs.Share.{seat_in, screen_of, waits_at, is_update_at};
ghost use Rattle.rfb_session.specs.ShareSeats.{Sends, session_at, waiting_in};
ghost use Rattle.rfb_session.specs.doors.Events.{came, left, ends};
ghost use Rattle.rfb_session.specs.doors.Tenants.{Happening, IsKept, events_in};
ghost use Rattle.rfb_session.specs.console.Console.{IsFreshConsole, OpensAs, waiting_at};
ghost use Rattle.rfb_session.specs.console.Desk.{guest_at};
ghost use Rattle.rfb_session.specs.console.Time.{IsBefore, is_slow, is_stuck};
ghost use Rattle.rfb_session.specs.console.Turns.{TurnsAs, seat_left, holds_at};
ghost use Rattle.rfb_session.specs.console.Turns.{IsLeftOut, IsLeftFor, IsPutOff};
ghost use Rattle.rfb_session.specs.console.Updates.{IsLarge};
ghost use Rattle.rfb_session.specs.console.History.{Lasts, HasRead, IsObeyed, TellsAll};
ghost use Rattle.rfb_session.specs.console.History.{SeatLives, IsEmptySeat};
ghost use Rattle.rfb_session.specs.console.History.{Happens, is_turn, KeepsFirst};

/// The owner's bytes, however they are cut, are the lines that they spell. Each is obeyed, in order
/// and once. Beside that only what else happens acts on the desk. A console that was told nothing
/// has read nothing.
pub fn lines_are_obeyed_however_they_come<S: Drop>()
    ensures begins { (console : AConsole S) → IsFreshConsole console → HasRead console [] }
    ensures obeyed { (old new : AConsole S) (happenings : List Happening) (part : List ℕ) →
        HasRead old part → new.outcome ≡ None → ends 0 (events_in happenings) ≡ 0 →
        Lasts old happenings new → IsObeyed old part happenings new }
{}

/// Whoever takes a seat has its session alone. While the seat is not given away, what was received
/// there is what came at its door, and what was written is what left there, each byte once and in
/// order. Or the viewer was disconnected.
pub fn a_seat_lives_by_its_door<S: Drop>()
    ensures comes { (old new : AConsole S) (k : ℕ) (from : List ℕ) → OpensAs old (k + 1) from new →
        (serving : Serving) × SeatLives serving new.desk k [] [] }
    ensures goes_on { (old new : AConsole S) (happenings : List Happening) (part : List ℕ) (k : ℕ)
        (serving : Serving) (heard taken : List ℕ) → k < 8 → HasRead old part →
        new.outcome ≡ None → IsKept (k + 1) happenings → Lasts old happenings new →
        SeatLives serving old.desk k heard taken →
        SeatLives serving new.desk k (heard ++ came (k + 1) (events_in happenings))
        (taken ++ left (k + 1) (events_in happenings)) ⊎ IsEmptySeat new.desk k }
{}

/// What left at the door of lines, and what waits there, is what waited and what was reported of
/// each thing that happened, in order and once.
pub fn lines_leave_as_they_were_told<S: Drop>()
    ensures { (old new : AConsole S) (happenings : List Happening) (part : List ℕ) →
        HasRead old part → new.outcome ≡ None → Lasts old happenings new →
        TellsAll old happenings new }
{}

/// Where nothing waits, an update that is due is composed in the next turn, of the screen as it is
/// then. It is not composed where updates are held back, memory was wanting, or the seat is left
/// out or put off.
///
/// - It is left out if in that turn an update of more than a mebibyte was composed for another.
///   Then the next turn is wanted at once, and in it fewer seats come before this one.
/// - It is put off while such an update leaves, for 100 milliseconds at most after that was
///   composed. The next turn is wanted no later.
///
/// Each other seat is one for which nothing waits and none is due.
pub fn an_update_that_is_due_is_composed()
    ensures { (old new : ADesk) (now slow stuck k : ℕ) (seat : AShareSeat) →
        (turns : TurnsAs old now slow stuck new) → turns.held ≡ false → turns.wants ≡ false →
        k < 8 → seat_left old now k ≡ Some seat → session_fault (session_at seat) ≡ None →
        waiting_in seat ≡ [] → OwesUpdate (screen_of old.share) (session_at seat) →
        ((sent : AShareSeat) × (seat_in new.share k ≡ Some sent)
        × Sends (screen_of old.share) seat sent)
        ⊎ IsLeftOut old now k new ⊎ IsPutOff old now k new }
{}

/// The seats take turns. Whoever is left out in a turn comes in the next one before each that was
/// served, whatever happens between them. So a seat is not left out in eight turns, one after the
/// other. A turn composes one update of more than a mebibyte at most: where such a one waits at two
/// seats, it is the same to the byte. And 100 milliseconds after the latest of these none is put
/// off.
pub fn nobody_is_left_out_for_ever<S: Drop>()
    ensures first { (old new : ADesk) (now slow stuck j k : ℕ) →
        (turns : TurnsAs old now slow stuck new) → j < 8 → k < 8 →
        is_left old.first turns.last k ≡ true → is_left old.first turns.last j ≡ false →
        seats_before new.first k < seats_before new.first j }
    ensures kept { (old new : AConsole S) (happening : Happening) (part : List ℕ) →
        HasRead old part → new.outcome ≡ None → Happens old happening new →
        is_turn happening ≡ false → KeepsFirst old.desk new.desk }
    ensures times { (desk : ADesk) (k times : ℕ) → k < 8 → IsLeftFor k times desk → times < 8 }
    ensures one { (old new : ADesk) (now slow stuck j k : ℕ) → TurnsAs old now slow stuck new →
        j < 8 → k < 8 → IsLarge (seat_left old now j) (seat_in new.share j) →
        IsLarge (seat_left old now k) (seat_in new.share k) →
        waits_at new.share j ≡ waits_at new.share k }
    ensures later { (old new : ADesk) (now slow stuck since : ℕ) →
        (turns : TurnsAs old now slow stuck new) → old.large ≡ Some since → since + 100 ≤ now →
        turns.busy ≡ false }
{}

/// Before the time at which the next turn is wanted, nobody's time is over, and updates that are
/// held back stay so.
pub fn no_end_is_slept_past()
    ensures viewers { (old new : ADesk) (now slow stuck k time : ℕ) →
        TurnsAs old now slow stuck new → k < 8 → IsBefore time new.next →
        (is_slow new.rules time (guest_at new k) ≡ false)
        × (is_stuck new.rules time (guest_at new k) ≡ false) }
    ensures hold { (old new : ADesk) (now slow stuck time : ℕ) →
        (turns : TurnsAs old now slow stuck new) → turns.held ≡ true → now ≤ time →
        IsBefore time new.next → holds_at new.rules.hold time new.hold ≡ true }
{}

/// What waits at a door is bounded. Notes have at most 8 MiB. At a seat 297 bytes of answers wait,
/// or one update, which has at most the room that composing it reserved.
pub fn few_bytes_wait<S: Drop>()
    ensures notes { (console : AConsole S) → length (waiting_at console 10) ≤ 8388608 }
    ensures answers { (desk : ADesk) (k : ℕ) → is_update_at desk.share k ≡ false →
        length (waits_at desk.share k) ≤ 297 }
{}
