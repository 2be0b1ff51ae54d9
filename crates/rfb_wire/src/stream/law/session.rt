//! Laws of sessions: calls of an end one after another, and what they make of a queue.

ghost use Rattle.std.specs.Prelude.{ℕ, List, [], ◌++◌, ◌≡◌, Option, Some};
ghost use Rattle.rfb_wire.specs.stream.Grammar.{ReadsAll};
ghost use Rattle.rfb_wire.specs.stream.End.{Machine, IsMachine, Call, CallsTo, bytes_of, events_of};
ghost use Rattle.rfb_wire.specs.stream.End.{Delivers};
ghost use Rattle.rfb_wire.specs.stream.End.{with_event};
ghost use Rattle.rfb_wire.specs.stream.Session.{Waits, IsSession, IsStarved, DeliversAll};

/// Calls over the same bytes, however these are split, report the same events and then the same
/// fault, or none. Once all bytes of a fault are there it stays one, whatever follows. Over fewer
/// bytes, or where memory is wanted, they report the first of the events.
pub fn sessions_agree<S, P, I, F, E>()
    ensures same { (m : Machine S P I F E) (s : S) (prefix xs ys : List ℕ) →
        (one two : List (Call E)) →
        (fault other : Option F) → IsMachine m → Waits m s prefix →
        bytes_of one ++ xs ≡ bytes_of two ++ ys →
        IsSession m s prefix one xs fault → IsSession m s prefix two ys other →
        (events_of one ≡ events_of two) × (fault ≡ other) }
    ensures longer { (m : Machine S P I F E) (s : S) (prefix xs ys more : List ℕ) →
        (one two : List (Call E)) (fault : F) (other : Option F) → IsMachine m → Waits m s prefix →
        (bytes_of one ++ xs) ++ more ≡ bytes_of two ++ ys →
        IsSession m s prefix one xs (Some fault) → IsSession m s prefix two ys other →
        (events_of one ≡ events_of two) × (Some fault ≡ other) }
    ensures shorter { (m : Machine S P I F E) (s t : S) (prefix ys more rest : List ℕ) →
        (one two : List (Call E)) (other : Option F) → IsMachine m → Waits m s prefix →
        bytes_of one ++ more ≡ bytes_of two ++ ys →
        CallsTo m s prefix one t rest → IsSession m s prefix two ys other →
        (later : List E) × (events_of two ≡ events_of one ++ later) }
    ensures starved { (m : Machine S P I F E) (s : S) (prefix xs ys more : List ℕ) →
        (one two : List (Call E)) (other : Option F) → IsMachine m → Waits m s prefix →
        (bytes_of one ++ xs) ++ more ≡ bytes_of two ++ ys →
        IsStarved m s prefix one xs → IsSession m s prefix two ys other →
        (later : List E) × (events_of two ≡ events_of one ++ later) }
{}

/// Several calls over what was delivered of a queue's bytes are one delivery: items done are done
/// one after another, and what is left of the queue is read from what is left of the bytes. None
/// of the calls is refused.
pub fn calls_of_a_delivery_are_one<S, P, I, F, E>()
    ensures calls { (m : Machine S P I F E) (s t : S) (prefix later rest : List ℕ) →
        (queue : List I) →
        (calls : List (Call E)) → IsMachine m → Waits m s prefix → CallsTo m s prefix calls t rest →
        ReadsAll m.grammar (m.point s) ((prefix ++ bytes_of calls) ++ later) queue [] →
        DeliversAll m s prefix queue (bytes_of calls) later (events_of calls) t rest }
    ensures one { (m : Machine S P I F E) (s t : S) (prefix bytes later rest : List ℕ) →
        (queue : List I) (event : Option E) → Delivers m s prefix queue bytes later event t rest →
        DeliversAll m s prefix queue bytes later (with_event event []) t rest }
    ensures join { (m : Machine S P I F E) (s t u : S) (prefix xs ys later mid rest : List ℕ) →
        (queue : List I) (es fs : List E) →
        (one : DeliversAll m s prefix queue xs (ys ++ later) es t mid) →
        DeliversAll m t mid one.left ys later fs u rest →
        DeliversAll m s prefix queue (xs ++ ys) later (es ++ fs) u rest }
    ensures good { (m : Machine S P I F E) (s : S) (prefix slice later : List ℕ) (queue : List I) →
        (calls : List (Call E)) (fault : F) → IsMachine m → Waits m s prefix →
        ReadsAll m.grammar (m.point s) ((prefix ++ (bytes_of calls ++ slice)) ++ later) queue [] →
        IsSession m s prefix calls slice (Some fault) → ⊥ }
{}
