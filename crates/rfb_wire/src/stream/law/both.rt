//! Laws of an end of two grammars, by the ends of its parts.

ghost use Rattle.std.specs.Prelude.{◌≡◌, Option};
ghost use Rattle.rfb_wire.specs.stream.End.{Machine, IsMachine};
ghost use Rattle.rfb_wire.specs.stream.Sequel.{Stage, Two};
ghost use Rattle.rfb_wire.specs.stream.Both.{StarvesAs, GoesAsFirst, TakesAsFirst, RefusesAsFirst};
ghost use Rattle.rfb_wire.specs.stream.Both.{GoesAsSecond, TakesAsSecond, RefusesAsSecond};

/// While an end of both shows a state of the first's end, calls of that are calls of it. It takes
/// the same bytes, with the event that this is of the whole. It refuses the same bytes, with the
/// fault that this is of the whole. It wants memory where the first's end does. After a call it
/// shows the state of the first's end, or an item led over.
pub fn the_first_part_is_fed_as_its_end<S, A, P, I, F, Q, J, G, H, D, E>()
    ensures takes { (two : Two P I F Q J G H) (m : Machine S (Stage P Q) (Stage I J) H E) →
        (a : Machine A P I F D) (shows : S → Option A) (event : D → Option E) →
        IsMachine m → IsMachine a → GoesAsFirst two m a shows event →
        TakesAsFirst two m a shows event }
    ensures refuses { (two : Two P I F Q J G H) (m : Machine S (Stage P Q) (Stage I J) H E) →
        (a : Machine A P I F D) (shows : S → Option A) (event : D → Option E) →
        IsMachine m → IsMachine a → GoesAsFirst two m a shows event → RefusesAsFirst two m a shows }
    ensures starves { (two : Two P I F Q J G H) (m : Machine S (Stage P Q) (Stage I J) H E) →
        (a : Machine A P I F D) (shows : S → Option A) (event : D → Option E) →
        IsMachine m → IsMachine a → GoesAsFirst two m a shows event → StarvesAs m a shows }
{}

/// While an end of both shows a state of the second's end, calls of that are calls of it; no item
/// leads out of the second.
pub fn the_second_part_is_fed_as_its_end<S, B, P, I, F, Q, J, G, H, C, E>()
    ensures takes { (two : Two P I F Q J G H) (m : Machine S (Stage P Q) (Stage I J) H E) →
        (b : Machine B Q J G C) (shows : S → Option B) (event : C → Option E) →
        IsMachine m → IsMachine b → GoesAsSecond two m b shows event →
        TakesAsSecond m b shows event }
    ensures refuses { (two : Two P I F Q J G H) (m : Machine S (Stage P Q) (Stage I J) H E) →
        (b : Machine B Q J G C) (shows : S → Option B) (event : C → Option E) →
        IsMachine m → IsMachine b → GoesAsSecond two m b shows event →
        RefusesAsSecond two m b shows }
    ensures starves { (two : Two P I F Q J G H) (m : Machine S (Stage P Q) (Stage I J) H E) →
        (b : Machine B Q J G C) (shows : S → Option B) (event : C → Option E) →
        IsMachine m → IsMachine b → GoesAsSecond two m b shows event → StarvesAs m b shows }
{}
