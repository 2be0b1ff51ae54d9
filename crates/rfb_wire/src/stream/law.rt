//! Laws of streams, with nothing to run: what an end that is fed bytes rests on.

pub mod both;
pub mod pending;
pub mod sequel;
pub mod session;

ghost use Rattle.std.specs.Prelude.{ℕ, List, [], ◌≡◌, ◌++◌, Option};
ghost use Rattle.std.specs.List.{concat};
ghost use Rattle.rfb_wire.specs.stream.Prefix.{More, Got};
ghost use Rattle.rfb_wire.specs.stream.Grammar.{Grammar, IsGrammar, ReadsAll, IsWithinFirst};
ghost use Rattle.rfb_wire.specs.stream.Grammar.{HasVerdict, CutVerdict};
ghost use Rattle.rfb_wire.specs.stream.End.{Machine, IsMachine, Takes, Refuses, Call, CallsTo};
ghost use Rattle.rfb_wire.specs.stream.End.{bytes_of, events_of, Delivers};

/// At each point of a stream bytes have one verdict: the items that they begin with, and then one
/// fault, or too few bytes for another item.
pub fn bytes_have_one_verdict<P, I, F>()
    ensures some { (g : Grammar P I F) (p : P) (bytes : List ℕ) → IsGrammar g →
        (items : List I) × (fault : Option F) × HasVerdict g p bytes items fault }
    ensures one { (g : Grammar P I F) (p : P) (bytes : List ℕ) (items others : List I) →
        (fault other : Option F) → HasVerdict g p bytes items fault →
        HasVerdict g p bytes others other → (items ≡ others) × (fault ≡ other) }
{}

/// The verdict of bytes does not depend on how they are split into slices: read one after another,
/// each after what was left of those before it, the slices have a verdict, and it is that of the
/// bytes.
pub fn verdict_is_of_the_bytes<P, I, F>()
    ensures some { (g : Grammar P I F) (p : P) (front : List ℕ) (slices : List (List ℕ)) →
        IsGrammar g → g.next p front ≡ More →
        (items : List I) × (fault : Option F) × CutVerdict g p front slices items fault }
    ensures same { (g : Grammar P I F) (p : P) (front : List ℕ) (slices : List (List ℕ)) →
        (items : List I) (fault : Option F) → IsGrammar g →
        CutVerdict g p front slices items fault →
        HasVerdict g p (front ++ concat slices) items fault }
    ensures cuts { (g : Grammar P I F) (p : P) (one two : List (List ℕ)) →
        (items others : List I) (fault other : Option F) → IsGrammar g →
        concat one ≡ concat two → CutVerdict g p [] one items fault →
        CutVerdict g p [] two others other → (items ≡ others) × (fault ≡ other) }
{}

/// No item's bytes go on as another's.
pub fn items_are_apart<P, I, F>()
    ensures { (g : Grammar P I F) (p : P) (front rest : List ℕ) (i j : I) → IsGrammar g →
        g.next p front ≡ Got i [] → g.next p (front ++ rest) ≡ Got j [] → (i ≡ j) × (rest ≡ []) }
{}

/// An end makes the same of the same bytes however calls split them: the same events, and the same
/// state and prefix at the end.
pub fn calls_agree<S, P, I, F, E>()
    ensures { (m : Machine S P I F E) (s t u : S) (prefix mid rest : List ℕ) →
        (one two : List (Call E)) → IsMachine m → m.grammar.next (m.point s) prefix ≡ More →
        bytes_of one ≡ bytes_of two → CallsTo m s prefix one t mid →
        CallsTo m s prefix two u rest → (events_of one ≡ events_of two) × (t ≡ u) × (mid ≡ rest) }
{}

/// Where the bytes in flight to an end are the items of a queue, what is delivered of them is
/// taken from the front of the queue, and is not refused. What is there of the first item stays a
/// part of it when further items join the queue.
pub fn deliveries_take_from_the_front<S, P, I, F, E>()
    ensures taken { (m : Machine S P I F E) (s t : S) (prefix bytes later rest : List ℕ) →
        (queue : List I) (event : Option E) → IsMachine m →
        ReadsAll m.grammar (m.point s) ((prefix ++ bytes) ++ later) queue [] →
        Takes m s prefix bytes event t rest → Delivers m s prefix queue bytes later event t rest }
    ensures within { (g : Grammar P I F) (n : ℕ) (p : P) (bytes rest : List ℕ) (xs ys : List I) →
        IsGrammar g → IsWithinFirst g n xs → ReadsAll g p bytes ys rest →
        IsWithinFirst g n (xs ++ ys) }
    ensures good { (m : Machine S P I F E) (s : S) (prefix bytes later : List ℕ) →
        (queue : List I) (fault : F) → IsMachine m →
        ReadsAll m.grammar (m.point s) ((prefix ++ bytes) ++ later) queue [] →
        Refuses m s prefix bytes fault → ⊥ }
{}
