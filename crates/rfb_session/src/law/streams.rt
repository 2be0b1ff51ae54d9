//! Laws of items one after another, in a queue and in the bytes that spell them.

ghost use Rattle.std.specs.Prelude.{◌≡◌, ℕ, ◌+◌, List, [], ◌++◌, length};
ghost use Rattle.rfb_wire.specs.stream.Prefix.{Got};
ghost use Rattle.rfb_wire.specs.stream.Grammar.{Grammar, IsGrammar, ReadsAll, past_all, sizes};
ghost use Rattle.rfb_wire.specs.stream.End.{Machine, acts};

/// Items act one after another: further ones on the state that those before them leave.
pub fn items_act_one_after_another<S, P, I, F, E>()
    ensures { (m : Machine S P I F E) (s : S) (xs ys : List I) →
        acts m s (xs ++ ys) ≡ acts m (acts m s xs) ys }
{}

/// Bytes that are read as items are as many as the sizes of these, and what is left. The sizes of a
/// queue and of what joins it are those of both. No item is read from no byte.
pub fn items_are_counted_in_bytes<P, I, F>()
    ensures counted { (g : Grammar P I F) (p : P) (bytes : List ℕ) (items : List I)
        (rest : List ℕ) → IsGrammar g → ReadsAll g p bytes items rest →
        length bytes ≡ sizes g items + length rest }
    ensures together { (g : Grammar P I F) (xs ys : List I) →
        sizes g (xs ++ ys) ≡ sizes g xs + sizes g ys }
    ensures some { (g : Grammar P I F) (p : P) (i : I) (rest : List ℕ) → IsGrammar g →
        g.next p [] ≡ Got i rest → ⊥ }
{}

/// Items are read one after another. Bytes that come later follow what was left. Further items are
/// read from what those before them left, at the point that they lead to.
pub fn items_are_read_one_after_another<P, I, F>()
    ensures later { (g : Grammar P I F) (p : P) (bytes tail : List ℕ) (items : List I)
        (rest : List ℕ) → IsGrammar g → ReadsAll g p bytes items rest →
        ReadsAll g p (bytes ++ tail) items (rest ++ tail) }
    ensures further { (g : Grammar P I F) (p : P) (bytes : List ℕ) (xs ys : List I)
        (mid rest : List ℕ) → ReadsAll g p bytes xs mid →
        ReadsAll g (past_all g p xs) mid ys rest → ReadsAll g p bytes (xs ++ ys) rest }
{}
