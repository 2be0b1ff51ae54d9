//! Laws of a stream of two grammars: items of the first up to one that leads to the second.

ghost use Rattle.std.specs.Prelude.{ℕ, List, [], ◌∷◌, ◌++◌, ◌≡◌, Some, map};
ghost use Rattle.rfb_wire.specs.stream.Grammar.{ReadsAll, past_all};
ghost use Rattle.rfb_wire.specs.stream.Sequel.{First, Second, Two, sequel, StaysFirst, in_both};

/// In the stream of both, items are read as their own grammar reads them. So are those of the first
/// where none but the last leads over, those of the second once it is reached, and both in turn.
pub fn both_are_read_as_each<P, I, F, Q, J, G, H>()
    ensures first { (two : Two P I F Q J G H) (p : P) (bytes rest : List ℕ) (items : List I) →
        StaysFirst two p items → ReadsAll two.first p bytes items rest →
        ReadsAll (sequel two) (First p) bytes (map (λ i. First i) items) rest }
    ensures second { (two : Two P I F Q J G H) (q : Q) (bytes rest : List ℕ) (items : List J) →
        ReadsAll two.second q bytes items rest →
        ReadsAll (sequel two) (Second q) bytes (map (λ j. Second j) items) rest }
    ensures both { (two : Two P I F Q J G H) (p : P) (q : Q) (bytes mid rest : List ℕ) →
        (items : List I) (last : I) (others : List J) → StaysFirst two p (items ++ last ∷ []) →
        two.leads (past_all two.first p items) last ≡ Some q →
        ReadsAll two.first p bytes (items ++ last ∷ []) mid →
        ReadsAll two.second q mid others rest →
        ReadsAll (sequel two) (First p) bytes (in_both items last others) rest }
{}
