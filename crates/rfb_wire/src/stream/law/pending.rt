//! Laws of pending bytes, those of an item under way after its last whole piece.

ghost use Rattle.std.specs.Prelude.{ℕ, List, ◌++◌, ◌≡◌, ◌*◌, ◌<◌, ◌≤◌, length};
ghost use Rattle.rfb_wire.specs.stream.PendingBytes.{in_pieces, after_piece};

/// A piece is pending until its last byte is there; after it, and after whole pieces of one
/// size, it is what follows that may be. No more bytes are pending than came.
pub fn pending_bytes_follow_the_last_piece()
    ensures part { (size : ℕ) (pending : List ℕ → ℕ) (bytes : List ℕ) →
        length bytes < size → after_piece size pending bytes ≡ length bytes }
    ensures after { (size : ℕ) (pending : List ℕ → ℕ) (front rest : List ℕ) →
        length front ≡ size → after_piece size pending (front ++ rest) ≡ pending rest }
    ensures pieces { (size count : ℕ) (front rest : List ℕ) →
        length front ≡ count * size → length rest < size →
        in_pieces size (front ++ rest) ≡ length rest }
    ensures few { (size : ℕ) (bytes : List ℕ) → in_pieces size bytes ≤ length bytes }
    ensures within { (size : ℕ) (pending : List ℕ → ℕ) (bytes : List ℕ) →
        ((rest : List ℕ) → pending rest ≤ length rest) →
        after_piece size pending bytes ≤ length bytes }
{}
