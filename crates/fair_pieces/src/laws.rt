//! Laws over the definitions: each function's clauses are the laws, and its body does nothing.

ghost use Rattle.std.specs.Prelude.{◌≡◌, ◌<◌, ℕ, [], List, length};
ghost use Rattle.fair_pieces.specs.Cuts.{cut_at, pieces_of};
ghost use Rattle.fair_pieces.specs.Laws.{Awaits, IsFair, AreFair, IsFrontOfHeader, CutsJoin, SearchesAreWide, OnlySearchesAreWide};

/// Whatever came before it, and however a stream comes, what is given at once makes at most one wide
/// message whole, and that is the last; so with what is given of octets in turn.
pub fn pieces_are_fair()
    ensures one { (heard octets : List ℕ) (left : ℕ) → Awaits heard left → IsFair heard octets (cut_at left octets) }
    ensures all { (most : ℕ) (octets : List ℕ) → AreFair [] (pieces_of most 0 octets) }
{}

/// What is given of octets in turn, and what is kept of them, are the octets.
pub fn cuts_join()
    ensures { CutsJoin }
{}

/// Where octets came and nothing is given, they are the front of a header.
pub fn cuts_advance()
    ensures { (left : ℕ) (octets : List ℕ) → (cut_at left octets).given ≡ 0 → 0 < length octets → IsFrontOfHeader left octets }
{}

/// What reads as a search of another scope than that of the base object is wide, and what reads as
/// anything but a search isn't (RFC 4511 4.5.1.2).
pub fn searches_are_wide()
    ensures wide { SearchesAreWide }
    ensures only { OnlySearchesAreWide }
{}
