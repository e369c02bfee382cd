//! The laws of grammars and machines.

ghost use Rattle.std.specs.Prelude.{◌≡◌, ℕ, ◌↔◌, Bool, true, List, ◌∷◌, Some, None, MatchOption};
ghost use Rattle.std.specs.List.{AllByRecursion};
ghost use Rattle.regular_text.specs.Grammar.{Grammar, Matches, IsWithin};
ghost use Rattle.regular_text.specs.Derivative.{after};
ghost use Rattle.regular_text.specs.Place.{IsPlace, IsLongestFront, HasNoFront};
ghost use Rattle.regular_text.specs.Machine.{Machine, fault_at, front, IsMachineOf};

/// A text follows an octet in the derivative of a grammar exactly where both together are in the
/// grammar (Brzozowski 1964, theorem 3.1).
pub fn derivative_is_exact<K>()
    ensures { (class : ℕ → K) (grammar : Grammar K) (octet : ℕ) (text : List ℕ)
        → Matches class (after (class octet) grammar) text ↔ Matches class grammar (octet ∷ text) }
{}

/// The machine of a grammar finds no fault exactly in the grammar's texts, and a fault's place counts
/// the octets of the longest front with which some text of the grammar begins.
pub fn machine_is_exact<K, M>()
    ensures exact { (machine : Machine K M) (grammar_of : M → Grammar K) → IsMachineOf machine grammar_of
        → (text : List ℕ) (mode : M)
        → (fault_at machine 0 text mode ≡ None) ↔ Matches machine.class (grammar_of mode) text }
    ensures found { (machine : Machine K M) (grammar_of : M → Grammar K) → IsMachineOf machine grammar_of
        → (text : List ℕ) (mode : M) (place : ℕ) → fault_at machine 0 text mode ≡ Some place
        → IsPlace (Matches machine.class (grammar_of mode)) text place }
{}

/// The longest front that a machine may end after is the longest one that is a text of its grammar.
pub fn front_is_longest<K, M>()
    ensures { (machine : Machine K M) (grammar_of : M → Grammar K) → IsMachineOf machine grammar_of
        → (text : List ℕ) (mode : M)
        → let language = Matches machine.class (grammar_of mode) in
        MatchOption (front machine text mode) (HasNoFront language text) (λ size. IsLongestFront language text size) }
{}

/// Octets leave a grammar at one place alone.
pub fn place_is_unique<K>()
    ensures { (class : ℕ → K) (grammar : Grammar K) (text : List ℕ) (one other : ℕ)
        → IsPlace (Matches class grammar) text one → IsPlace (Matches class grammar) text other
        → one ≡ other }
{}

/// Each octet of a text of a grammar is of a class that the grammar names.
pub fn octets_are_within<K>()
    ensures { (class : ℕ → K) (passes : K → Bool) (grammar : Grammar K) (text : List ℕ)
        → IsWithin passes grammar → Matches class grammar text
        → AllByRecursion (λ octet. passes (class octet) ≡ true) text }
{}
