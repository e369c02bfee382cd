//! The two laws that most crates cite; the others stand in proofs/Theorems.antt.

ghost use Rattle.std.specs.Prelude.{◌≡◌, Bool, false, ◌&&◌, List, filter};
ghost use Rattle.std.specs.List.{AllByRecursion};

/// What two filters leave is what one leaves that asks both tests.
pub fn two_filters_are_one<A>()
    ensures { (p q : A → Bool) (xs : List A) → filter p (filter q xs) ≡ filter (λ x. q x && p x) xs }
{}

/// A filter that takes away nothing that passes another leaves what that one leaves.
pub fn one_filter_is_left<A>()
    ensures { (p q : A → Bool) (xs : List A) → AllByRecursion (λ x. q x ≡ false → p x ≡ false) xs
        → filter p (filter q xs) ≡ filter p xs }
{}
