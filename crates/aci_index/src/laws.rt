//! The laws of scope: each function computes nothing, and what it ensures is a law.

ghost use Rattle.std.specs.Prelude.{◌≡◌, ℕ, List, Option, Some, None, IfSome};
ghost use Rattle.dir_tree.specs.Entry.{EntryInformation};
ghost use Rattle.dir_tree.specs.tree.Numbered.{Numbered, entries_of, entry_of, put_entry, without, IsNumberedTree};
ghost use Rattle.acdf_filters.specs.admin_scope.InForce.{AreInForce, in_force};
ghost use Rattle.aci_index.specs.Aside.{put_some, IsAside, IsBeside, IsSamePoint, IsUnderOther, IsChangeOf};

/// What stands aside from an entry changes nothing in force for it: of entries of which one is put in, or another
/// in its place, or none; and of two trees that are equal but for one number, which both, one or none may have.
pub fn what_stands_aside_changes_nothing_in_force()
    ensures put { (entry : EntryInformation) (one other : Option EntryInformation)
        (entries : List EntryInformation) → IsAside entry one other
        → in_force (put_some one entries) entry ≡ in_force (put_some other entries) entry }
    ensures numbered { (id : ℕ) (rows new : List Numbered) (one other : Option EntryInformation)
        (entry : EntryInformation) → IsNumberedTree rows → IsNumberedTree new
        → IsChangeOf id rows new one other → IsAside entry one other
        → in_force (entries_of rows) entry ≡ in_force (entries_of new) entry }
{}

/// A list of the numbers of the subentries in force for an entry stays one, and each of its numbers in use, where
/// what the trees differ in stands aside from the entry.
pub fn the_numbers_in_force_stay()
    ensures exact { (id : ℕ) (rows new : List Numbered) (one other : Option EntryInformation)
        (entry : EntryInformation) (ids : List ℕ) → IsNumberedTree rows → IsNumberedTree new
        → IsChangeOf id rows new one other → IsAside entry one other
        → AreInForce rows entry ids → AreInForce new entry ids }
{}

/// Three ways to stand aside from an entry: ordinary entries that it is neither at nor below; one ordinary entry
/// that keeps its name and its roles; and entries of any kind, each immediately below a name that the entry is
/// neither at nor below.
pub fn what_stands_aside()
    ensures beside { (entry : EntryInformation) (one other : Option EntryInformation)
        → IfSome one (IsBeside entry) → IfSome other (IsBeside entry) → IsAside entry one other }
    ensures same { (entry one other : EntryInformation)
        → IsSamePoint one other → IsAside entry (Some one) (Some other) }
    ensures under { (entry : EntryInformation) (one other : Option EntryInformation)
        → IfSome one (IsUnderOther entry) → IfSome other (IsUnderOther entry) → IsAside entry one other }
{}

/// The three changes of a tree are each of one number, whose entry is put in, taken out or replaced.
pub fn a_change_is_of_one_number()
    ensures put { (id : ℕ) (entry : EntryInformation) (rows : List Numbered) → entry_of id rows ≡ None
        → IsChangeOf id rows (put_entry id entry rows) None (Some entry) }
    ensures taken { (id : ℕ) (old : EntryInformation) (rows : List Numbered) → entry_of id rows ≡ Some old
        → IsChangeOf id rows (without id rows) (Some old) None }
    ensures replaced { (id : ℕ) (old entry : EntryInformation) (rows : List Numbered)
        → entry_of id rows ≡ Some old
        → IsChangeOf id rows (put_entry id entry (without id rows)) (Some old) (Some entry) }
{}
