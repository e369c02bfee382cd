//! The law of changes: the function computes nothing, and what it ensures is a law.

ghost use Rattle.std.specs.Prelude.{◌≡◌, Bool, List, IfOk};
ghost use Rattle.std.specs.List.{AllByRecursion, IsDistinct};
ghost use Rattle.dir_tree.specs.dn_names.name.Names.{RdnSequence};
ghost use Rattle.dir_tree.specs.Entry.{EntryInformation, is_match, IsGoodAttributes};
ghost use Rattle.entry_changes.specs.Change.{Asker, Modification, changed_by};
ghost use Rattle.entry_changes.specs.Renaming.{renamed_entry};

/// Changes keep the name, and a rename gives it; both leave attributes of distinct types, each with a value, and no two of
/// its values match.
pub fn changes_keep_attributes_good()
    ensures changed { (asker : Asker) (entry : EntryInformation) (changes : List Modification)
        → AllByRecursion (λ change. IsDistinct is_match change.values) changes
        → IsGoodAttributes entry.attributes
        → IfOk (changed_by asker entry changes) (λ left. IsGoodAttributes left.attributes) }
    ensures name { (asker : Asker) (entry : EntryInformation) (changes : List Modification)
        → IfOk (changed_by asker entry changes) (λ left. left.name ≡ entry.name) }
    ensures renamed { (name : RdnSequence) (delete_old : Bool) (entry : EntryInformation)
        → IsGoodAttributes entry.attributes → IsGoodAttributes (renamed_entry name delete_old entry).attributes }
    ensures called { (name : RdnSequence) (delete_old : Bool) (entry : EntryInformation)
        → (renamed_entry name delete_old entry).name ≡ name }
{}
