//! The laws of areas: each function computes nothing, and what it ensures is a law.

ghost use Rattle.std.specs.Prelude.{◌≡◌, false, List};
ghost use Rattle.dir_tree.specs.dn_names.name.Names.{RdnSequence};
ghost use Rattle.dir_tree.specs.Entry.{EntryInformation};
ghost use Rattle.dir_tree.specs.Points.{is_access_subentry};
ghost use Rattle.dir_tree.specs.Scope.{is_within};
ghost use Rattle.dir_tree.specs.tree.Trees.{taken_out};
ghost use Rattle.admin_scope.specs.Areas.{areas, without_subtree, has_within};
ghost use Rattle.admin_scope.specs.InForce.{in_force};

/// Leaving out all entries at or below a name changes no area of an entry that is not among them; and no list of
/// subentries in force, where no access control subentry is among them.
pub fn a_subtree_without_subentries_changes_no_area()
    ensures areas { (top : RdnSequence) (entries : List EntryInformation) (entry : EntryInformation)
        → is_within top entry ≡ false → areas (without_subtree top entries) entry ≡ areas entries entry }
    ensures in_force { (top : RdnSequence) (entries : List EntryInformation) (entry : EntryInformation)
        → is_within top entry ≡ false → has_within is_access_subentry top entries ≡ false
        → in_force (without_subtree top entries) entry ≡ in_force entries entry }
{}

/// Taking out an entry changes no area of an entry that is neither at nor below its name; and from the subentries in
/// force for that entry it takes those of the name alone.
pub fn an_entry_taken_out_changes_no_area_beside_it()
    ensures areas { (top : RdnSequence) (entries : List EntryInformation) (entry : EntryInformation)
        → is_within top entry ≡ false → areas (taken_out top entries) entry ≡ areas entries entry }
    ensures in_force { (top : RdnSequence) (entries : List EntryInformation) (entry : EntryInformation)
        → is_within top entry ≡ false
        → in_force (taken_out top entries) entry ≡ taken_out top (in_force entries entry) }
{}
