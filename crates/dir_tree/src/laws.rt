//! The laws of entries and of trees: each function computes nothing, and what it ensures is a law.

ghost use Rattle.std.specs.Prelude.{◌≡◌, ◌≢◌, ℕ, [], ◌∷◌, ◌++◌, List, Some, slice_get, ◌<◌, true, false, length, None, IsSome, filter};
ghost use Rattle.std.specs.List.{IsDistinct, AllByRecursion};
ghost use Rattle.std.specs.Option.{option_map_or, option_and_then};
ghost use Rattle.schema_tables.specs.classes.Classes as class_rows;
ghost use Rattle.dn_names.specs.name.Names.{Keyed, RdnSequence};
ghost use Rattle.dir_tree.specs.Entry.{Attribute, EntryInformation, values_of, is_match, IsGoodAttributes};
ghost use Rattle.dir_tree.specs.attributes.Changes.{put_value, set_in, without_key, cut_attributes, other_attributes, with_value, with_values, without_value, without_kind};
ghost use Rattle.dir_tree.specs.EntryClasses.{own_oid, oids_of};
ghost use Rattle.dn_names.specs.NameOrder.{is_same};
ghost use Rattle.dir_tree.specs.tree.Trees.{most_entries, has_name, named_in, lacks_superior, has_below, put_in, taken_out, IsInOrder, IsTree};
ghost use Rattle.dir_tree.specs.tree.Numbered.{Numbered, IsNumberedTree, AreDistinct, ids_of, entries_of, entries_at, entry_of, find_name, suffix_of, superior_of, put_entry, without};
ghost use Rattle.dir_tree.specs.Scope.{scoped, is_superior, is_within, is_child};
ghost use Rattle.dir_tree.specs.declared.scope.Scope.TheVariants.{One, Sub};

/// A class has its own object identifier, and those that its superior has: the bound in the definition leaves
/// out none.
pub fn a_class_has_the_identifiers_of_its_superior()
    ensures exact { (number : ℕ)
        → oids_of number ≡ own_oid number ++ option_map_or oids_of (class_rows.superior_of number) [] }
{}

/// The values of an attribute are those that its type finds.
pub fn an_attribute_is_found_by_its_type()
    ensures exact { (attributes : List Attribute) (index : ℕ) (attribute : Attribute)
        → IsGoodAttributes attributes → slice_get attributes index ≡ Some attribute
        → values_of attribute.kind attributes ≡ attribute.values }
{}

/// Which values a change leaves of the type that it changes.
pub fn a_change_is_of_one_type()
    ensures put { (kind : ℕ) (value : Keyed) (attributes : List Attribute)
        → values_of kind (put_value kind value attributes) ≡ values_of kind attributes ++ value ∷ [] }
    ensures set { (kind : ℕ) (values : List Keyed) (attributes : List Attribute)
        → values_of kind (set_in kind values attributes) ≡ values }
    ensures cut { (kind : ℕ) (key : List ℕ) (attributes : List Attribute) → IsGoodAttributes attributes
        → values_of kind (cut_attributes kind key attributes) ≡ without_key key (values_of kind attributes) }
    ensures dropped { (kind : ℕ) (attributes : List Attribute)
        → values_of kind (other_attributes kind attributes) ≡ [] }
{}

/// The values of other types stay.
pub fn a_change_leaves_other_types()
    ensures put { (kind other : ℕ) (value : Keyed) (attributes : List Attribute) → other ≢ kind
        → values_of other (put_value kind value attributes) ≡ values_of other attributes }
    ensures set { (kind other : ℕ) (values : List Keyed) (attributes : List Attribute) → other ≢ kind
        → values_of other (set_in kind values attributes) ≡ values_of other attributes }
    ensures cut { (kind other : ℕ) (key : List ℕ) (attributes : List Attribute)
        → IsGoodAttributes attributes → other ≢ kind
        → values_of other (cut_attributes kind key attributes) ≡ values_of other attributes }
    ensures dropped { (kind other : ℕ) (attributes : List Attribute) → other ≢ kind
        → values_of other (other_attributes kind attributes) ≡ values_of other attributes }
{}

/// The attributes stay good.
pub fn a_change_leaves_good_attributes()
    ensures with_value { (kind : ℕ) (value : Keyed) (entry : EntryInformation) → IsGoodAttributes entry.attributes
        → IsGoodAttributes (with_value kind value entry).attributes }
    ensures with_values { (kind : ℕ) (values : List Keyed) (entry : EntryInformation) → values ≢ []
        → IsDistinct is_match values → IsGoodAttributes entry.attributes
        → IsGoodAttributes (with_values kind values entry).attributes }
    ensures without_value { (kind : ℕ) (key : List ℕ) (entry : EntryInformation) → IsGoodAttributes entry.attributes
        → IsGoodAttributes (without_value kind key entry).attributes }
    ensures without_kind { (kind : ℕ) (entry : EntryInformation) → IsGoodAttributes entry.attributes
        → IsGoodAttributes (without_kind kind entry).attributes }
{}

/// The suffix has no superior in the tree, and each other entry has; all are at or below the suffix.
pub fn all_but_the_suffix_have_superiors()
    ensures empty { (id : ℕ) (rows : List Numbered)
        → IsNumberedTree rows → suffix_of rows ≡ Some id → superior_of id rows ≡ None }
    ensures found { (id : ℕ) (entry : EntryInformation) (rows : List Numbered)
        → IsNumberedTree rows → entry_of id rows ≡ Some entry → suffix_of rows ≢ Some id
        → IsSome (superior_of id rows) }
    ensures whole { (first : EntryInformation) (rest : List EntryInformation) → IsTree (first ∷ rest)
        → AllByRecursion (λ entry. is_within first.name entry ≡ true) (first ∷ rest) }
{}

/// Immediately below an entry stand those whose superior it is; at or below the suffix all stand.
pub fn scopes_take_in_what_is_below()
    ensures one { (id : ℕ) (rows : List Numbered) → IsNumberedTree rows
        → scoped One id rows ≡ ids_of (filter (λ row. is_superior id row.id rows) rows) }
    ensures whole { (id : ℕ) (rows : List Numbered)
        → IsNumberedTree rows → suffix_of rows ≡ Some id → scoped Sub id rows ≡ ids_of rows }
{}

/// Numbers stand for entries: each row's number finds its entry, the number of a name the entry of the name, and those
/// that a scope takes in the entries that pass its test.
pub fn numbers_stand_for_entries()
    ensures own { (rows : List Numbered) → AreDistinct rows
        → AllByRecursion (λ row. entry_of row.id rows ≡ Some row.entry) rows }
    ensures found { (name : RdnSequence) (rows : List Numbered) → AreDistinct rows
        → option_and_then (λ id. entry_of id rows) (find_name name rows) ≡ named_in name (entries_of rows) }
    ensures one { (id : ℕ) (base : EntryInformation) (rows : List Numbered)
        → IsNumberedTree rows → entry_of id rows ≡ Some base
        → entries_at rows (scoped One id rows) ≡ filter (is_child base.name) (entries_of rows) }
    ensures sub { (id : ℕ) (base : EntryInformation) (rows : List Numbered)
        → IsNumberedTree rows → entry_of id rows ≡ Some base
        → entries_at rows (scoped Sub id rows) ≡ filter (is_within base.name) (entries_of rows) }
{}

/// What putting an entry in and taking one out make of the entries without their numbers.
pub fn entries_change_as_rows_do()
    ensures put { (id : ℕ) (entry : EntryInformation) (rows : List Numbered)
        → entries_of (put_entry id entry rows) ≡ put_in entry (entries_of rows) }
    ensures taken { (id : ℕ) (entry : EntryInformation) (rows : List Numbered)
        → IsNumberedTree rows → entry_of id rows ≡ Some entry
        → entries_of (without id rows) ≡ taken_out entry.name (entries_of rows) }
{}

/// An entry taken out and put in again stands where it stood, and one put in and taken out leaves the tree as it was.
pub fn putting_in_undoes_taking_out()
    ensures put { (id : ℕ) (entry : EntryInformation) (rows : List Numbered) → IsNumberedTree rows
        → entry_of id rows ≡ Some entry → put_entry id entry (without id rows) ≡ rows }
    ensures taken { (id : ℕ) (entry : EntryInformation) (rows : List Numbered)
        → entry_of id rows ≡ None → without id (put_entry id entry rows) ≡ rows }
    ensures put_in { (entry : EntryInformation) (entries : List EntryInformation) → IsInOrder entries
        → named_in entry.name entries ≡ Some entry → put_in entry (taken_out entry.name entries) ≡ entries }
    ensures taken_out { (entry : EntryInformation) (entries : List EntryInformation)
        → has_name entry.name entries ≡ false → taken_out entry.name (put_in entry entries) ≡ entries }
{}

/// A change that is not refused leaves a tree: an entry put in, one taken out that has none below, and one in the place
/// of another, under a name that is the same or, where none stands below, a free one whose superior is among the others.
pub fn a_change_leaves_a_tree()
    ensures put { (entry : EntryInformation) (entries : List EntryInformation) → IsTree entries
        → entry.name ≢ [] → has_name entry.name entries ≡ false → lacks_superior entry.name entries ≡ false
        → length entries < most_entries → IsTree (put_in entry entries) }
    ensures taken { (old : EntryInformation) (entries : List EntryInformation) → IsTree entries
        → named_in old.name entries ≡ Some old → has_below old.name entries ≡ false
        → IsTree (taken_out old.name entries) }
    ensures same { (old : EntryInformation) (entries : List EntryInformation) → IsTree entries
        → named_in old.name entries ≡ Some old → (new : EntryInformation) → is_same new.name old.name ≡ true
        → new.name ≢ [] → IsTree (put_in new (taken_out old.name entries)) }
    ensures moved { (old : EntryInformation) (entries : List EntryInformation) → IsTree entries
        → named_in old.name entries ≡ Some old → (new : EntryInformation) → has_below old.name entries ≡ false
        → new.name ≢ [] → has_name new.name (taken_out old.name entries) ≡ false
        → lacks_superior new.name (taken_out old.name entries) ≡ false
        → IsTree (put_in new (taken_out old.name entries)) }
{}
