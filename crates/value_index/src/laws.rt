//! The laws of the index: each function computes nothing, and what it ensures is a law.

ghost use Rattle.std.specs.Prelude.{◌≡◌, ℕ, true, ◌||◌, List, Some};
ghost use Rattle.dir_tree.specs.Entry.{EntryInformation, values_of, has_key};
ghost use Rattle.dir_tree.specs.tree.Numbered.{Numbered, entry_of, put_entry, without};
ghost use Rattle.value_index.specs.declared.index.Posting.{Posting};
ghost use Rattle.value_index.specs.Hashes.{hash_of, type_hash, is_indexed, has_hash, hashes_of};
ghost use Rattle.value_index.specs.Postings.{AllStay, IsIndexed, IsPosted, OthersStay};

/// An entry that has a value of a type that is posted is posted under the value's hash, or under that of the type alone.
pub fn a_holder_is_posted()
    ensures exact { (kind : ℕ) (key : List ℕ) (entry : EntryInformation) → is_indexed kind ≡ true
        → has_key key (values_of kind entry.attributes) ≡ true
        → (has_hash (hash_of kind key) (hashes_of entry) || has_hash (type_hash kind) (hashes_of entry)) ≡ true }
{}

/// The index of a tree is that of the tree that a change leaves, where the postings of other numbers stay and the number of
/// the change is posted under the hashes of its entry, if it then has one: where an entry is put in, where one is taken out,
/// where one takes the place of another, and where the tree stays.
pub fn an_index_stays_one()
    ensures put { (old new : List Posting) (id : ℕ) (entry : EntryInformation) (rows : List Numbered)
        → IsIndexed old rows → AllStay old new → IsPosted id (hashes_of entry) new
        → IsIndexed new (put_entry id entry rows) }
    ensures taken { (old new : List Posting) (id : ℕ) (rows : List Numbered)
        → IsIndexed old rows → OthersStay id old new → IsIndexed new (without id rows) }
    ensures replaced { (old new : List Posting) (id : ℕ) (entry : EntryInformation) (rows : List Numbered)
        → IsIndexed old rows → OthersStay id old new → IsPosted id (hashes_of entry) new
        → IsIndexed new (put_entry id entry (without id rows)) }
    ensures same { (old new : List Posting) (id : ℕ) (rows : List Numbered)
        → IsIndexed old rows → OthersStay id old new
        → ((entry : EntryInformation) → entry_of id rows ≡ Some entry → IsPosted id (hashes_of entry) new)
        → IsIndexed new rows }
{}
