//! The laws of the rules: each function computes nothing, and what it ensures is a law.

ghost use Rattle.std.specs.Prelude.{◌≡◌, ◌≢◌, ◌↔◌, List, [], Option, None, Some, true, false};
ghost use Rattle.dir_tree.specs.dn_names.NameOrder.{is_same};
ghost use Rattle.dir_tree.specs.dn_names.name.GoodNames.{IsGoodName};
ghost use Rattle.dir_tree.specs.Entry.{EntryInformation, IsGoodAttributes};
ghost use Rattle.dir_tree.specs.tree.Trees.{has_name, named_in, lacks_superior, has_below, put_in, taken_out};
ghost use Rattle.aci_item.specs.Rules.{broken_rule, Meets, AreGood};

/// No rule is broken exactly where each one is met.
pub fn an_entry_meets_the_rules_or_breaks_one()
    ensures exact { (old : Option EntryInformation) (others : List EntryInformation) (entry : EntryInformation)
        → (broken_rule old others entry ≡ None) ↔ Meets old others entry }
{}

/// Good entries stay so with one more that has a good name and good attributes, that the tree takes, and that breaks
/// no rule: checking the new entry alone is enough. No entries are good.
pub fn a_tree_stays_good()
    ensures empty { AreGood [] }
    ensures exact { (entries : List EntryInformation) (entry : EntryInformation) → AreGood entries
        → entry.name ≢ [] → IsGoodName entry.name → IsGoodAttributes entry.attributes
        → has_name entry.name entries ≡ false → lacks_superior entry.name entries ≡ false
        → broken_rule None entries entry ≡ None → AreGood (put_in entry entries) }
{}

/// Good entries stay so where one takes another's place and breaks no rule there: under the same name, or, where none
/// stands below, under a free name whose superior is left.
pub fn a_tree_stays_good_in_place()
    ensures same { (entries : List EntryInformation) (old new : EntryInformation) → AreGood entries
        → named_in old.name entries ≡ Some old → is_same new.name old.name ≡ true
        → new.name ≢ [] → IsGoodName new.name → IsGoodAttributes new.attributes
        → broken_rule (Some old) (taken_out old.name entries) new ≡ None
        → AreGood (put_in new (taken_out old.name entries)) }
    ensures moved { (entries : List EntryInformation) (old new : EntryInformation) → AreGood entries
        → named_in old.name entries ≡ Some old → has_below old.name entries ≡ false
        → new.name ≢ [] → has_name new.name (taken_out old.name entries) ≡ false
        → lacks_superior new.name (taken_out old.name entries) ≡ false
        → IsGoodName new.name → IsGoodAttributes new.attributes
        → broken_rule (Some old) (taken_out old.name entries) new ≡ None
        → AreGood (put_in new (taken_out old.name entries)) }
{}
