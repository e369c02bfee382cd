//! The structural classes of an entry stay when another takes its place (X.501 13.3.2).

ghost use Rattle.std.specs.Prelude.{◌≡◌, ◌==◌, ◌&&◌, ◌||◌, not, true, false};
ghost use Rattle.std.specs.List.{list_any, list_all};
ghost use Rattle.std.specs.Option.{option_map, option_map_or};
ghost use Rattle.dir_tree.specs.schema_tables.classes.Classes.{class_with};
ghost use Rattle.aci_item.specs.Listed.{is_among, is_structural};
ghost use Rattle.schema_rules.specs.Classes.{structural_in};
ghost use Rattle.schema_rules.specs.Checking.{replaced};
ghost use Rattle.aci_item.specs.Rules.{are_among, has_other_structural};

use crate::classes::is_structural;
use crate::old::replaced;
use dir_tree::dn_names::Value;
use dir_tree::schema_tables::{AttrId, ClassId, class_with};
use dir_tree::{Entry, EntryNo, Tree};

/// Whether the entry lists other structural classes than the one whose place it takes.
#[tactic(auto, unfolding(aci_item::specs::Rules::has_other_structural))]
pub(crate) fn has_other_structural(tree: &Tree, old: Option<EntryNo>, entry: &Entry) -> bool
    ensures exact { result
        ≡ has_other_structural (replaced (option_map (λ no. no.0) old) tree.now) entry.now }
{
    match replaced(tree, old) {
        Some(old) => differ(
            old.values(AttrId::OBJECT_CLASS),
            entry.values(AttrId::OBJECT_CLASS),
        ),
        None => false,
    }
}

// Whether the values list other structural classes than the old ones.
fn differ(old: &[Value], listed: &[Value]) -> bool
    ensures exact { result
        ≡ not (are_among (structural_in old.now) (structural_in listed.now)
        && are_among (structural_in listed.now) (structural_in old.now)) }
{
    !(are_among(old, listed) && are_among(listed, old))
}

// Whether each structural class of the one values is among those of the others.
fn are_among(some: &[Value], all: &[Value]) -> bool
    ensures exact { result ≡ are_among (structural_in some.now) (structural_in all.now) }
{
    all_kept(some, all)
}

// Whether each of the one values that is of a structural class is of one of those of the others.
fn all_kept(some: &[Value], all: &[Value]) -> bool
    ensures exact { result
        ≡ list_all (λ value. option_map_or
        (λ class. not (is_structural class) || is_among class (structural_in all.now))
        (class_with value.key) true) some.now }
{
    some.iter().all(|value| is_kept(value.key(), all))
}

// Whether the object identifier is that of no structural class, or of one that is among those of the values.
fn is_kept(oid: &[u8], all: &[Value]) -> bool
    ensures exact { result
        ≡ option_map_or (λ class. not (is_structural class) || is_among class (structural_in all.now))
        (class_with oid.now) true }
{
    match class_with(oid) {
        Some(class) => !is_structural(class) || lists_structural(all, class),
        None => true,
    }
}

// Whether the class is among the structural ones of the values.
fn lists_structural(listed: &[Value], class: ClassId) -> bool
    ensures exact { result ≡ is_among class.0 (structural_in listed.now) }
{
    has_structural(listed, class)
}

// Whether one of the values is of the class, which is structural.
fn has_structural(listed: &[Value], class: ClassId) -> bool
    ensures exact { result
        ≡ list_any (λ value. option_map_or (λ other. is_structural other && (class.0 == other))
        (class_with value.key) false) listed.now }
{
    listed
        .iter()
        .any(|value| is_of_structural(value.key(), class))
}

// Whether the object identifier is that of the class, which is structural.
fn is_of_structural(oid: &[u8], class: ClassId) -> bool
    ensures exact { result
        ≡ option_map_or (λ other. is_structural other && (class.0 == other)) (class_with oid.now) false }
{
    match class_with(oid) {
        Some(other) => is_structural(other) && class.0 == other.0,
        None => false,
    }
}
