//! What an entry's roles make of it.

ghost use Rattle.std.specs.Prelude.{◌≡◌, false};
ghost use Rattle.std.specs.Option.{option_map_or};
ghost use Rattle.dir_tree.specs.Entry.{has_key, values_of};
ghost use Rattle.dir_tree.specs.Points.{administrative_role, is_specific_point, is_inner_point};
ghost use Rattle.dir_tree.specs.tree.Numbered.{entry_of};
ghost use Rattle.admin_scope.specs.Finding.{stands};

use dir_tree::schema_tables::AttrId;
use dir_tree::{Entry, EntryNo, Tree};

// Whether the entry has the role of the object identifier.
fn has_role(entry: &Entry, oid: &str) -> bool
    ensures exact { result ≡ has_key oid.now (values_of administrative_role entry.now.attributes) }
{
    entry.has_value(AttrId::ADMINISTRATIVE_ROLE, oid.as_bytes())
}

/// Whether the entry is a specific point for access control: it has the role autonomousArea or
/// accessControlSpecificArea (X.501 14.3).
#[tactic(auto, unfolding(dir_tree::specs::Points::is_specific_point))]
pub fn is_specific_point(entry: &Entry) -> bool
    ensures exact { result ≡ is_specific_point entry.now }
{
    has_role(entry, "2.5.23.1") || has_role(entry, "2.5.23.2")
}

/// Whether the entry is an inner point: it has the role accessControlInnerArea, and is no specific point (X.501 14.3).
#[tactic(auto, unfolding(dir_tree::specs::Points::is_inner_point))]
pub fn is_inner_point(entry: &Entry) -> bool
    ensures exact { result ≡ is_inner_point entry.now }
{
    has_role(entry, "2.5.23.3") && !is_specific_point(entry)
}

/// Whether the entry of the number is a specific point.
pub(crate) fn is_specific(tree: &Tree, number: EntryNo) -> bool
    ensures exact { result ≡ stands is_specific_point number.0 tree.now }
{
    match tree.at(number) {
        Some(entry) => is_specific_point(entry),
        None => false,
    }
}

/// Whether the entry of the number is an inner point.
pub(crate) fn is_inner(tree: &Tree, number: EntryNo) -> bool
    ensures exact { result ≡ stands is_inner_point number.0 tree.now }
{
    match tree.at(number) {
        Some(entry) => is_inner_point(entry),
        None => false,
    }
}
