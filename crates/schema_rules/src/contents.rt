//! Which attributes the classes of an entry require and allow (X.501 13.3.3 and 13.4).

ghost use Rattle.std.specs.Prelude.{◌≡◌, not, false, ◌||◌, slice_get};
ghost use Rattle.std.specs.List.{list_any};
ghost use Rattle.std.specs.Option.{option_map_or};
ghost use Rattle.dir_tree.specs.Entry.{has_kind, kinds_of};
ghost use Rattle.dir_tree.specs.schema_tables.classes.Classes.{class_with};
ghost use Rattle.schema_rules.specs.Classes.{class_lacks, AreOfClasses};
ghost use Rattle.aci_item.specs.Listed.{all_classes, is_among, permitted_by};
ghost use Rattle.aci_item.specs.Rules.{lacks_required, has_unpermitted, is_permitted_besides};

use crate::marks::{is_marked, permitted_by};
use dir_tree::Entry;
use dir_tree::dn_names::Value;
use dir_tree::schema_tables::{AttrId, ClassId, class_with, required, superior};

/// Whether an attribute that a class requires is absent.
pub(crate) fn lacks_required(entry: &Entry) -> bool
    ensures exact { result ≡ lacks_required entry.now }
{
    lacks_any_listed(entry, entry.values(AttrId::OBJECT_CLASS))
}

// Whether an attribute is absent that one of the listed classes or a superclass of one requires.
fn lacks_any_listed(entry: &Entry, listed: &[Value]) -> bool
    ensures exact { result
        ≡ list_any
        (λ value. option_map_or (class_lacks entry.now.attributes) (class_with value.key) false)
        listed.now }
{
    listed.iter().any(|value| lacks_listed(entry, value.key()))
}

// Whether an attribute is absent that the listed class or a superclass of it requires.
fn lacks_listed(entry: &Entry, oid: &[u8]) -> bool
    ensures exact { result
        ≡ option_map_or (class_lacks entry.now.attributes) (class_with oid.now) false }
{
    match class_with(oid) {
        Some(class) => lacks_of_class(entry, class),
        None => false,
    }
}

// Whether an attribute is absent that the class or a superclass of it requires.
fn lacks_of_class(entry: &Entry, class: ClassId) -> bool
    ensures exact { result ≡ class_lacks entry.now.attributes class.0 }
{
    if lacks_one(entry, required(class)) {
        return true;
    }
    match superior(class) {
        Some(above) => lacks_of_class(entry, above),
        None => false,
    }
}

// Whether an attribute of one of the types is absent.
fn lacks_one(entry: &Entry, kinds: &[AttrId]) -> bool
    ensures exact { result
        ≡ list_any (λ kind. not (has_kind kind.0 entry.now.attributes)) kinds.now }
{
    kinds.iter().any(|kind| !has_kind(entry, *kind))
}

// Whether the entry has an attribute of the type.
fn has_kind(entry: &Entry, kind: AttrId) -> bool
    ensures exact { result ≡ has_kind kind.0 entry.now.attributes }
{
    entry.is_good();
    !entry.values(kind).is_empty()
}

/// Whether there is an attribute that nothing allows.
pub(crate) fn has_unpermitted(entry: &Entry) -> bool
    ensures exact { result ≡ has_unpermitted entry.now }
{
    let permitted = permitted_by(entry.values(AttrId::OBJECT_CLASS));
    for index in 0..entry.kinds() {
        if is_unpermitted_at(entry, &permitted, index) {
            return true;
        }
    }
    false
}

// Whether there is an attribute at the place, and nothing allows it.
fn is_unpermitted_at(entry: &Entry, permitted: &[bool; 256], index: usize) -> bool
    requires { AreOfClasses permitted.now entry.now.attributes }
    ensures exact { result
        ≡ option_map_or
        (λ kind. not (is_among kind (permitted_by (all_classes entry.now.attributes))
        || is_permitted_besides kind entry.now))
        (slice_get (kinds_of entry.now.attributes) index) false }
{
    match entry.kind_at(index) {
        Some(kind) => !is_permitted(entry, permitted, kind),
        None => false,
    }
}

// Whether a class or a rule for operational attributes allows an attribute of the type.
fn is_permitted(entry: &Entry, permitted: &[bool; 256], kind: AttrId) -> bool
    requires { AreOfClasses permitted.now entry.now.attributes }
    ensures exact { result
        ≡ (is_among kind.0 (permitted_by (all_classes entry.now.attributes))
        || is_permitted_besides kind.0 entry.now) }
{
    is_marked(permitted, kind) || is_permitted_besides(entry, kind)
}

// Whether the attribute is an operational one that the entry may have whatever its classes.
fn is_permitted_besides(entry: &Entry, kind: AttrId) -> bool
    ensures exact { result ≡ is_permitted_besides kind.0 entry.now }
{
    match kind {
        AttrId(33) => true,
        AttrId(29 | 31 | 34) => !entry.is_subentry(),
        _ => false,
    }
}
