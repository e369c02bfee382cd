//! What classes and their superclasses require and allow.

ghost use Rattle.std.specs.Prelude.{◌≡◌, ◌||◌, ◌++◌, false, map};
ghost use Rattle.std.specs.Option.{option_map_or};
ghost use Rattle.dir_tree.specs.schema_tables.classes.Classes.{class_with, required_of, allowed_of};
ghost use Rattle.dir_tree.specs.schema_tables.Superclasses.{with_superclasses};
ghost use Rattle.aci_item.specs.Listed.{is_among, required_by, permitted_by};
ghost use Rattle.fault_places.specs.ClassFaults.{is_required_by, is_permitted_by};

use dir_tree::dn_names::Value;
use dir_tree::schema_tables::{AttrId, ClassId, allowed, class_with, required, superior};

// Whether the type is one of these.
fn is_among(kind: AttrId, kinds: &[AttrId]) -> bool
    ensures exact { result ≡ is_among kind.0 (map (λ other. other.0) kinds.now) }
{
    match kinds.split_first() {
        Some((first, rest)) => kind.0 == first.0 || is_among(kind, rest),
        None => false,
    }
}

// Whether the class or a superclass of it requires the type.
fn class_requires(kind: AttrId, class: ClassId) -> bool
    ensures exact { result ≡ is_among kind.0 (required_by (with_superclasses class.0)) }
{
    if is_among(kind, required(class)) {
        return true;
    }
    match superior(class) {
        Some(above) => class_requires(kind, above),
        None => false,
    }
}

// Whether the class's own row requires or allows the type.
fn row_permits(kind: AttrId, class: ClassId) -> bool
    ensures exact { result ≡ is_among kind.0 (required_of class.0 ++ allowed_of class.0) }
{
    is_among(kind, required(class)) || is_among(kind, allowed(class))
}

// Whether the class or a superclass of it requires or allows the type.
fn class_permits(kind: AttrId, class: ClassId) -> bool
    ensures exact { result ≡ is_among kind.0 (permitted_by (with_superclasses class.0)) }
{
    if row_permits(kind, class) {
        return true;
    }
    match superior(class) {
        Some(above) => class_permits(kind, above),
        None => false,
    }
}

/// Whether the class of the value, or a superclass of it, requires the type.
pub(crate) fn is_required_by(kind: AttrId, value: &Value) -> bool
    ensures exact { result ≡ is_required_by kind.0 value.now }
{
    match class_with(value.key()) {
        Some(class) => class_requires(kind, class),
        None => false,
    }
}

/// Whether the class of the value, or a superclass of it, requires or allows the type.
pub(crate) fn is_permitted_by(kind: AttrId, value: &Value) -> bool
    ensures exact { result ≡ is_permitted_by kind.0 value.now }
{
    match class_with(value.key()) {
        Some(class) => class_permits(kind, class),
        None => false,
    }
}
