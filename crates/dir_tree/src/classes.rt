//! The classes of an entry.

ghost use Rattle.std.specs.Prelude.{◌≡◌};
ghost use Rattle.std.specs.List.{list_any};
ghost use Rattle.std.specs.Str.{bytes_eq};
ghost use Rattle.dir_tree.specs.EntryClasses.{own_oid, oids_of, oids_of_listed};

use dn_names::Value;
use schema_tables::{ClassId, class_oid, class_with, superior};

/// Whether the object identifier is that of the class, or of a class above it.
fn is_below(class: ClassId, oid: &str) -> bool
    ensures exact { result ≡ list_any (bytes_eq oid.now) (oids_of class.0) }
{
    if has_oid(class, oid) {
        return true;
    }
    match superior(class) {
        Some(above) => is_below(above, oid),
        None => false,
    }
}

/// Whether the class has the object identifier.
fn has_oid(class: ClassId, oid: &str) -> bool
    ensures exact { result ≡ list_any (bytes_eq oid.now) (own_oid class.0) }
{
    match class_oid(class) {
        Some(own) => oid == own,
        None => false,
    }
}

/// Whether the object identifier is that of the class listed here, or of a class above it.
fn is_kind_of(listed: &[u8], oid: &str) -> bool
    ensures exact { result ≡ list_any (bytes_eq oid.now) (oids_of_listed listed.now) }
{
    if oid.as_bytes() == listed {
        return true;
    }
    match class_with(listed) {
        Some(found) => is_below(found, oid),
        None => false,
    }
}

/// Whether one of the listed classes, or of their superclasses, has the object identifier.
pub(crate) fn is_any_kind_of(listed: &[Value], oid: &str) -> bool
    ensures exact { result
        ≡ list_any (λ value. list_any (bytes_eq oid.now) (oids_of_listed value.key)) listed.now }
{
    listed.iter().any(|value| is_kind_of(value.key(), oid))
}
