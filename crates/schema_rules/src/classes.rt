//! Classes of the table, with their superclasses.

ghost use Rattle.std.specs.Prelude.{◌≡◌};
ghost use Rattle.aci_item.specs.Listed.{is_structural, are_in_line};

use dir_tree::schema_tables::{ClassId, ClassKind, class_kind, is_or_above};

/// Whether one of the two is the other, or a superclass of it.
pub(crate) fn are_in_line(one: ClassId, other: ClassId) -> bool
    ensures exact { result ≡ are_in_line one.0 other.0 }
{
    if is_or_above(one, other) {
        true
    } else {
        is_or_above(other, one)
    }
}

/// Whether the class is structural.
pub(crate) fn is_structural(class: ClassId) -> bool
    ensures exact { result ≡ is_structural class.0 }
{
    match class_kind(class) {
        Some(ClassKind::Structural) => true,
        _ => false,
    }
}
