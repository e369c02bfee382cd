//! The attribute types that the listed classes require or allow (X.501 13.3.3), each marked at its number: the classes
//! are looked up once for all attributes of an entry.

ghost use Rattle.std.specs.Prelude.{◌≡◌, ◌==◌, ◌++◌, false, get_or, ℕ};
ghost use Rattle.std.specs.List.{list_any};
ghost use Rattle.std.specs.Option.{option_map_or};
ghost use Rattle.dir_tree.specs.schema_tables.classes.Classes.{class_with, required_of, allowed_of};
ghost use Rattle.aci_item.specs.Listed.{is_among};
ghost use Rattle.schema_rules.specs.Classes.{class_permits, MarksAlso};

use dir_tree::dn_names::Value;
use dir_tree::schema_tables::{AttrId, ClassId, allowed, class_with, required, superior};

/// Whether the type is marked.
pub(crate) fn is_marked(marks: &[bool; 256], kind: AttrId) -> bool
    ensures exact { result ≡ get_or marks.now kind.0 false }
{
    marks[usize::from(kind.0)]
}

// Marks the type.
fn mark(marks: &mut [bool; 256], kind: AttrId)
    ensures exact { MarksAlso marks.old (λ number. number == kind.0) marks.new }
{
    marks[usize::from(kind.0)] = true;
}

// Marks the types.
fn mark_all(marks: &mut [bool; 256], kinds: &[AttrId])
    ensures exact { MarksAlso marks.old (λ number. list_any (λ kind. number == kind.0) kinds.now) marks.new }
{
    for kind in kinds {
        mark(marks, *kind);
    }
}

// Marks what the class's own row requires and allows.
fn mark_row(marks: &mut [bool; 256], class: ClassId)
    ensures exact { MarksAlso marks.old
        (λ number. is_among number (required_of class.0 ++ allowed_of class.0)) marks.new }
{
    mark_all(marks, required(class));
    mark_all(marks, allowed(class));
}

// Marks what the class and its superclasses require and allow.
fn mark_class(marks: &mut [bool; 256], class: ClassId)
    ensures exact { MarksAlso marks.old (λ number. class_permits number class.0) marks.new }
{
    mark_row(marks, class);
    match superior(class) {
        Some(above) => mark_class(marks, above),
        None => {}
    }
}

// Marks what the class with the object identifier and its superclasses require and allow.
fn mark_listed(marks: &mut [bool; 256], oid: &[u8])
    ensures exact { MarksAlso marks.old
        (λ number. option_map_or (class_permits number) (class_with oid.now) false) marks.new }
{
    match class_with(oid) {
        Some(class) => mark_class(marks, class),
        None => {}
    }
}

/// The types that the listed classes and their superclasses require and allow, each marked at its number.
pub(crate) fn permitted_by(listed: &[Value]) -> [bool; 256]
    ensures exact { (number : ℕ) → get_or result number false
        ≡ list_any (λ value. option_map_or (class_permits number) (class_with value.key) false) listed.now }
{
    let mut marks = [false; 256];
    for value in listed {
        mark_listed(&mut marks, value.key());
    }
    marks
}
