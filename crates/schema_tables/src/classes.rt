//! The table of object classes.
ghost use Rattle.std.specs.Prelude.{◌≡◌, ◌<◌, IfSome, map, option_map, position, slice_get};
ghost use Rattle.std.specs.Str.{bytes_eq};
ghost use Rattle.schema_tables.specs.Oids.{oid_among, named_class};
ghost use Rattle.schema_tables.specs.classes.Classes.{classes, IsClassId, class_at, class_of, class_with, kind_of, class_oid_of, superior_of, required_of, allowed_of};
ghost use Rattle.schema_tables.specs.classes.ClassRows.{named_number, numbered, numbered_of_row};

use crate::kinds::{AttrId, ClassId, ClassKind};
use crate::naming::{NamedRow, oid_in, place_of};

// A class, its superior and its attribute types by number.
#[derive(Clone, Copy)]
pub(crate) struct ClassRow {
    name: &'static str,
    oid: &'static str,
    kind: ClassKind,
    superior: Option<ClassId>,
    required: &'static [AttrId],
    allowed: &'static [AttrId],
}

macro_rules! class {
    (
        $name:literal, $oid:literal, $kind:ident, $superior:expr,
        [$($required:ident),*], [$($allowed:ident),*]
    ) => {
        ClassRow {
            name: $name,
            oid: $oid,
            kind: ClassKind::$kind,
            superior: $superior,
            required: &[$(AttrId::$required),*],
            allowed: &[$(AttrId::$allowed),*],
        }
    };
}

// Each row: what the class requires, and then what it allows besides.
#[rattlefmt::skip]
static CLASSES: [ClassRow; 19] = [
    class!("top", "2.5.6.0", Abstract, None, [OBJECT_CLASS], []),
    class!("country", "2.5.6.2", Structural, Some(ClassId::TOP), [C], [DESCRIPTION]),
    class!("locality", "2.5.6.3", Structural, Some(ClassId::TOP), [],
        [STREET, SEE_ALSO, ST, L, DESCRIPTION]),
    class!("organization", "2.5.6.4", Structural, Some(ClassId::TOP), [O],
        [USER_PASSWORD, SEE_ALSO, TELEPHONE_NUMBER, STREET, POSTAL_CODE, ST, L, DESCRIPTION]),
    class!("organizationalUnit", "2.5.6.5", Structural, Some(ClassId::TOP), [OU],
        [USER_PASSWORD, SEE_ALSO, TELEPHONE_NUMBER, STREET, POSTAL_CODE, ST, L, DESCRIPTION]),
    class!("person", "2.5.6.6", Structural, Some(ClassId::TOP), [SN, CN],
        [USER_PASSWORD, TELEPHONE_NUMBER, SEE_ALSO, DESCRIPTION]),
    class!("organizationalPerson", "2.5.6.7", Structural, Some(ClassId::PERSON), [],
        [TITLE, STREET, POSTAL_CODE, OU, ST, L]),
    class!("organizationalRole", "2.5.6.8", Structural, Some(ClassId::TOP), [CN],
        [TELEPHONE_NUMBER, SEE_ALSO, ROLE_OCCUPANT, STREET, POSTAL_CODE, OU, ST, L, DESCRIPTION]),
    class!("groupOfNames", "2.5.6.9", Structural, Some(ClassId::TOP), [MEMBER, CN],
        [SEE_ALSO, OWNER, OU, O, DESCRIPTION]),
    class!("device", "2.5.6.14", Structural, Some(ClassId::TOP), [CN],
        [SERIAL_NUMBER, SEE_ALSO, OWNER, OU, O, L, DESCRIPTION]),
    class!("groupOfUniqueNames", "2.5.6.17", Structural, Some(ClassId::TOP), [UNIQUE_MEMBER, CN],
        [SEE_ALSO, OWNER, OU, O, DESCRIPTION]),
    class!("domain", "0.9.2342.19200300.100.4.13", Structural, Some(ClassId::TOP), [DC],
        [USER_PASSWORD, SEE_ALSO, TELEPHONE_NUMBER, STREET, POSTAL_CODE, ST, L, DESCRIPTION, O]),
    class!("account", "0.9.2342.19200300.100.4.5", Structural, Some(ClassId::TOP), [UID],
        [DESCRIPTION, SEE_ALSO, L, O, OU]),
    class!("inetOrgPerson", "2.16.840.1.113730.3.2.2", Structural,
        Some(ClassId::ORGANIZATIONAL_PERSON), [],
        [DISPLAY_NAME, EMPLOYEE_NUMBER, GIVEN_NAME, INITIALS, MAIL, MANAGER, MOBILE, O, UID]),
    class!("dcObject", "1.3.6.1.4.1.1466.344", Auxiliary, Some(ClassId::TOP), [DC], []),
    class!("uidObject", "1.3.6.1.1.3.1", Auxiliary, Some(ClassId::TOP), [UID], []),
    class!("simpleSecurityObject", "0.9.2342.19200300.100.4.19", Auxiliary,
        Some(ClassId::TOP), [USER_PASSWORD], []),
    class!("subentry", "2.5.17.0", Structural, Some(ClassId::TOP), [CN, SUBTREE_SPECIFICATION], []),
    class!("accessControlSubentry", "2.5.17.1", Auxiliary, Some(ClassId::TOP), [],
        [PRESCRIPTIVE_ACI]),
];

impl NamedRow for ClassRow {
    ghost named = { λ row. named_number (numbered_of_row row) };

    fn name(&self) -> &'static str {
        self.name
    }

    fn oid(&self) -> &'static str {
        self.oid
    }
}

// The whole table.
#[tactic(auto, unfolding(crate::specs::Attributes::attributes, crate::specs::classes::Classes::classes))]
fn rows() -> &'static [ClassRow]
    ensures exact { map numbered_of_row result.now ≡ map numbered classes }
{
    &CLASSES
}

// The class that the octets name.
fn class_named(octets: &[u8]) -> Option<ClassId>
    ensures exact { option_map (λ class. class.0) result ≡ class_of octets.now }
    ensures fits { IfSome result (λ class. IsClassId class.0) }
{
    let index = place_of(rows(), octets)?;
    Some(ClassId(index as u8))
}

/// The class that a text names: by its name, ASCII letters in either case, or by its dotted object
/// identifier. None comes exactly for a text that names no row.
pub fn class(text: &str) -> Option<ClassId>
    ensures exact { option_map (λ class. class.0) result ≡ class_of text.now }
    ensures fits { IfSome result (λ class. IsClassId class.0) }
{
    class_named(text.as_bytes())
}

// The place of the first row that has the object identifier.
fn place_with(rows: &[ClassRow], oid: &[u8]) -> Option<usize>
    ensures exact { result ≡ position (λ row. bytes_eq oid.now row.oid.now) rows.now }
{
    rows.iter().position(|row| oid == row.oid.as_bytes())
}

/// The class with this dotted object identifier. None comes exactly for one that is of no class here.
pub fn class_with(oid: &[u8]) -> Option<ClassId>
    ensures exact { option_map (λ class. class.0) result ≡ class_with oid.now }
    ensures fits { IfSome result (λ class. IsClassId class.0) }
{
    let index = place_with(rows(), oid)?;
    Some(ClassId(index as u8))
}

// The row of a class, of these rows.
fn row_of(rows: &[ClassRow], class: ClassId) -> Option<ClassRow>
    ensures exact { result ≡ slice_get rows.now class.0 }
{
    rows.get(usize::from(class.0)).copied()
}

// The row of a class.
#[tactic(auto, using(crate::proofs::classes::ClassLemmas::slice_get_rows))]
fn row_at(class: ClassId) -> Option<ClassRow>
    ensures exact { option_map numbered_of_row result ≡ option_map numbered (class_at class.0) }
{
    row_of(rows(), class)
}

/// What the class is for; None for a number past the table.
pub fn class_kind(class: ClassId) -> Option<ClassKind>
    ensures exact { result ≡ kind_of class.0 }
{
    Some(row_at(class)?.kind)
}

/// The class's object identifier in dotted form; None for a number past the table.
pub fn class_oid(class: ClassId) -> Option<&'static str>
    ensures exact { option_map (λ oid. oid.now) result ≡ class_oid_of class.0 }
{
    Some(row_at(class)?.oid)
}

/// The class immediately above, which has a smaller number. Nothing is above `top`, and no class has
/// a number past the table: for both there is None.
pub fn superior(class: ClassId) -> Option<ClassId>
    ensures exact { option_map (λ superior. superior.0) result ≡ superior_of class.0 }
    ensures fits { IfSome result (λ superior. superior.0 < class.0) }
{
    row_at(class)?.superior
}

/// The attribute types that an entry of the class must have, as the class's own row lists them: those
/// of its superiors stand in their rows. Empty for a number past the table.
pub fn required(class: ClassId) -> &'static [AttrId]
    ensures exact { map (λ attribute. attribute.0) result.now ≡ required_of class.0 }
{
    match row_at(class) {
        Some(row) => row.required,
        None => &[],
    }
}

/// The attribute types that an entry of the class may have besides, as the class's own row lists
/// them: those of its superiors stand in their rows. Empty for a number past the table.
pub fn allowed(class: ClassId) -> &'static [AttrId]
    ensures exact { map (λ attribute. attribute.0) result.now ≡ allowed_of class.0 }
{
    match row_at(class) {
        Some(row) => row.allowed,
        None => &[],
    }
}

// The object identifier of the class whose name the octets are.
#[tactic(auto, using(crate::proofs::classes::ClassLemmas::named_rows))]
pub(crate) fn class_oid_named(octets: &[u8]) -> Option<&'static str>
    ensures exact { option_map (λ oid. oid.now) result ≡ oid_among (map named_class classes) octets.now }
{
    oid_in(rows(), octets)
}
