//! The table of attribute types.
ghost use Rattle.std.specs.Prelude.{◌≡◌, ◌↔◌, Some, IsSome, IsTrue, IfSome, map, option_map};
ghost use Rattle.schema_tables.specs.Oids.{oid_among, named_attribute};
ghost use Rattle.schema_tables.specs.Attributes.{attributes, attribute_of_row, IsAttrId, attr_of, attribute_at};

use crate::kinds::{AttrId, Row, Syntax};
use crate::naming::{NamedRow, oid_in, place_of};

// A row; the marks that are named are set.
macro_rules! attribute {
    ($name:literal, $oid:literal, $syntax:ident $(, $mark:ident)*) => {
        Row {
            $($mark: true,)*
            ..Row {
                name: $name,
                oid: $oid,
                syntax: Syntax::$syntax,
                single: false,
                operational: false,
                naming: false,
            }
        }
    };
}

#[rattlefmt::skip]
static ATTRIBUTES: [Row; 35] = [
    attribute!("objectClass", "2.5.4.0", Oid),
    attribute!("cn", "2.5.4.3", Text, naming),
    attribute!("sn", "2.5.4.4", Text, naming),
    attribute!("serialNumber", "2.5.4.5", Text, naming),
    attribute!("c", "2.5.4.6", Country, naming, single),
    attribute!("l", "2.5.4.7", Text, naming),
    attribute!("st", "2.5.4.8", Text, naming),
    attribute!("street", "2.5.4.9", Text, naming),
    attribute!("o", "2.5.4.10", Text, naming),
    attribute!("ou", "2.5.4.11", Text, naming),
    attribute!("title", "2.5.4.12", Text, naming),
    attribute!("description", "2.5.4.13", Text, naming),
    attribute!("postalCode", "2.5.4.17", Text, naming),
    attribute!("telephoneNumber", "2.5.4.20", Phone),
    attribute!("member", "2.5.4.31", Name),
    attribute!("owner", "2.5.4.32", Name),
    attribute!("roleOccupant", "2.5.4.33", Name),
    attribute!("seeAlso", "2.5.4.34", Name),
    attribute!("userPassword", "2.5.4.35", Octets),
    attribute!("givenName", "2.5.4.42", Text, naming),
    attribute!("initials", "2.5.4.43", Text, naming),
    attribute!("uniqueMember", "2.5.4.50", Name),
    attribute!("uid", "0.9.2342.19200300.100.1.1", Text, naming),
    attribute!("mail", "0.9.2342.19200300.100.1.3", Ascii, naming),
    attribute!("manager", "0.9.2342.19200300.100.1.10", Name),
    attribute!("dc", "0.9.2342.19200300.100.1.25", Ascii, naming, single),
    attribute!("mobile", "0.9.2342.19200300.100.1.41", Phone),
    attribute!("employeeNumber", "2.16.840.1.113730.3.1.3", Text, naming, single),
    attribute!("displayName", "2.16.840.1.113730.3.1.241", Text, naming, single),
    attribute!("administrativeRole", "2.5.18.5", Oid, operational),
    attribute!("subtreeSpecification", "2.5.18.6", Subtree, operational, single),
    attribute!("accessControlScheme", "2.5.24.1", Oid, operational, single),
    attribute!("prescriptiveACI", "2.5.24.4", Aci, operational),
    attribute!("entryACI", "2.5.24.5", Aci, operational),
    attribute!("subentryACI", "2.5.24.6", Aci, operational),
];

impl NamedRow for Row {
    ghost named = { λ row. named_attribute (attribute_of_row row) };

    fn name(&self) -> &'static str {
        self.name
    }

    fn oid(&self) -> &'static str {
        self.oid
    }
}

// The whole table.
#[tactic(auto, unfolding(crate::specs::Attributes::attributes))]
fn rows() -> &'static [Row]
    ensures exact { map attribute_of_row result.now ≡ attributes }
{
    &ATTRIBUTES
}

/// The row of an attribute type; None for a number past the table.
pub fn row(attribute: AttrId) -> Option<Row>
    ensures exact { option_map attribute_of_row result ≡ attribute_at attribute.0 }
    ensures found { IsSome result ↔ IsAttrId attribute.0 }
{
    rows().get(usize::from(attribute.0)).copied()
}

// The attribute type that octets of this length and first letter name most often. Another answer costs only time.
fn likely(octets: &[u8]) -> AttrId {
    let Some(first) = octets.first() else {
        return AttrId::OBJECT_CLASS;
    };
    match (octets.len(), *first) {
        (1, b'c') => AttrId::C,
        (1, b'l') => AttrId::L,
        (1, b'o') => AttrId::O,
        (2, b'c') => AttrId::CN,
        (2, b'd') => AttrId::DC,
        (2, b'o') => AttrId::OU,
        (2, b's') => AttrId::SN,
        (3, b'u') => AttrId::UID,
        (4, b'm') => AttrId::MAIL,
        (5, b't') => AttrId::TITLE,
        (6, b'm') => AttrId::MEMBER,
        (7, b'm') => AttrId::MANAGER,
        (9, b'g') => AttrId::GIVEN_NAME,
        (11, b'd') => AttrId::DESCRIPTION,
        (12, b'u') => AttrId::USER_PASSWORD,
        (14, b'e') => AttrId::EMPLOYEE_NUMBER,
        (15, b't') => AttrId::TELEPHONE_NUMBER,
        (15, b'p') => AttrId::PRESCRIPTIVE_ACI,
        _ => AttrId::OBJECT_CLASS,
    }
}

// Whether the octets are the name of the attribute type as the table spells it.
fn is_spelled(attribute: AttrId, octets: &[u8]) -> bool
    ensures exact { IsTrue result → attr_of octets.now ≡ Some attribute.0 }
    ensures fits { IsTrue result → IsAttrId attribute.0 }
{
    match row(attribute) {
        Some(row) => row.name.as_bytes() == octets,
        None => false,
    }
}

// The attribute type that octets name, sought row by row.
fn attr_sought(octets: &[u8]) -> Option<AttrId>
    ensures exact { option_map (λ attribute. attribute.0) result ≡ attr_of octets.now }
    ensures fits { IfSome result (λ attribute. IsAttrId attribute.0) }
{
    let index = place_of(rows(), octets)?;
    Some(AttrId(index as u8))
}

/// The attribute type that octets name: by its name, ASCII letters in either case, or by its dotted
/// object identifier. None comes exactly for octets that name no row.
pub fn attr_named(octets: &[u8]) -> Option<AttrId>
    ensures exact { option_map (λ attribute. attribute.0) result ≡ attr_of octets.now }
    ensures fits { IfSome result (λ attribute. IsAttrId attribute.0) }
{
    let likely = likely(octets);
    if is_spelled(likely, octets) {
        Some(likely)
    } else {
        attr_sought(octets)
    }
}

/// The attribute type that a text names, as `attr_named` finds it.
pub fn attr(text: &str) -> Option<AttrId>
    ensures exact { option_map (λ attribute. attribute.0) result ≡ attr_of text.now }
    ensures fits { IfSome result (λ attribute. IsAttrId attribute.0) }
{
    attr_named(text.as_bytes())
}

// The object identifier of the attribute type whose name the octets are.
#[tactic(auto, using(crate::proofs::attributes::AttributeLemmas::named_rows))]
pub(crate) fn attribute_oid_named(octets: &[u8]) -> Option<&'static str>
    ensures exact { option_map (λ oid. oid.now) result ≡ oid_among (map named_attribute attributes) octets.now }
{
    oid_in(rows(), octets)
}
