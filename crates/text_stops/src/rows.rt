//! The table of what may stand where.

ghost use Rattle.std.specs.Prelude.{◌≡◌, ◌&&◌, ◌<◌, find, map, option_map};
ghost use Rattle.std.specs.Char.{is_ascii_digit};
ghost use Rattle.std.specs.List.{list_all, list_any};
ghost use Rattle.std.specs.Option.{option_copied};
ghost use Rattle.std.specs.Str.{bytes_eq};
ghost use Rattle.gser_tree.specs.Reading.{is_number};
ghost use Rattle.subtree_spec.specs.Parts.{is_oid};
ghost use Rattle.text_stops.specs.Table.{table, row_of, is_of, is_brace, has_braces, is_needed, fits_part, fits, fits_text, brace_rows, row_with, has_text};

use schema_tables::{is_dotted_oid, is_keystring};

/// What a row lets stand, where a value of the row's form comes.
#[derive(Clone, Copy)]
pub(crate) enum Part {
    /// In braces, a component that has to be there.
    Needed,
    /// In braces, a component that may be absent.
    Optional,
    /// In braces, a component of NULL, which may be absent and may stand without NULL.
    Flag,
    /// In braces, any number of members.
    Member,
    /// An identifier, a colon and a value.
    Choice,
    /// The word of the row's name.
    Word,
    /// A string.
    Text,
    /// A number.
    Number,
    /// An object identifier.
    Oid,
}

/// A row: the form, what stands there, its name, and the form of the value behind it.
#[derive(Clone, Copy)]
pub(crate) struct Row {
    pub(crate) form: &'static str,
    pub(crate) part: Part,
    pub(crate) name: &'static str,
    pub(crate) next: &'static str,
}

macro_rules! row {
    ($form:literal, $part:ident, $name:literal, $next:literal) => {
        Row {
            form: $form,
            part: Part::$part,
            name: $name,
            next: $next,
        }
    };
}

#[rattlefmt::skip]
static ROWS: [Row; 97] = [
    row!("ACIItem", Needed, "identificationTag", "String"),
    row!("ACIItem", Needed, "precedence", "INTEGER"),
    row!("ACIItem", Needed, "authenticationLevel", "AuthenticationLevel"),
    row!("ACIItem", Needed, "itemOrUserFirst", "ItemOrUserFirst"),
    row!("AuthenticationLevel", Choice, "basicLevels", "BasicLevels"),
    row!("AuthenticationLevel", Word, "none", ""),
    row!("AuthenticationLevel", Word, "simple", ""),
    row!("AuthenticationLevel", Word, "strong", ""),
    row!("BasicLevels", Needed, "level", "Level"),
    row!("Level", Word, "none", ""),
    row!("Level", Word, "simple", ""),
    row!("Level", Word, "strong", ""),
    row!("ItemOrUserFirst", Choice, "itemFirst", "ItemFirst"),
    row!("ItemOrUserFirst", Choice, "userFirst", "UserFirst"),
    row!("ItemFirst", Needed, "protectedItems", "ProtectedItems"),
    row!("ItemFirst", Needed, "itemPermissions", "ItemPermissions"),
    row!("UserFirst", Needed, "userClasses", "UserClasses"),
    row!("UserFirst", Needed, "userPermissions", "UserPermissions"),
    row!("ItemPermissions", Member, "", "ItemPermission"),
    row!("ItemPermission", Optional, "precedence", "INTEGER"),
    row!("ItemPermission", Needed, "userClasses", "UserClasses"),
    row!("ItemPermission", Needed, "grantsAndDenials", "GrantsAndDenials"),
    row!("UserPermissions", Member, "", "UserPermission"),
    row!("UserPermission", Optional, "precedence", "INTEGER"),
    row!("UserPermission", Needed, "protectedItems", "ProtectedItems"),
    row!("UserPermission", Needed, "grantsAndDenials", "GrantsAndDenials"),
    row!("UserClasses", Flag, "allUsers", ""),
    row!("UserClasses", Flag, "thisEntry", ""),
    row!("UserClasses", Optional, "name", "Users"),
    row!("UserClasses", Optional, "userGroup", "Users"),
    row!("UserClasses", Optional, "subtree", "Subtrees"),
    row!("Users", Member, "", "User"),
    row!("User", Text, "", ""),
    row!("User", Needed, "dn", "String"),
    row!("Subtrees", Member, "", "SubtreeSpecification"),
    row!("ProtectedItems", Flag, "entry", ""),
    row!("ProtectedItems", Flag, "allUserAttributeTypes", ""),
    row!("ProtectedItems", Optional, "attributeType", "AttributeTypes"),
    row!("ProtectedItems", Optional, "allAttributeValues", "AttributeTypes"),
    row!("ProtectedItems", Flag, "allUserAttributeTypesAndValues", ""),
    row!("ProtectedItems", Optional, "attributeValue", "AttributeValues"),
    row!("ProtectedItems", Optional, "selfValue", "AttributeTypes"),
    row!("ProtectedItems", Optional, "maxValueCount", "MaxValueCounts"),
    row!("ProtectedItems", Optional, "restrictedBy", "RestrictedValues"),
    row!("AttributeTypes", Member, "", "OBJECT IDENTIFIER"),
    row!("AttributeValues", Member, "", "AttributeTypeAndValue"),
    row!("AttributeTypeAndValue", Needed, "type", "OBJECT IDENTIFIER"),
    row!("AttributeTypeAndValue", Needed, "value", "String"),
    row!("MaxValueCounts", Member, "", "MaxValueCount"),
    row!("MaxValueCount", Needed, "type", "OBJECT IDENTIFIER"),
    row!("MaxValueCount", Needed, "maxCount", "INTEGER"),
    row!("RestrictedValues", Member, "", "RestrictedValue"),
    row!("RestrictedValue", Needed, "type", "OBJECT IDENTIFIER"),
    row!("RestrictedValue", Needed, "valuesIn", "OBJECT IDENTIFIER"),
    row!("GrantsAndDenials", Member, "", "Bit"),
    row!("Bit", Word, "grantAdd", ""),
    row!("Bit", Word, "denyAdd", ""),
    row!("Bit", Word, "grantDiscloseOnError", ""),
    row!("Bit", Word, "denyDiscloseOnError", ""),
    row!("Bit", Word, "grantRead", ""),
    row!("Bit", Word, "denyRead", ""),
    row!("Bit", Word, "grantRemove", ""),
    row!("Bit", Word, "denyRemove", ""),
    row!("Bit", Word, "grantBrowse", ""),
    row!("Bit", Word, "denyBrowse", ""),
    row!("Bit", Word, "grantExport", ""),
    row!("Bit", Word, "denyExport", ""),
    row!("Bit", Word, "grantImport", ""),
    row!("Bit", Word, "denyImport", ""),
    row!("Bit", Word, "grantModify", ""),
    row!("Bit", Word, "denyModify", ""),
    row!("Bit", Word, "grantRename", ""),
    row!("Bit", Word, "denyRename", ""),
    row!("Bit", Word, "grantReturnDN", ""),
    row!("Bit", Word, "denyReturnDN", ""),
    row!("Bit", Word, "grantCompare", ""),
    row!("Bit", Word, "denyCompare", ""),
    row!("Bit", Word, "grantFilterMatch", ""),
    row!("Bit", Word, "denyFilterMatch", ""),
    row!("Bit", Word, "grantInvoke", ""),
    row!("Bit", Word, "denyInvoke", ""),
    row!("SubtreeSpecification", Optional, "base", "String"),
    row!("SubtreeSpecification", Optional, "specificExclusions", "SpecificExclusions"),
    row!("SubtreeSpecification", Optional, "minimum", "INTEGER"),
    row!("SubtreeSpecification", Optional, "maximum", "INTEGER"),
    row!("SubtreeSpecification", Optional, "specificationFilter", "Refinement"),
    row!("SpecificExclusions", Member, "", "SpecificExclusion"),
    row!("SpecificExclusion", Choice, "chopBefore", "String"),
    row!("SpecificExclusion", Choice, "chopAfter", "String"),
    row!("Refinement", Choice, "item", "OBJECT IDENTIFIER"),
    row!("Refinement", Choice, "and", "Refinements"),
    row!("Refinement", Choice, "or", "Refinements"),
    row!("Refinement", Choice, "not", "Refinement"),
    row!("Refinements", Member, "", "Refinement"),
    row!("String", Text, "", ""),
    row!("INTEGER", Number, "", ""),
    row!("OBJECT IDENTIFIER", Oid, "", ""),
];

// The whole table.
#[tactic(auto, unfolding(crate::specs::Table::table))]
pub(crate) fn rows() -> &'static [Row]
    ensures exact { map row_of result.now ≡ table }
{
    &ROWS
}

// Whether the row is of the form.
fn is_of(form: &str, row: &Row) -> bool
    ensures exact { result ≡ is_of form.now (row_of row.now) }
{
    row.form == form
}

// Whether what the row lets stand stands in braces.
fn is_brace(part: Part) -> bool
    ensures exact { result ≡ is_brace part }
{
    match part {
        Part::Needed | Part::Optional | Part::Flag | Part::Member => true,
        Part::Choice | Part::Word | Part::Text | Part::Number | Part::Oid => false,
    }
}

/// Whether the row says what stands in the braces of the form.
pub(crate) fn has_braces(form: &str, row: &Row) -> bool
    ensures exact { result ≡ has_braces form.now (row_of row.now) }
{
    is_of(form, row) && is_brace(row.part)
}

/// Whether what the row lets stand has to be there.
pub(crate) fn is_needed(part: Part) -> bool
    ensures exact { result ≡ is_needed part }
{
    match part {
        Part::Needed => true,
        _ => false,
    }
}

// Whether octets are digits alone.
fn are_digits(octets: &[u8]) -> bool
    ensures exact { result ≡ list_all is_ascii_digit octets.now }
{
    octets.iter().all(|octet| octet.is_ascii_digit())
}

// Whether a word is a number (RFC 3641 section 3.2).
fn is_number(word: &[u8]) -> bool
    ensures exact { result ≡ is_number word.now }
{
    match word.split_first() {
        Some((first, rest)) => {
            first.is_ascii_digit() && are_digits(rest) && (*first != b'0' || rest.is_empty())
        }
        None => false,
    }
}

// Whether a word is an object identifier (RFC 3641 section 3.5).
fn is_oid(word: &[u8]) -> bool
    ensures exact { result ≡ is_oid word.now }
{
    is_dotted_oid(word) || is_keystring(word)
}

// Whether the word is one that the part lets stand.
fn fits_part(word: &[u8], part: Part, name: &str) -> bool
    ensures exact { result ≡ fits_part word.now part name.now }
{
    match part {
        Part::Word | Part::Choice => word == name.as_bytes(),
        Part::Number => is_number(word),
        Part::Oid => is_oid(word),
        Part::Needed | Part::Optional | Part::Flag | Part::Member | Part::Text => false,
    }
}

// Whether the row is of the form, and lets the word stand.
fn fits(form: &str, word: &[u8], row: &Row) -> bool
    ensures exact { result ≡ fits form.now word.now (row_of row.now) }
{
    is_of(form, row) && fits_part(word, row.part, row.name)
}

// The first of the rows that is of the form and lets the word stand.
fn row_among(rows: &'static [Row], form: &str, word: &[u8]) -> Option<&'static Row>
    ensures exact { option_map (λ row. row_of row.now) result ≡ find (fits form.now word.now) (map row_of rows.now) }
{
    let (row, rest) = rows.split_first()?;
    if fits(form, word, row) {
        Some(row)
    } else {
        row_among(rest, form, word)
    }
}

/// The first row of the form that lets the word stand.
pub(crate) fn row_with(form: &str, word: &[u8]) -> Option<&'static Row>
    ensures exact { option_map (λ row. row_of row.now) result ≡ row_with form.now word.now }
{
    row_among(rows(), form, word)
}

// Whether the row is of the form, and lets a string stand.
fn is_text(form: &str, row: &Row) -> bool
    ensures exact { result ≡ fits_text form.now (row_of row.now) }
{
    match row.part {
        Part::Text => is_of(form, row),
        _ => false,
    }
}

// Whether one of the rows is so.
fn has_text_among(rows: &[Row], form: &str) -> bool
    ensures exact { result ≡ list_any (fits_text form.now) (map row_of rows.now) }
{
    match rows.split_first() {
        Some((row, rest)) => is_text(form, row) || has_text_among(rest, form),
        None => false,
    }
}

/// Whether a string may stand for a value of the form.
pub(crate) fn has_text(form: &str) -> bool
    ensures exact { result ≡ has_text form.now }
{
    has_text_among(rows(), form)
}

// The rows from the first on that says what stands in the braces of the form.
fn brace_rows_among(rows: &'static [Row], form: &str) -> &'static [Row]
    ensures exact { map row_of result.now ≡ brace_rows form.now (map row_of rows.now) }
{
    match rows.split_first() {
        Some((row, rest)) => {
            if has_braces(form, row) {
                rows
            } else {
                brace_rows_among(rest, form)
            }
        }
        None => &[],
    }
}

/// The rows of the table from the first on that says what stands in the braces of the form.
pub(crate) fn brace_rows(form: &str) -> &'static [Row]
    ensures exact { map row_of result.now ≡ brace_rows form.now table }
{
    brace_rows_among(rows(), form)
}
