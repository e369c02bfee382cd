//! The types of the schema's rows.

/// The number of an attribute type: the place of its row in the table, from 0.
#[derive(Clone, Copy, PartialEq, Eq, PartialOrd, Ord, Hash, Debug)]
pub struct AttrId(pub u8);

/// The number of an object class: the place of its row in the table, from 0.
#[derive(Clone, Copy, PartialEq, Eq, PartialOrd, Ord, Hash, Debug)]
pub struct ClassId(pub u8);

/// The form that the values of an attribute type have, and so the rule by which they are compared.
#[derive(Clone, Copy, PartialEq, Eq, Debug)]
pub enum Syntax {
    /// Text that isn't empty, compared without regard to case and repeated spaces.
    Text,
    /// The same, of octets below 128.
    Ascii,
    /// A telephone number: printable ASCII, compared without its spaces and hyphens.
    Phone,
    /// The two letters of a country.
    Country,
    /// Any octets, compared as they are.
    Octets,
    /// An object identifier, dotted or by a name of the schema.
    Oid,
    /// A distinguished name.
    Name,
    /// A subtree specification (X.501 12.3).
    Subtree,
    /// An access control item (X.501 18.4).
    Aci,
}

/// One attribute type (RFC 4512 section 2.5.1, cut to what this server uses).
#[derive(Clone, Copy, PartialEq, Eq, Debug)]
pub struct Row {
    /// The name as the server writes it.
    pub name: &'static str,
    /// The object identifier in dotted form.
    pub oid: &'static str,
    /// The form of its values.
    pub syntax: Syntax,
    /// An entry has at most one value of it.
    pub single: bool,
    /// It belongs to the working of the server, and a search sends it only where it is asked for.
    pub operational: bool,
    /// It may stand in a relative distinguished name.
    pub naming: bool,
}

/// What a class is for (RFC 4512 section 2.4).
#[derive(Clone, Copy, PartialEq, Eq, Debug)]
pub enum ClassKind {
    /// Only other classes build on it.
    Abstract,
    /// It says what the entry is.
    Structural,
    /// It adds attributes to an entry.
    Auxiliary,
}
