//! What is asked of the decision function.

use aci_item::Level;
use dir_tree::dn_names::{Dn, Value};
use dir_tree::schema_tables::AttrId;

/// Who asks: an anonymous requester has no name.
#[derive(Drop)]
pub struct Requester {
    pub name: Option<Dn>,
    /// How the requester is authenticated.
    pub level: Level,
}

/// What a permission is asked for (X.501 18.8.1).
#[derive(Clone, Copy)]
pub enum Item<'a> {
    /// The entry as a whole.
    Entry,
    /// An attribute type of it.
    Kind(AttrId),
    /// A value of an attribute type.
    Value(AttrId, &'a Value),
}
