//! The directory schema of the server: attribute types, object classes and administrative roles, in
//! fixed tables. No call takes memory.
#![tactic(auto)]

mod attributes;
mod classes;
mod kinds;
pub mod laws;
mod naming;
mod numbers;
mod oids;
mod roles;
mod superclasses;

pub use attributes::{attr, attr_named, row};
pub use classes::{allowed, class, class_kind, class_oid, class_with, required, superior};
pub use kinds::{AttrId, ClassId, ClassKind, Row, Syntax};
pub use naming::is_keystring;
pub use numbers::constants_are_rows;
pub use oids::{is_dotted_oid, oid_of};
pub use superclasses::is_or_above;
