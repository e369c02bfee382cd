//! Access control items (X.501 18.4): read from text, printed, and split into tuples.
#![tactic(auto)]

mod bits;
mod classes;
mod entry_rule;
mod item;
mod kind_printing;
mod level;
mod limits;
mod members;
mod parts;
mod permission;
mod printing;
mod protected;
mod reading;
mod sets;
mod splitting;

pub use bits::Bits;
pub use classes::UserClasses;
pub use entry_rule::EntryRule;
pub use gser_tree;
pub use item::{AciItem, First, ItemPermission, UserPermission};
pub use level::Level;
pub use permission::Permission;
pub use printing::print;
pub use protected::{AttributeTypeAndValue, MaxValueCount, ProtectedItems, RestrictedValue};
pub use reading::read;
pub use splitting::{AciTuple, tuples};
pub use subtree_spec;
pub use subtree_spec::BadText;
