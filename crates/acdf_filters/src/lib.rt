//! The access control decision function (X.501 18.8): its six filters as definitions over lists of tuples, and the
//! running state by which a program takes the decision, one tuple after the other.
#![tactic(auto)]

mod asking;
mod covering;
pub mod laws;
mod limits;
mod named;
mod question;
mod reading;
mod standing;
mod staying;
mod users;
mod weighing;

pub use aci_item;
pub use aci_item::{gser_tree, subtree_spec};
pub use admin_scope;
pub use asking::{Item, Requester};
pub use covering::{covers, is_explicit};
pub use limits::is_barred;
pub use named::NamedRequester;
pub use question::{Membership, Question};
pub use reading::read_items;
pub use standing::Standing;
pub use staying::{rank, stays};
pub use users::{class_of, listed_class};
pub use weighing::{TaggedTuples, weigh};
