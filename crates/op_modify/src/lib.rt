//! Changes of an entry that requests ask for (RFC 4511 4.6 and 4.9, X.511 11.3 and 11.4), over any directory that takes
//! decisions: its attributes are modified, or it gets another name.
#![tactic(auto)]

mod asker;
mod coming;
mod leaving;
mod modifying;
mod reading;
mod renames;
mod renaming;
mod replacing;

pub use acdf_filters::aci_item;
pub use ldap_msg;
pub use leaving::find_above;
pub use modifying::modify;
pub use op_add_delete;
pub use reading::read_changes;
pub use renames::rename;
pub use renaming::{Renaming, read_renaming};
