//! What a link gives of a peer's octets at once, so that no event has more than one search of many
//! entries: where octets are cut, and what is kept behind the cut.
#![tactic(auto)]

mod cuts;
mod kept;
pub mod laws;
mod wide;

pub use cuts::{Cut, cut_at};
pub use kept::Kept;
pub use ldap_msg;
pub use wide::is_wide;
