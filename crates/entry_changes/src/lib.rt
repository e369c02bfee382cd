//! Changes of one entry that modify and rename requests ask for (RFC 4511 4.6 and 4.9): which are refused, and what the
//! others leave of the entry. Neither the tree nor the access control decision is known here.
#![tactic(auto)]

mod ask;
mod change;
mod changing;
mod effects;
mod fault;
mod kind;
pub mod laws;
mod making;
mod pending;
mod refusing;
mod renaming;

pub use ask::EntryAsker;
pub use change::EntryChange;
pub use changing::change_entry;
pub use fault::{ChangeFault, NoMemory};
pub use kind::ChangeKind;
pub use renaming::{is_same_rdn, rename_entry};
