//! Changes of the tree: so far the loading of a data file's records, for which access control isn't asked.
#![tactic(auto)]

mod fault;
pub mod laws;
mod lines;
mod load;
mod own;

pub use fault::{LoadCause, LoadFault, NoMemory};
pub use ldif_records;
pub use load::load_record;
pub use own::add_own_values;
pub use schema_rules;
