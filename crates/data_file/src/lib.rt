//! Data files (RFC 2849): a whole file loaded as a tree, and a tree written as a file, which loads again.
#![tactic(auto)]

mod fault;
pub mod laws;
mod loading;
mod writing;

pub use fault::{DataCause, DataFault, NoMemory};
pub use ldif_load;
pub use ldif_load::ldif_records;
pub use loading::load;
pub use writing::put_tree;
