//! An index of the values of attributes: which entries may have a value that a filter asks for. It promises that no
//! holder of a value is missing, and nothing else; who asks looks at each entry that it names.
#![tactic(auto)]

mod adding;
mod candidates;
mod dropping;
mod hashes;
mod holders;
mod index;
pub mod laws;
mod making;

pub use candidates::among;
pub use dir_tree;
pub use hashes::hashes_of;
pub use holders::MOST_HOLDERS;
pub use index::ValueIndex;
pub use making::index_of;
