//! A directory that keeps what decisions need (X.501 18.8), and at a write changes little of it.
#![tactic(auto)]

mod anew;
mod indexed_dir;
mod inserting;
pub mod laws;
mod points;
mod posting;
mod putting;
mod removing;
mod replacing;
mod successor;

pub use acdf_filters;
pub use aci_lists;
pub use directory;
pub use indexed_dir::IndexedDir;
