//! Entries of the directory (X.501 clause 8), and the tree that they form (clause 9), with numbers by which
//! entries are known.
#![tactic(auto)]

mod attribute_iter;
mod attributes;
mod classes;
mod entry;
mod insert;
pub mod laws;
mod number;
mod paths;
mod reader;
mod refusals;
mod remove;
mod replace;
mod scope;
mod slots;
mod subentries;
mod tree;
mod vacancy;
mod walk;

pub use attribute_iter::Attributes;
pub use dn_names;
pub use dn_names::{match_rules, plain_values};
pub use entry::{Entry, NoMemory};
pub use number::EntryNo;
pub use reader::TreeReader;
pub use refusals::{InsertRefusal, RemoveRefusal, ReplaceRefusal};
pub use schema_tables;
pub use scope::Scope;
pub use tree::Tree;
pub use vacancy::{MOST_ENTRIES, Vacancy};
pub use walk::Walk;
