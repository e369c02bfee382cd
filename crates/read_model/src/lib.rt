//! What searches and compares are answered (X.511 9 and 10), over what a requester sees of a directory: definitions
//! alone, and their laws.
#![tactic(auto)]

pub use filter_match;
