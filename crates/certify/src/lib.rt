//! Certificates of access control decisions (X.501 18.8), which can be redone from a tree, and tables of a requester's
//! rights on an entry.
#![tactic(auto)]

mod certifying;
mod fault;
mod form;
mod form_lines;
mod gathering;
mod lasting;
pub mod laws;
mod lines;
mod printing;
mod proving;
mod questions;
mod scopes;
mod table;
mod tuples;
mod verifying;

pub use explanation;
pub use fault::CertFault;
pub use proving::{prove, prove_text};
pub use table::{rights, rights_text};
pub use verifying::verify;
