//! The program that audits one connection of a recorded session: whether what others did in a subtree was hushed for it, and
//! whether what it was sent differs from what its own events alone get it.
#![tactic(auto)]

mod auditing;
mod outside;
mod printing;
mod program;
mod status;
mod troubles;
mod words;

pub use auditing::audit_script;
pub use hush_laws::{Audited, Fault, Part};
pub use outside::Outside;
pub use program::audit;
pub use status::AuditStatus;
pub use words::{Asked, read_words};
