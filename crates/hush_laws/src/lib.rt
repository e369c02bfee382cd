//! What others do in a subtree is hushed for a connection where it can't tell: which part of that fails first of a run, the
//! tests of each part over directories, and the law that what is hushed does not show.
#![tactic(auto)]

mod audited;
mod difference;
mod equality;
mod fault;
mod groups;
pub mod laws;
mod outside;
mod part;
mod requests;
mod rows;
mod twins;
mod within;

pub use audited::Audited;
pub use difference::first_difference;
pub use fault::Fault;
pub use groups::lists_group_outside;
pub use op_read;
pub use outside::are_same_outside;
pub use part::Part;
pub use requests::{binds_within, failing_request, is_change};
pub use session_hub;
pub use twins::{Beginning, failing_twins};
pub use within::{governs_within, is_below_suffix, shows_within};
