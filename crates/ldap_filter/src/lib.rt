//! Search filters (RFC 4511 4.5.1.7): read where they lie, and written.
#![tactic(auto)]

mod assertion;
mod filter;
pub mod laws;
mod reading;
mod writing;

pub use assertion::{Assertion, put_assertion};
pub use filter::{Filter, Node};
pub use reading::{MOST_DEEP, read_filter};
pub use writing::put_filter;
