//! Search filters (RFC 4511 4.5.1.7) evaluated over an entry in three values: prepared once a request, and asking
//! permission of each type and value that they match.
#![tactic(auto)]

mod allow;
mod asked;
mod evaluating;
mod exact;
mod judge;
pub mod laws;
mod matching;
mod needs;
mod possible;
mod prepared;
mod preparing;
mod question;
mod truth;
mod walk;
mod without;

pub use allow::Allow;
pub use evaluating::{evaluate, is_true};
pub use needs::Need;
pub use prepared::{NoMemory, Prepared, prepare_filter};
pub use truth::Truth;
