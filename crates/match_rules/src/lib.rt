//! Keys of values: how a value's octets are prepared, and how prepared keys are compared.
#![tactic(auto)]

mod compare;
mod errors;
mod folding;
mod keys;
pub mod laws;
mod own;
mod parts;
mod rules;
mod spaces;
mod substrings;

pub use compare::{equal, order};
pub use errors::PrepareFault;
pub use keys::prepare;
pub use own::is_own_key;
pub use parts::{Part, prepare_part};
pub use rules::Rule;
pub use substrings::substring;
