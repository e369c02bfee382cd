//! Search filters as text (RFC 4515), read and printed.
#![tactic(auto)]

mod classes;
mod error;
mod frame;
mod frames;
mod items;
pub mod laws;
mod members;
mod modes;
mod octets;
mod printing;
mod reading;

pub use error::FilterFault;
pub use printing::print_filter;
pub use reading::read_filter;
