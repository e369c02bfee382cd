//! Searches, by pages too, and compares answered (RFC 4511 4.5 and 4.10, X.511 9.2 and 10.2, RFC 2696), over any
//! directory that takes decisions.
#![tactic(auto)]

mod candidates;
mod choosing;
mod comparing;
mod paging;
mod root_entry;
mod searching;
mod selecting;
mod sending;
mod writing;

pub use acdf_filters;
pub use acdf_filters::aci_item;
pub use comparing::compare;
pub use directory;
pub use page_core;
pub use page_core::read_model;
pub use paging::search_page;
pub use searching::search;
pub use twin_laws;
