//! Changes of a directory that requests ask for (RFC 4511 4.7 and 4.8, X.511 11.1 and 11.2), over any directory that takes
//! decisions: an entry is deleted, or added. What reads the attributes of an add reads those of other requests, too.
#![tactic(auto)]

mod adding;
mod deleting;
mod fault;
mod reading;
mod rule_codes;
mod twice;

pub use adding::add;
pub use deleting::delete;
pub use directory;
pub use fault::Fault;
pub use ldif_load::schema_rules;
pub use read_model;
pub use reading::{Given, new_entry, read_attribute};
pub use rule_codes::rule_code;
pub use twice::repeats;
