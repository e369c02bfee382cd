//! Values in the generic string encoding rules (RFC 3641), read as trees of words, strings, braces, named and chosen
//! values.
#![tactic(auto)]

mod growing;
mod lexing;
mod looking;
mod marks;
mod part;
mod reading;
mod strings;
mod token;
mod tree;
mod writing;

pub use looking::{component, flag, read_tree};
pub use part::Part;
pub use reading::{Bad, Stop, number};
pub use strings::put_string;
pub use tree::Tree;
pub use writing::{put_end, put_kind, put_name, put_number, put_separator};
