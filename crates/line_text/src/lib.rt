//! Texts in lines: octets written into one line and read back, and a text cut into the lines that LF ends.
#![tactic(auto)]

mod escapes;
pub mod laws;
mod lines;
mod reading;

pub use dn_names;
pub use escapes::{put_escaped, put_one_line};
pub use lines::next_line;
pub use reading::read_back;
