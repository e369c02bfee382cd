//! The basic encoding rules of X.690, as far as LDAP uses them: headers of elements, and integers.
#![tactic(auto)]

mod integer;
mod kinds;
pub mod laws;
mod number;
mod read;
mod write;

pub use integer::{int_len, put_int, read_int};
pub use kinds::{Header, NoMemory};
pub use read::header;
pub use write::{header_len, put_header};
