//! Data files: the LDAP data interchange format (RFC 2849), read record by record and written.
#![tactic(auto)]

mod content;
mod fields;
mod kind_text;
mod kinds;
pub mod laws;
mod lines;
mod reading;
mod types;
mod unfolded;
mod writing;

pub use content::{first_content, next_content};
pub use fields::{Parts, attribute_line, field, name_line, value};
pub use kind_text::KindText;
pub use kinds::{is_changetype, is_kind};
pub use reading::next_record;
pub use types::{BadLine, LineCause, NoMemory, Position, Record, RecordLine, RecordLines};
pub use unfolded::Unfolded;
pub use writing::{put_entry, put_line};
