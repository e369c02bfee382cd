//! Files of changes: requests that change a directory are written as change records (RFC 2849), and read again.
#![tactic(auto)]

mod adds;
mod content;
mod files;
mod heads;
pub mod laws;
mod lines;
mod modifies;
mod records;
mod renames;
mod types;
mod writing;

pub use files::read_file;
pub use heads::put_head;
pub use ldap_msg;
pub use ldif_records;
pub use types::{ChangeFile, NoMemory, RecordedChange};
pub use whole_blocks;
pub use writing::put_record;
