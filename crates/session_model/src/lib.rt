//! Sessions over streams: what is answered to whom, what a server keeps of it, and when a journal serves it; what is
//! answered alike over two trees, and what a connection is shown of the steps of others.
#![tactic(auto)]

pub mod laws;

pub use ldap_msg;
pub use ldap_msg::{ber_elements, ber_layout, ldap_filter};
pub use wire_io;
pub use wire_io::script_text;
