//! The files of a command, read from a shelf: a data file, which is loaded as a tree, and after it a script, whose events a
//! link gives, requests as text, the octets of a certificate, or changes, which are applied to the tree; and the line that
//! says why one of them wasn't read.
#![tactic(auto)]

mod changing;
mod loading;
mod troubles;

pub use change_replay;
pub use change_replay::aci_item;
pub use changing::{Applied, ChangesCause, ChangesFault, Loaded, head_of};
pub use client_core;
pub use data_file;
pub use data_file::{ldif_load, ldif_records};
pub use dir_tree;
pub use dir_tree::dn_names;
pub use loading::{
    DataFile, SecondFile, Trouble, load_asks, load_certificate, load_changes, load_content,
    load_data, load_file, load_script, load_tree,
};
pub use troubles::{bad_data_text, put_trouble};
pub use wire_io;
pub use wire_io::{hex, plain_values, script_text};
