//! LDAP messages (RFC 4511): where a message ends in a stream of octets, requests and replies read and written.
#![tactic(auto)]

mod attributes;
mod binds;
mod controls;
mod extended;
mod framing;
mod kinds;
pub mod laws;
mod operations;
mod other_codes;
mod plain;
mod reading;
mod replies;
mod requests;
mod results;
mod room;
mod search;
mod writing;

pub use ber_elements;
pub use ber_layout;
pub use ber_layout::ReadFault;
pub use framing::{frame, framed};
pub use kinds::{
    AddRequest, Auth, BindRequest, Change, CompareRequest, Control, DeleteRequest, Frame, Framed,
    KindValues, LdapResult, MAX_CONTENT, Message, ModifyOperation, ModifyRequest, NoMemory,
    OtherOperation, RenameRequest, Reply, Request, SearchRequest, SearchScope, Update,
};
pub use ldap_filter;
pub use ldap_filter::{Filter, Node};
pub use operations::{Ending, Operation, Response, ResultCode};
pub use other_codes::OtherCode;
pub use plain_values;
pub use reading::{read_content, read_request};
pub use replies::{put_notice, put_reply, read_reply};
pub use writing::put_request;
