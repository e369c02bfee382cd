//! The values of this crate (RFC 4511 section 4).

ghost use Rattle.std.specs.Prelude.{◌≤◌};

use crate::operations::{Ending, ResultCode};
use ldap_filter::Filter;
use plain_values::{Octets, OneOrMany};
use std::alloc::AllocError;

/// The one error of the calls that append: there was no memory.
pub type NoMemory = AllocError;

/// The most content octets that a message may have here.
pub const MAX_CONTENT: usize = 1_048_576;

/// What stands at the front of a stream (RFC 4511 5).
#[derive(Clone, Copy, Debug, PartialEq, Eq)]
pub enum Frame {
    /// A whole message, of so many octets.
    Whole(usize),
    /// Less than a whole message, or nothing.
    More,
    /// No message, however the stream goes on.
    Bad,
}

/// What stands at the front of a stream, and where the content of a whole message begins (RFC 4511 5).
#[derive(Clone, Copy, Debug, PartialEq, Eq)]
pub enum Framed {
    /// A whole message of `length` octets, the first `head` of which are its header.
    Whole { head: usize, length: usize },
    /// Less than a whole message, or nothing.
    More,
    /// No message, however the stream goes on.
    Bad,
}

/// How a client shows who it is (RFC 4511 4.2).
#[derive(Debug, Drop)]
pub enum Auth {
    /// A password.
    Simple(Octets),
    /// Another method, by its tag.
    Other(u8),
}

/// A bind request (RFC 4511 4.2).
#[derive(Debug, Drop)]
pub struct BindRequest {
    /// From 1 to 127.
    pub version: u8,
    pub name: Octets,
    pub auth: Auth,
}

/// An attribute's type and values (RFC 4511 4.1.7).
#[derive(Debug, Drop)]
pub struct KindValues {
    pub kind: Octets,
    pub values: OneOrMany<Octets>,
}

/// An operation on an attribute beyond the three of RFC 4511 4.6, as the increment of RFC 4525 is 3.
#[derive(Clone, Copy, Debug)]
pub struct OtherOperation {
    /// From 3 to 127.
    pub number: u8,
    pub ghost beyond: { 3 ≤ number },
}

/// What a change does with the values of its attribute (RFC 4511 4.6).
#[derive(Clone, Copy, Debug)]
pub enum ModifyOperation {
    /// They come beside those that are there.
    Add,
    /// They go; where none is given, the attribute goes.
    Delete,
    /// They take the place of all that are there; where none is given, the attribute goes.
    Replace,
    /// Another operation.
    Other(OtherOperation),
}

/// One change of a modify request (RFC 4511 4.6).
#[derive(Debug, Drop)]
pub struct Change {
    pub operation: ModifyOperation,
    pub body: KindValues,
}

/// A modify request (RFC 4511 4.6).
#[derive(Debug, Drop)]
pub struct ModifyRequest {
    pub name: Octets,
    pub changes: OneOrMany<Change>,
}

/// An add request (RFC 4511 4.7).
#[derive(Debug, Drop)]
pub struct AddRequest {
    pub name: Octets,
    pub attributes: OneOrMany<KindValues>,
}

/// A delete request (RFC 4511 4.8).
#[derive(Debug, Drop)]
pub struct DeleteRequest {
    pub name: Octets,
}

/// A modify DN request (RFC 4511 4.9).
#[derive(Debug, Drop)]
pub struct RenameRequest {
    pub name: Octets,
    pub new_rdn: Octets,
    pub delete_old: bool,
    pub superior: Option<Octets>,
}

/// A compare request (RFC 4511 4.10).
#[derive(Debug, Drop)]
pub struct CompareRequest {
    pub name: Octets,
    pub kind: Octets,
    pub value: Octets,
}

/// Which entries a search is over (RFC 4511 4.5.1.2).
#[derive(Clone, Copy, Debug)]
pub enum SearchScope {
    /// The base object alone.
    BaseObject,
    /// The entries immediately below the base object.
    SingleLevel,
    /// The base object and all below it.
    WholeSubtree,
}

/// A search request (RFC 4511 4.5.1).
#[derive(Drop)]
pub struct SearchRequest {
    pub base: Octets,
    pub scope: SearchScope,
    /// The most entries to be sent, 0 for no limit; up to 2,147,483,647.
    pub size: u32,
    /// Whether values are left out.
    pub kinds_only: bool,
    pub filter: Filter,
    pub selection: OneOrMany<Octets>,
}

/// A change of one entry.
#[derive(Debug, Drop)]
pub enum Update {
    /// To change an entry's attributes (RFC 4511 4.6).
    Modify(ModifyRequest),
    /// To add an entry (RFC 4511 4.7).
    Add(AddRequest),
    /// To delete an entry (RFC 4511 4.8).
    Delete(DeleteRequest),
    /// To give an entry another name (RFC 4511 4.9).
    Rename(RenameRequest),
}

/// What a client asks for.
#[derive(Drop)]
pub enum Request {
    /// To bind (RFC 4511 4.2).
    Bind(BindRequest),
    /// To end the session (RFC 4511 4.3).
    Unbind,
    /// To search entries (RFC 4511 4.5.1).
    Search(SearchRequest),
    /// To change an entry (RFC 4511 4.6 to 4.9).
    Update(Update),
    /// To compare a value with those of an entry (RFC 4511 4.10).
    Compare(CompareRequest),
    /// To abandon the operation with this message's number (RFC 4511 4.11).
    Abandon(u32),
    /// To run the operation of this name, with a value (RFC 4511 4.12).
    Extended(Octets, Option<Octets>),
}

/// What goes with an operation (RFC 4511 4.1.11).
#[derive(Debug, Drop)]
pub struct Control {
    pub kind: Octets,
    pub critical: bool,
    pub value: Option<Octets>,
}

/// A request's message (RFC 4511 4.1.1).
#[derive(Drop)]
pub struct Message {
    /// From 1 to 2,147,483,647.
    pub id: u32,
    pub request: Request,
    pub controls: OneOrMany<Control>,
}

/// How an operation ended (RFC 4511 4.1.9). The diagnostic message is always empty.
#[derive(Debug, Drop)]
pub struct LdapResult {
    pub code: ResultCode,
    pub matched: Octets,
}

/// What the server answers.
#[derive(Debug, Drop)]
pub enum Reply {
    /// One entry of a search, its name and its attributes (RFC 4511 4.5.2).
    Entry(Octets, OneOrMany<KindValues>),
    /// How an operation ended (RFC 4511 4.2.2 and 4.5.2 to 4.10).
    Ended(Ending, LdapResult),
    /// To an extended operation, with its name and its value (RFC 4511 4.12).
    Extended(LdapResult, Option<Octets>, Option<Octets>),
}
