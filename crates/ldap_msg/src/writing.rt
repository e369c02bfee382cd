//! Requests written.

ghost use Rattle.std.specs.Prelude.{◌≡◌, ◌++◌, OnOk, OnErr};
ghost use Rattle.ber_layout.specs.Layouts.{writes};
ghost use Rattle.ber_layout.specs.Spellings.{Extends, element_octets};
ghost use Rattle.ldap_msg.specs.operations.Operations.{request_tag};
ghost use Rattle.ldap_msg.specs.reading.Contents.{update_operation, operation_for, update_octets, content_octets};
ghost use Rattle.ldap_msg.specs.reading.Messages.{message_layout, message_parts, request_octets, HasOwnTag};

use crate::binds::put_bind;
use crate::controls::put_controls;
use crate::extended::put_extended;
use crate::kinds::{Message, NoMemory, Request, Update};
use crate::operations::Operation;
use crate::search::put_search;
use ber_elements::put_int;
use ber_layout::{Laid, enclose, put_number};

impl Update {
    /// The operation that is asked for.
    pub fn operation(&self) -> Operation
        ensures { result ≡ update_operation self.now }
    {
        match self {
            Update::Modify(_) => Operation::Modify,
            Update::Add(_) => Operation::Add,
            Update::Delete(_) => Operation::Delete,
            Update::Rename(_) => Operation::Rename,
        }
    }
}

impl Request {
    /// The operation that is asked for.
    pub fn operation(&self) -> Operation
        ensures { result ≡ operation_for self.now }
    {
        match self {
            Request::Bind(_) => Operation::Bind,
            Request::Unbind => Operation::Unbind,
            Request::Search(_) => Operation::Search,
            Request::Update(update) => update.operation(),
            Request::Compare(_) => Operation::Compare,
            Request::Abandon(_) => Operation::Abandon,
            Request::Extended(_, _) => Operation::Extended,
        }
    }
}

/// Appends the content of a request for a change.
fn put_update(out: &mut Vec<u8>, update: &Update) -> Result<(), NoMemory>
    ensures ok { OnOk result (out.new.items ≡ out.old.items ++ update_octets update.now) }
    ensures kept { Extends out.old.items out.new.items }
{
    match update {
        Update::Modify(modify) => modify.put(out),
        Update::Add(add) => add.put(out),
        Update::Delete(delete) => out.extend_from_slice(delete.name.as_slice()),
        Update::Rename(rename) => rename.put(out),
    }
}

/// Appends the content of a request.
fn put_content(out: &mut Vec<u8>, request: &Request) -> Result<(), NoMemory>
    requires { HasOwnTag request.now }
    ensures ok { OnOk result (out.new.items ≡ out.old.items ++ content_octets request.now) }
    ensures kept { Extends out.old.items out.new.items }
{
    match request {
        Request::Bind(bind) => put_bind(out, bind),
        Request::Unbind => Ok(()),
        Request::Search(search) => put_search(out, search),
        Request::Update(update) => put_update(out, update),
        Request::Compare(compare) => compare.put(out),
        Request::Abandon(id) => put_int(out, i64::from(*id)),
        Request::Extended(name, value) => put_extended(out, name.as_slice(), value),
    }
}

fn put_operation(out: &mut Vec<u8>, request: &Request) -> Result<(), NoMemory>
    requires { HasOwnTag request.now }
    ensures ok { OnOk result (out.new.items ≡ out.old.items ++ element_octets (request_tag (operation_for request.now)) (content_octets request.now)) }
    ensures kept { Extends out.old.items out.new.items }
{
    let start = out.len();
    put_content(out, request)?;
    enclose(out, request.operation().tag(), start)
}

fn put_components(out: &mut Vec<u8>, message: &Message) -> Result<(), NoMemory>
    requires { HasOwnTag message.now.request }
    ensures ok { OnOk result (out.new.items ≡ out.old.items ++ writes message_layout (message_parts message.now)) }
    ensures kept { Extends out.old.items out.new.items }
{
    put_number(out, 0x02, message.id)?;
    put_operation(out, &message.request)?;
    put_controls(out, message.controls.as_slice())
}

#[tactic(auto, unfolding(crate::specs::reading::Messages::request_octets))]
fn put_message(out: &mut Vec<u8>, message: &Message) -> Result<(), NoMemory>
    requires { HasOwnTag message.now.request }
    ensures ok { OnOk result (out.new.items ≡ out.old.items ++ request_octets message.now) }
    ensures kept { Extends out.old.items out.new.items }
{
    let start = out.len();
    put_components(out, message)?;
    enclose(out, 0x30, start)
}

/// Appends a request's message: the one written spelling (RFC 4511 section 4). A bind's other method
/// has a tag of one octet that isn't that of a password, and gets no content. After the error, want
/// of memory, or a content of 2^32 octets or more, `out` is as before.
pub fn put_request(out: &mut Vec<u8>, message: &Message) -> Result<(), NoMemory>
    requires { HasOwnTag message.now.request }
    ensures ok { OnOk result (out.new.items ≡ out.old.items ++ request_octets message.now) }
    ensures err { OnErr result (out.new.items ≡ out.old.items) }
{
    let before = out.len();
    match put_message(out, message) {
        Ok(()) => Ok(()),
        Err(fault) => {
            out.truncate(before);
            Err(fault)
        }
    }
}
