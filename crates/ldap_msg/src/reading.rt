//! Requests read where they lie; only the fields' octets are copied.

ghost use Rattle.std.specs.Prelude.{◌≡◌, IfOk, MatchResult, map, option_map};
ghost use Rattle.ber_layout.specs.declared.kinds.ReadFault.TheVariants.{NoMemory};
ghost use Rattle.ber_layout.specs.element.Reading.{Gives};
ghost use Rattle.ldap_msg.specs.declared.kinds.Message.{Message};
ghost use Rattle.ldap_msg.specs.declared.operations.Operation.TheVariants as operation_is;
ghost use Rattle.ldap_msg.specs.Controls.{control_parts, controls_from};
ghost use Rattle.ldap_msg.specs.reading.Contents.{request_in, request_of};
ghost use Rattle.ldap_msg.specs.reading.Messages.{Says, message_in, message_of};

use crate::binds::bind;
use crate::controls::controls;
use crate::extended::extended;
use crate::kinds::{
    AddRequest, CompareRequest, Control, DeleteRequest, Message, ModifyRequest, RenameRequest,
    Request, Update,
};
use crate::operations::Operation;
use crate::search::search;
use ber_layout::{Laid, ReadFault, any, integer, is_further_but, number, tagged};
use plain_values::{Octets, OneOrMany};
use std::alloc::Global;

/// The greatest messageID.
pub const MAX_ID: u32 = 2_147_483_647;

fn modify(alloc: Global, content: &[u8]) -> Result<Request, ReadFault>
    ensures { Gives (λ request. request) result (request_in operation_is.Modify content.now) }
{
    Ok(Request::Update(Update::Modify(ModifyRequest::read(alloc, content)?)))
}

fn add(alloc: Global, content: &[u8]) -> Result<Request, ReadFault>
    ensures { Gives (λ request. request) result (request_in operation_is.Add content.now) }
{
    Ok(Request::Update(Update::Add(AddRequest::read(alloc, content)?)))
}

fn extended_request(alloc: Global, content: &[u8]) -> Result<Request, ReadFault>
    ensures { Gives (λ request. request) result (request_in operation_is.Extended content.now) }
{
    let (name, value) = extended(alloc, content)?;
    Ok(Request::Extended(name, value))
}

fn delete(alloc: Global, content: &[u8]) -> Result<Request, ReadFault>
    ensures { Gives (λ request. request) result (request_in operation_is.Delete content.now) }
{
    let name = Octets::read(alloc, content)?;
    Ok(Request::Update(Update::Delete(DeleteRequest { name })))
}

fn rename(alloc: Global, content: &[u8]) -> Result<Request, ReadFault>
    ensures { Gives (λ request. request) result (request_in operation_is.Rename content.now) }
{
    let rename = RenameRequest::read(alloc, content)?;
    Ok(Request::Update(Update::Rename(rename)))
}

#[tactic(auto, unfolding(ber_layout::specs::Layouts::reads_into))]
fn unbind(content: &[u8]) -> Result<Request, ReadFault>
    ensures { Gives (λ request. request) result (request_in operation_is.Unbind content.now) }
{
    if !content.is_empty() {
        return Err(ReadFault::BadMessage);
    }
    Ok(Request::Unbind)
}

#[tactic(auto, unfolding(ber_layout::specs::Layouts::reads_into))]
fn abandon(content: &[u8]) -> Result<Request, ReadFault>
    ensures { Gives (λ request. request) result (request_in operation_is.Abandon content.now) }
{
    Ok(Request::Abandon(number(0, MAX_ID, content)?))
}

/// The request of an operation that a content says.
fn request(alloc: Global, operation: Operation, content: &[u8]) -> Result<Request, ReadFault>
    ensures { Gives (λ request. request) result (request_in operation content.now) }
{
    match operation {
        Operation::Bind => Ok(Request::Bind(bind(alloc, content)?)),
        Operation::Unbind => unbind(content),
        Operation::Search => Ok(Request::Search(search(alloc, content)?)),
        Operation::Modify => modify(alloc, content),
        Operation::Add => add(alloc, content),
        Operation::Delete => delete(alloc, content),
        Operation::Rename => rename(alloc, content),
        Operation::Compare => Ok(Request::Compare(CompareRequest::read(alloc, content)?)),
        Operation::Abandon => abandon(content),
        Operation::Extended => extended_request(alloc, content),
    }
}

fn request_at(alloc: Global, tag: u8, content: &[u8]) -> Result<Request, ReadFault>
    ensures { Gives (λ request. request) result (request_of (tag, content.now)) }
{
    match Operation::of(tag) {
        None => Err(ReadFault::BadMessage),
        Some(operation) => request(alloc, operation, content),
    }
}

/// Absent controls are none.
fn known(alloc: Global, controls: Option<OneOrMany<Control>>) -> OneOrMany<Control>
    ensures { result ≡ controls_from (option_map (λ list. (map control_parts list, tt)) controls) }
{
    match controls {
        None => OneOrMany::from_vec(Vec::new(alloc)),
        Some(controls) => controls,
    }
}

/// The request that the content of a whole message says. `BadMessage` comes exactly where it is no
/// request's (RFC 4511 section 4), and `NoMemory` may come in place of any answer.
#[tactic(auto, unfolding(ber_layout::specs::Layouts::reads_into, crate::specs::reading::Messages::message_in))]
pub fn read_content(alloc: Global, content: &[u8]) -> Result<Message, ReadFault>
    ensures { Gives (λ message. message) result (message_in content.now) }
{
    let id = integer(0x02, 1, MAX_ID, content)?;
    let operation = any(id.rest)?;
    let controls = controls(alloc, operation.rest)?;
    if !is_further_but(0xa0, controls.rest) {
        return Err(ReadFault::BadMessage);
    }
    let request = request_at(alloc, operation.tag, operation.content)?;
    Ok(Message {
        id: id.value,
        request,
        controls: known(alloc, controls.value),
    })
}

#[tactic(auto, unfolding(crate::specs::reading::Messages::message_of, ber_layout::specs::components::Components::required_of))]
fn message(alloc: Global, bytes: &[u8]) -> Result<Message, ReadFault>
    ensures { Gives (λ message. message) result (message_of bytes.now) }
{
    let outer = tagged(0x30, bytes)?;
    if !outer.rest.is_empty() {
        return Err(ReadFault::BadMessage);
    }
    read_content(alloc, outer.content)
}

/// The request that the octets say. They are one whole message; `BadMessage` comes exactly where
/// they aren't a request's (RFC 4511 section 4), and `NoMemory` may come in place of any answer.
pub fn read_request(alloc: Global, bytes: &[u8]) -> Result<Message, ReadFault>
    // What is read is what the octets say.
    ensures found { IfOk result (λ message. Says message bytes.now) }
    // What they say is read, unless memory runs out.
    ensures only { (other : Message) → Says other bytes.now → MatchResult result (λ message. message ≡ other) (λ fault. fault ≡ NoMemory) }
    ensures exact { Gives (λ message. message) result (message_of bytes.now) }
{
    message(alloc, bytes)
}
