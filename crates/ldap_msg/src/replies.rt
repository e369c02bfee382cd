//! Replies written and read.

ghost use Rattle.std.specs.Prelude.{◌≡◌, ◌≤◌, ◌+◌, ◌++◌, ℕ, vec_len, vec_capacity, IsOk, IfOk, MatchResult, OnOk, OnErr, Some, None};
ghost use Rattle.ber_layout.specs.declared.kinds.ReadFault.TheVariants.{NoMemory as no_memory};
ghost use Rattle.ber_layout.specs.Layouts.{reads, writes};
ghost use Rattle.ber_layout.specs.element.Reading.{Gives};
ghost use Rattle.ber_layout.specs.Spellings.{Extends, element_octets};
ghost use Rattle.ldap_msg.specs.declared.kinds.Reply.{Reply};
ghost use Rattle.ldap_msg.specs.declared.operations.Response.TheVariants as response_is;
ghost use Rattle.ldap_msg.specs.operations.Operations.{response_tag};
ghost use Rattle.ldap_msg.specs.Plain.{IsPlain};
ghost use Rattle.ldap_msg.specs.Results.{entry_layout, entry_parts, names_layout, answered_layout, answered_parts};
ghost use Rattle.ldap_msg.specs.Replies.{Replies, IsShortReply, response_for, reply_layout, reply_content, reply_parts, reply_octets, reply_in, reply_at, answer_in, reply_of, notice_octets};

use crate::controls::controls;
use crate::kinds::{KindValues, LdapResult, NoMemory, Reply};
use crate::operations::{Ending, Response, ResultCode};
use crate::plain::{plain_code, put_plain};
use crate::reading::MAX_ID;
use crate::room::reply_room;
use ber_layout::{
    Laid, ReadFault, any, enclose, ignored, integer, is_further_but, list, optional_octets,
    put_element, put_list, put_number, put_optional, required, tagged,
};
use plain_values::{Octets, OneOrMany};
use std::alloc::Global;

impl Reply {
    /// The response that this is.
    pub fn response(&self) -> Response
        ensures { result ≡ response_for self.now }
    {
        match self {
            Reply::Entry(_, _) => Response::Entry,
            Reply::Ended(ending, _) => Response::Ended(*ending),
            Reply::Extended(_, _, _) => Response::Extended,
        }
    }
}

fn put_entry(out: &mut Vec<u8>, name: &[u8], attributes: &[KindValues]) -> Result<(), NoMemory>
    ensures ok { OnOk result (out.new.items ≡ out.old.items ++ writes entry_layout (entry_parts name.now attributes.now)) }
    ensures kept { Extends out.old.items out.new.items }
{
    put_element(out, 0x04, name)?;
    put_list::<KindValues>(out, 0x30, 0x30, attributes)
}

fn put_names(
    out: &mut Vec<u8>,
    name: &Option<Octets>,
    value: &Option<Octets>,
) -> Result<(), NoMemory>
    ensures ok { OnOk result (out.new.items ≡ out.old.items ++ writes names_layout (name.now, (value.now, tt))) }
    ensures kept { Extends out.old.items out.new.items }
{
    put_optional(out, 0x8a, name)?;
    put_optional(out, 0x8b, value)
}

fn put_answered(
    out: &mut Vec<u8>,
    ended: &LdapResult,
    name: &Option<Octets>,
    value: &Option<Octets>,
) -> Result<(), NoMemory>
    ensures ok { OnOk result (out.new.items ≡ out.old.items ++ writes answered_layout (answered_parts ended.now name.now value.now)) }
    ensures kept { Extends out.old.items out.new.items }
{
    put_number(out, 0x0a, u32::from(ended.code.number()))?;
    put_element(out, 0x04, ended.matched.as_slice())?;
    put_element(out, 0x04, &[])?;
    put_names(out, name, value)
}

/// Appends the content of a reply.
fn put_content(out: &mut Vec<u8>, reply: &Reply) -> Result<(), NoMemory>
    ensures ok { OnOk result (out.new.items ≡ out.old.items ++ reply_content reply.now) }
    ensures kept { Extends out.old.items out.new.items }
{
    match reply {
        Reply::Entry(name, attributes) => put_entry(out, name.as_slice(), attributes.as_slice()),
        Reply::Ended(_, ended) => ended.put(out),
        Reply::Extended(ended, name, value) => put_answered(out, ended, name, value),
    }
}

fn put_response(out: &mut Vec<u8>, reply: &Reply) -> Result<(), NoMemory>
    ensures ok { OnOk result (out.new.items ≡ out.old.items ++ element_octets (response_tag (response_for reply.now)) (reply_content reply.now)) }
    ensures kept { Extends out.old.items out.new.items }
{
    let start = out.len();
    put_content(out, reply)?;
    enclose(out, reply.response().tag(), start)
}

fn put_components(out: &mut Vec<u8>, id: u32, reply: &Reply) -> Result<(), NoMemory>
    ensures ok { OnOk result (out.new.items ≡ out.old.items ++ writes reply_layout (reply_parts id reply.now)) }
    ensures kept { Extends out.old.items out.new.items }
{
    put_number(out, 0x02, id)?;
    put_response(out, reply)
}

#[tactic(auto, unfolding(crate::specs::Replies::reply_octets))]
fn put_message(out: &mut Vec<u8>, id: u32, reply: &Reply) -> Result<(), NoMemory>
    ensures ok { OnOk result (out.new.items ≡ out.old.items ++ reply_octets id reply.now) }
    ensures short { OnOk result (IsShortReply id reply.now) }
    ensures kept { Extends out.old.items out.new.items }
{
    let start = out.len();
    put_components(out, id, reply)?;
    enclose(out, 0x30, start)
}

/// Appends a reply's message, for which room is made at once.
fn put_in_room(out: &mut Vec<u8>, id: u32, reply: &Reply) -> Result<(), NoMemory>
    ensures ok { OnOk result (out.new.items ≡ out.old.items ++ reply_octets id reply.now) }
    ensures short { OnOk result (IsShortReply id reply.now) }
    ensures err { OnErr result (out.new.items ≡ out.old.items) }
{
    out.reserve(reply_room(reply))?;
    let before = out.len();
    match put_message(out, id, reply) {
        Ok(()) => Ok(()),
        Err(fault) => {
            out.truncate(before);
            Err(fault)
        }
    }
}

/// Appends a reply's message: the one written spelling (RFC 4511 section 4). After the error, want
/// of memory, or a content of 2^32 octets or more, `out` is as before. A plain reply to a messageID
/// of at most 2147483647 takes no memory where `out` has room for 17 octets more.
pub fn put_reply(out: &mut Vec<u8>, id: u32, reply: &Reply) -> Result<(), NoMemory>
    ensures ok { OnOk result (out.new.items ≡ out.old.items ++ reply_octets id reply.now) }
    // So it is read again, where the messageID is at most 2147483647.
    ensures short { OnOk result (IsShortReply id reply.now) }
    ensures err { OnErr result (out.new.items ≡ out.old.items) }
    ensures succeeds { IsPlain reply.now → id ≤ 2147483647 → vec_len out.old + 17 ≤ vec_capacity out.old → IsOk result }
{
    if id <= MAX_ID {
        if let Some(code) = plain_code(reply) {
            return put_plain(out, id, reply, code);
        }
    }
    put_in_room(out, id, reply)
}

/// The notice of disconnection, written.
const NOTICE: [u8; 38] = [
    0x30, 0x24, 0x02, 0x01, 0x00, 0x78, 0x1f, 0x0a, 0x01, 0x02, 0x04, 0x00, 0x04, 0x00, 0x8a, 0x16,
    0x31, 0x2e, 0x33, 0x2e, 0x36, 0x2e, 0x31, 0x2e, 0x34, 0x2e, 0x31, 0x2e, 0x31, 0x34, 0x36, 0x36,
    0x2e, 0x32, 0x30, 0x30, 0x33, 0x36,
];

/// Appends the notice of disconnection, with the code protocolError (RFC 4511 4.4.1). After the
/// error, want of memory, `out` is as before; it doesn't come where `out` has room for the notice's
/// 38 octets.
pub fn put_notice(out: &mut Vec<u8>) -> Result<(), NoMemory>
    ensures ok { OnOk result (out.new.items ≡ out.old.items ++ notice_octets) }
    ensures err { OnErr result (out.new.items ≡ out.old.items) }
    ensures succeeds { vec_len out.old + 38 ≤ vec_capacity out.old → IsOk result }
{
    out.extend_from_slice(&NOTICE)
}

#[tactic(auto, unfolding(ber_layout::specs::Layouts::reads_into))]
fn entry(alloc: Global, content: &[u8]) -> Result<(Octets, OneOrMany<KindValues>), ReadFault>
    ensures { Gives (λ found. entry_parts found.0 found.1) result (reads entry_layout content.now) }
{
    let name = required::<Octets>(alloc, 0x04, content)?;
    let attributes = list::<KindValues>(alloc, 0x30, 0x30, name.rest)?;
    if !attributes.rest.is_empty() {
        return Err(ReadFault::BadMessage);
    }
    Ok((name.value, attributes.value))
}

fn entry_reply(alloc: Global, content: &[u8]) -> Result<Reply, ReadFault>
    ensures { Gives (λ reply. reply) result (reply_in response_is.Entry content.now) }
{
    let (name, attributes) = entry(alloc, content)?;
    Ok(Reply::Entry(name, attributes))
}

fn ended_reply(alloc: Global, ending: Ending, content: &[u8]) -> Result<Reply, ReadFault>
    ensures { Gives (λ reply. reply) result (reply_in (response_is.Ended ending) content.now) }
{
    let ended = LdapResult::read(alloc, content)?;
    Ok(Reply::Ended(ending, ended))
}

#[tactic(auto, unfolding(ber_layout::specs::Layouts::reads_into))]
fn answered(alloc: Global, content: &[u8]) -> Result<Reply, ReadFault>
    ensures { Gives (λ reply. reply) result (reply_in response_is.Extended content.now) }
{
    let code = integer(0x0a, 0, 127, content)?;
    let matched = required::<Octets>(alloc, 0x04, code.rest)?;
    let rest = ignored(0x04, matched.rest)?;
    let name = optional_octets(alloc, 0x8a, rest)?;
    let value = optional_octets(alloc, 0x8b, name.rest)?;
    if !value.rest.is_empty() {
        return Err(ReadFault::BadMessage);
    }
    let ended = LdapResult {
        code: ResultCode::numbered(code.value as u8),
        matched: matched.value,
    };
    Ok(Reply::Extended(ended, name.value, value.value))
}

/// The reply of a response that a content says.
fn reply(alloc: Global, response: Response, content: &[u8]) -> Result<Reply, ReadFault>
    ensures { Gives (λ reply. reply) result (reply_in response content.now) }
{
    match response {
        Response::Entry => entry_reply(alloc, content),
        Response::Ended(ending) => ended_reply(alloc, ending, content),
        Response::Extended => answered(alloc, content),
    }
}

fn response_at(alloc: Global, tag: u8, content: &[u8]) -> Result<Reply, ReadFault>
    ensures { Gives (λ reply. reply) result (reply_at (tag, content.now)) }
{
    match Response::of(tag) {
        None => Err(ReadFault::BadMessage),
        Some(response) => reply(alloc, response, content),
    }
}

#[tactic(auto, unfolding(ber_layout::specs::Layouts::reads_into, crate::specs::Replies::answer_in))]
fn components(alloc: Global, content: &[u8]) -> Result<(u32, Reply), ReadFault>
    ensures { Gives (λ found. (found.0, found.1)) result (answer_in content.now) }
{
    let id = integer(0x02, 0, MAX_ID, content)?;
    let response = any(id.rest)?;
    let controls = controls(alloc, response.rest)?;
    if !is_further_but(0xa0, controls.rest) {
        return Err(ReadFault::BadMessage);
    }
    let reply = response_at(alloc, response.tag, response.content)?;
    Ok((id.value, reply))
}

#[tactic(auto, unfolding(crate::specs::Replies::reply_of, ber_layout::specs::components::Components::required_of))]
fn message(alloc: Global, bytes: &[u8]) -> Result<(u32, Reply), ReadFault>
    ensures { Gives (λ found. (found.0, found.1)) result (reply_of bytes.now) }
{
    let outer = tagged(0x30, bytes)?;
    let found = components(alloc, outer.content)?;
    if !outer.rest.is_empty() {
        return Err(ReadFault::BadMessage);
    }
    Ok(found)
}

/// The messageID and the reply that the octets say: one element, of any length. Controls and the
/// diagnostic message aren't kept. `BadMessage` comes exactly where the octets aren't a reply's
/// (RFC 4511 section 4), and `NoMemory` may come in place of any answer.
pub fn read_reply(alloc: Global, bytes: &[u8]) -> Result<(u32, Reply), ReadFault>
    // What is read is what the octets say.
    ensures found { IfOk result (λ found. Replies found.0 found.1 bytes.now) }
    // What they say is read, unless memory runs out.
    ensures only { (id : ℕ) (other : Reply) → Replies id other bytes.now → MatchResult result (λ found. (found.0 ≡ id) × (found.1 ≡ other)) (λ fault. fault ≡ no_memory) }
    ensures exact { Gives (λ found. (found.0, found.1)) result (reply_of bytes.now) }
{
    message(alloc, bytes)
}
