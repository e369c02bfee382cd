//! Replies, printed.

ghost use Rattle.std.specs.Prelude.{◌≡◌, ◌++◌, [], IfSome, IfNone, OnOk, OnErr};
ghost use Rattle.std.specs.List.{flat_map};
ghost use Rattle.ldap_msg.specs.Streams.{frame_at, whole};
ghost use Rattle.ldap_msg.specs.declared.kinds.Frame.TheVariants.{Whole};
ghost use Rattle.client_core.specs.ReplyTexts.{within_line, one_line, value_lines, kind_line, attribute_lines, entry_text, heading, matched_text, value_text, result_text, reply_text, message_text, replies_text};

use crate::types::NoMemory;
use ldap_msg::plain_values::Octets;
use ldap_msg::{Frame, KindValues, LdapResult, ReadFault, Reply, ResultCode, frame, read_reply};
use ldif_records::put_line;
use std::alloc::{AllocError, Global};

// Appends an octet within a line.
fn put_within_line(out: &mut Vec<u8>, octet: u8) -> Result<(), NoMemory>
    ensures ok { OnOk result (out.new.items ≡ out.old.items ++ within_line octet) }
{
    if octet == b'\n' {
        return out.extend_from_slice(b"\\0a");
    }
    if octet == b'\r' {
        return out.extend_from_slice(b"\\0d");
    }
    out.push(octet)?;
    Ok(())
}

// Appends octets within a line.
#[tactic(auto, unfolding(crate::specs::ReplyTexts::one_line))]
fn put_one_line(out: &mut Vec<u8>, octets: &[u8]) -> Result<(), NoMemory>
    ensures ok { OnOk result (out.new.items ≡ out.old.items ++ one_line octets.now) }
{
    for octet in octets {
        put_within_line(out, *octet)?;
    }
    Ok(())
}

// Appends the lines of an attribute's values.
fn put_value_lines(out: &mut Vec<u8>, kind: &[u8], values: &[Octets]) -> Result<(), NoMemory>
    ensures ok { OnOk result (out.new.items ≡ out.old.items ++ value_lines kind.now values.now) }
{
    for value in values {
        put_line(out, kind, value.as_slice())?;
    }
    Ok(())
}

// Appends the line of a type without values.
fn put_kind(out: &mut Vec<u8>, kind: &[u8]) -> Result<(), NoMemory>
    ensures ok { OnOk result (out.new.items ≡ out.old.items ++ kind_line kind.now) }
{
    out.extend_from_slice(b"# ")?;
    put_one_line(out, kind)?;
    out.extend_from_slice(b"\n")
}

// Appends the lines of an attribute.
fn put_attribute(out: &mut Vec<u8>, attribute: &KindValues) -> Result<(), NoMemory>
    ensures ok { OnOk result (out.new.items ≡ out.old.items ++ attribute_lines attribute.now) }
{
    if attribute.values.is_empty() {
        return put_kind(out, attribute.kind.as_slice());
    }
    let mut kind = Vec::new(*out.allocator());
    put_one_line(&mut kind, attribute.kind.as_slice())?;
    put_value_lines(out, &kind, attribute.values.as_slice())
}

// Appends the lines of attributes.
fn put_attributes(out: &mut Vec<u8>, attributes: &[KindValues]) -> Result<(), NoMemory>
    ensures ok { OnOk result (out.new.items ≡ out.old.items ++ flat_map attribute_lines attributes.now) }
{
    for attribute in attributes {
        put_attribute(out, attribute)?;
    }
    Ok(())
}

// Appends an entry.
#[tactic(auto, unfolding(crate::specs::ReplyTexts::entry_text))]
fn put_entry(out: &mut Vec<u8>, name: &[u8], attributes: &[KindValues]) -> Result<(), NoMemory>
    ensures ok { OnOk result (out.new.items ≡ out.old.items ++ entry_text name.now attributes.now) }
{
    out.extend_from_slice(b"\n")?;
    put_line(out, b"dn", name)?;
    put_attributes(out, attributes)
}

// Appends a messageID and a result code.
fn put_heading(out: &mut Vec<u8>, id: u32, code: ResultCode) -> Result<(), NoMemory>
    ensures ok { OnOk result (out.new.items ≡ out.old.items ++ heading id code) }
{
    let alloc = *out.allocator();
    let number = code.number();
    let text = format!(in alloc; "# {id} {number}")?;
    out.extend_from_slice(text.as_bytes())
}

// Appends the matched name, where it isn't empty.
fn put_matched(out: &mut Vec<u8>, name: &[u8]) -> Result<(), NoMemory>
    ensures ok { OnOk result (out.new.items ≡ out.old.items ++ matched_text name.now) }
{
    if name.is_empty() {
        return Ok(());
    }
    out.extend_from_slice(b" ")?;
    put_one_line(out, name)
}

// Appends the value, where there is one.
fn put_value(out: &mut Vec<u8>, value: &Option<Octets>) -> Result<(), NoMemory>
    ensures ok { OnOk result (out.new.items ≡ out.old.items ++ value_text value.now) }
{
    match value {
        Some(value) => {
            out.extend_from_slice(b" value=")?;
            put_one_line(out, value.as_slice())
        }
        None => Ok(()),
    }
}

// Appends a result with a value, if there is one.
#[tactic(auto, unfolding(crate::specs::ReplyTexts::result_text))]
fn put_result(
    out: &mut Vec<u8>,
    id: u32,
    ended: &LdapResult,
    value: &Option<Octets>,
) -> Result<(), NoMemory>
    ensures ok { OnOk result (out.new.items ≡ out.old.items ++ result_text id ended.now value.now) }
{
    put_heading(out, id, ended.code)?;
    put_matched(out, ended.matched.as_slice())?;
    put_value(out, value)?;
    out.extend_from_slice(b"\n")
}

// Appends a reply.
#[tactic(auto, unfolding(crate::specs::ReplyTexts::reply_text))]
fn put_reply(out: &mut Vec<u8>, id: u32, reply: &Reply) -> Result<(), NoMemory>
    ensures ok { OnOk result (out.new.items ≡ out.old.items ++ reply_text id reply.now) }
{
    match reply {
        Reply::Entry(name, attributes) => put_entry(out, name.as_slice(), attributes.as_slice()),
        Reply::Ended(_, ended) => put_result(out, id, ended, &None),
        Reply::Extended(ended, _, value) => put_result(out, id, ended, value),
    }
}

/// Appends the text of a reply. An entry of a search (RFC 4511 4.5.2) is an empty line, the line `dn` with its name, and a
/// line for each value, as `put_line` of `ldif_records` writes them; a type without values is the line `# TYPE`. Any other
/// reply is `# ID CODE`, behind it a space and the matched name where that isn't empty, and behind that ` value=` and the
/// value of an extended operation where there is one. In a type, and in the matched name and the value of such a line, LF
/// and CR are written `\0a` and `\0d`.
///
/// The error comes for want of memory alone; `out` is then as before.
pub fn put_reply_text(out: &mut Vec<u8>, id: u32, reply: &Reply) -> Result<(), NoMemory>
    ensures ok { OnOk result (out.new.items ≡ out.old.items ++ reply_text id reply.now) }
    ensures err { OnErr result (out.new.items ≡ out.old.items) }
{
    let mut text = Vec::new(*out.allocator());
    put_reply(&mut text, id, reply)?;
    out.extend_from_slice(&text)
}

// Appends the reply that a message is, if it is one.
fn put_message(alloc: Global, out: &mut Vec<u8>, message: &[u8]) -> Result<(), NoMemory>
    ensures ok { OnOk result (out.new.items ≡ out.old.items ++ message_text message.now) }
{
    match read_reply(alloc, message) {
        Ok((id, reply)) => put_reply(out, id, &reply),
        Err(ReadFault::BadMessage) => Ok(()),
        Err(ReadFault::NoMemory) => Err(AllocError),
    }
}

// The length of the message at the front, if there is one.
fn first_message(stream: &[u8]) -> Option<usize>
    ensures some { IfSome result (λ length. frame_at stream.now ≡ Whole length) }
    ensures none { IfNone result (whole stream.now ≡ []) }
{
    match frame(stream) {
        Frame::Whole(length) => Some(length),
        Frame::More => None,
        Frame::Bad => None,
    }
}

// Appends the replies of a stream.
#[tactic(auto, unfolding(crate::specs::ReplyTexts::replies_text))]
fn put_replies(alloc: Global, octets: &[u8], out: &mut Vec<u8>) -> Result<(), NoMemory>
    ensures ok { OnOk result (out.new.items ≡ out.old.items ++ replies_text octets.now) }
{
    let mut rest = octets;
    while let Some(length) = first_message(rest) {
        put_message(alloc, out, rest.split_at(length).0)?;
        rest = rest.split_at(length).1;
    }
    Ok(())
}

/// Appends the texts of the replies that are the whole messages of a stream, in their order: the notice of disconnection
/// (RFC 4511 4.4.1) is one of them. A message that is no reply has no text.
///
/// The error comes for want of memory alone; `out` is then as before.
pub fn put_replies_text(alloc: Global, octets: &[u8], out: &mut Vec<u8>) -> Result<(), NoMemory>
    ensures ok { OnOk result (out.new.items ≡ out.old.items ++ replies_text octets.now) }
    ensures err { OnErr result (out.new.items ≡ out.old.items) }
{
    let mut text = Vec::new(alloc);
    put_replies(alloc, octets, &mut text)?;
    out.extend_from_slice(&text)
}
