//! The connection that sends requests: its events, and its script.

ghost use Rattle.std.specs.Prelude.{◌≡◌, ◌++◌, map, IfOk, OnOk, OnErr};
ghost use Rattle.std.specs.List.{flat_map};
ghost use Rattle.script_text.specs.script.Script.{OpensOnce, AreFilled};
ghost use Rattle.ldap_msg.specs.reading.Messages.{HasOwnTag};
ghost use Rattle.script_text.specs.hex.Hex.{encode_lower};
ghost use Rattle.client_core.specs.Asks.{AreSendable};
ghost use Rattle.client_core.specs.Scripts.{sent, send_line, ask_events, ask_script};

use crate::types::{Asked, NoMemory};
use ldap_msg::plain_values::Octets;
use ldap_msg::put_request;
use script_text::{ScriptEvent, hex};
use std::alloc::Global;

/// The number of the connection.
const CONNECTION: u32 = 1;

// The event of a request.
fn event_of(alloc: Global, asked: &Asked) -> Result<ScriptEvent, NoMemory>
    requires { HasOwnTag asked.now.message.request }
    ensures ok { IfOk result (λ event. event ≡ sent asked.now) }
{
    let mut octets = Vec::new(alloc);
    put_request(&mut octets, &asked.message)?;
    Ok(ScriptEvent::Bytes(CONNECTION, Octets::from_vec(octets)))
}

// Appends the events of requests.
fn push_events(
    alloc: Global,
    events: &mut Vec<ScriptEvent>,
    asked: &[Asked],
) -> Result<(), NoMemory>
    requires { AreSendable asked.now }
    ensures ok { OnOk result (events.new.items ≡ events.old.items ++ map sent asked.now) }
{
    for ask in asked {
        events.push(event_of(alloc, ask)?)?;
    }
    Ok(())
}

/// The events of the connection that sends requests: connection 1 is opened, and each message comes in an event of its own,
/// in its one written spelling. The other side ends nothing. No number is opened twice, and no octets are empty.
///
/// The error comes for want of memory alone.
#[tactic(auto, unfolding(crate::specs::Scripts::ask_events), using(crate::proofs::scripts::EventLemmas::events_once, crate::proofs::scripts::EventLemmas::events_filled))]
pub fn ask_events(alloc: Global, asked: &[Asked]) -> Result<Vec<ScriptEvent>, NoMemory>
    requires { AreSendable asked.now }
    ensures exact { IfOk result (λ events. events.items ≡ ask_events asked.now) }
    ensures once { IfOk result (λ events. OpensOnce events.items) }
    ensures filled { IfOk result (λ events. AreFilled events.items) }
{
    let mut events = Vec::new(alloc);
    events.push(ScriptEvent::Opened(CONNECTION))?;
    push_events(alloc, &mut events, asked)?;
    Ok(events)
}

// Appends the line of a request.
fn put_send_line(alloc: Global, out: &mut Vec<u8>, asked: &Asked) -> Result<(), NoMemory>
    requires { HasOwnTag asked.now.message.request }
    ensures ok { OnOk result (out.new.items ≡ out.old.items ++ send_line asked.now) }
{
    let mut octets = Vec::new(alloc);
    put_request(&mut octets, &asked.message)?;
    out.extend_from_slice(b"send 1 ")?;
    put_hexadecimal(alloc, out, &octets)?;
    out.extend_from_slice(b"\n")
}

// Appends octets in hexadecimal.
fn put_hexadecimal(alloc: Global, out: &mut Vec<u8>, octets: &[u8]) -> Result<(), NoMemory>
    ensures ok { OnOk result (out.new.items ≡ out.old.items ++ encode_lower octets.now) }
{
    let text = hex::encode(alloc, octets)?;
    out.extend_from_slice(text.as_bytes())
}

// Appends the lines of requests.
fn put_send_lines(alloc: Global, out: &mut Vec<u8>, asked: &[Asked]) -> Result<(), NoMemory>
    requires { AreSendable asked.now }
    ensures ok { OnOk result (out.new.items ≡ out.old.items ++ flat_map send_line asked.now) }
{
    for ask in asked {
        put_send_line(alloc, out, ask)?;
    }
    Ok(())
}

/// Appends the script of these events: the line `open 1`, and a line `send 1 HEX` for each message, in lower-case
/// hexadecimal. Each ends in LF.
///
/// The error comes for want of memory alone; `out` is then as before.
#[tactic(auto, unfolding(crate::specs::Scripts::ask_script))]
pub fn put_ask_script(alloc: Global, asked: &[Asked], out: &mut Vec<u8>) -> Result<(), NoMemory>
    requires { AreSendable asked.now }
    ensures ok { OnOk result (out.new.items ≡ out.old.items ++ ask_script asked.now) }
    ensures err { OnErr result (out.new.items ≡ out.old.items) }
{
    let mut text = b"open 1\n".to_vec(alloc)?;
    put_send_lines(alloc, &mut text, asked)?;
    out.extend_from_slice(&text)
}
