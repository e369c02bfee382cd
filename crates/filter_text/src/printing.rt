//! Filters printed.

ghost use Rattle.std.specs.Prelude.{◌≡◌, ◌<◌, ◌++◌, [], ◌∷◌, OnOk, OnErr};
ghost use Rattle.ldap_filter.specs.filter.Nodes.{filter_of_node};
ghost use Rattle.filter_text.specs.Printing.{hex_digit, is_shown, print_octet, print_value, print_part, print_any, print_item, print_filter as print_of};

use ldap_filter::{Filter, Node};
use plain_values::{Octets, OneOrMany};
use std::alloc::AllocError;

// A hexadecimal digit, in lower case.
fn hex_digit(number: u8) -> u8
    requires digit { number < 16 }
    ensures exact { result ≡ hex_digit number }
{
    if number < 10 {
        b'0' + number
    } else {
        b'a' - 10 + number
    }
}

// Whether the octet is printed as itself.
fn is_shown(octet: u8) -> bool
    ensures exact { result ≡ is_shown octet }
{
    (b' '..=b'~').contains(&octet)
        && !(octet == b'(' || octet == b')' || octet == b'*' || octet == b'\\')
}

fn put_octet(out: &mut Vec<u8>, octet: u8) -> Result<(), AllocError>
    ensures ok { OnOk result (out.new.items ≡ out.old.items ++ print_octet octet) }
{
    if is_shown(octet) {
        out.push(octet)?;
        return Ok(());
    }
    let (high, low) = (hex_digit(octet / 16), hex_digit(octet % 16));
    out.extend_from_slice(&[b'\\', high, low])
}

#[tactic(auto, unfolding(crate::specs::Printing::print_value))]
fn put_value(out: &mut Vec<u8>, value: &[u8]) -> Result<(), AllocError>
    ensures ok { OnOk result (out.new.items ≡ out.old.items ++ print_value value.now) }
{
    for octet in value {
        put_octet(out, *octet)?;
    }
    Ok(())
}

fn put_part(out: &mut Vec<u8>, part: &Option<Octets>) -> Result<(), AllocError>
    ensures ok { OnOk result (out.new.items ≡ out.old.items ++ print_part part.now) }
{
    match part {
        Some(octets) => put_value(out, octets.as_slice()),
        None => Ok(()),
    }
}

// A part between others, with the asterisk behind it.
fn put_starred(out: &mut Vec<u8>, part: &[u8]) -> Result<(), AllocError>
    ensures ok { OnOk result (out.new.items ≡ out.old.items ++ (print_value part.now ++ 42 ∷ [])) }
{
    put_value(out, part)?;
    out.push(b'*')?;
    Ok(())
}

fn put_any(out: &mut Vec<u8>, parts: &[Octets]) -> Result<(), AllocError>
    ensures ok { OnOk result (out.new.items ≡ out.old.items ++ print_any parts.now) }
{
    for part in parts {
        put_starred(out, part.as_slice())?;
    }
    Ok(())
}

// What stands behind the equals sign of substrings.
fn put_parts(
    out: &mut Vec<u8>,
    initial: &Option<Octets>,
    any: &OneOrMany<Octets>,
    last: &Option<Octets>,
) -> Result<(), AllocError>
    ensures ok { OnOk result (out.new.items ≡ out.old.items
        ++ (print_part initial.now ++ 42 ∷ (print_any any.now ++ print_part last.now))) }
{
    put_part(out, initial)?;
    out.push(b'*')?;
    put_any(out, any.as_slice())?;
    put_part(out, last)
}

fn put_begin(out: &mut Vec<u8>, kind: &[u8], operator: &[u8]) -> Result<(), AllocError>
    ensures ok { OnOk result (out.new.items ≡ out.old.items ++ 40 ∷ (kind.now ++ operator.now)) }
{
    out.push(b'(')?;
    out.extend_from_slice(kind)?;
    out.extend_from_slice(operator)
}

// An item with a value.
fn put_item(out: &mut Vec<u8>, kind: &[u8], operator: &[u8], value: &[u8]) -> Result<(), AllocError>
    ensures ok { OnOk result (out.new.items
        ≡ out.old.items ++ print_item kind.now operator.now (print_value value.now)) }
{
    put_begin(out, kind, operator)?;
    put_value(out, value)?;
    out.push(b')')?;
    Ok(())
}

// An item of substrings.
fn put_substrings(
    out: &mut Vec<u8>,
    kind: &[u8],
    initial: &Option<Octets>,
    any: &OneOrMany<Octets>,
    last: &Option<Octets>,
) -> Result<(), AllocError>
    ensures ok { OnOk result (out.new.items ≡ out.old.items ++ print_item kind.now (61 ∷ [])
        (print_part initial.now ++ 42 ∷ (print_any any.now ++ print_part last.now))) }
{
    put_begin(out, kind, b"=")?;
    put_parts(out, initial, any, last)?;
    out.push(b')')?;
    Ok(())
}

fn put_present(out: &mut Vec<u8>, kind: &[u8]) -> Result<(), AllocError>
    ensures ok { OnOk result (out.new.items ≡ out.old.items ++ print_item kind.now (61 ∷ []) (42 ∷ [])) }
{
    put_begin(out, kind, b"=")?;
    out.extend_from_slice(b"*)")
}

#[cycle(put_filter)]
fn put_filter(out: &mut Vec<u8>, filter: &Filter) -> Result<(), AllocError>
    ensures ok { OnOk result (out.new.items ≡ out.old.items ++ print_of filter.now) }
{
    put_node(out, &filter.node)
}

#[cycle(put_filter)]
fn put_node(out: &mut Vec<u8>, node: &Node) -> Result<(), AllocError>
    ensures ok { OnOk result (out.new.items ≡ out.old.items ++ print_of (filter_of_node node.now)) }
{
    match node {
        Node::And(members) => {
            out.extend_from_slice(b"(&")?;
            for conjunct in members {
                put_filter(out, conjunct)?;
            }
            out.push(b')')?;
            Ok(())
        }
        Node::Or(members) => {
            out.extend_from_slice(b"(|")?;
            for disjunct in members {
                put_filter(out, disjunct)?;
            }
            out.push(b')')?;
            Ok(())
        }
        Node::Not(member) => {
            out.extend_from_slice(b"(!")?;
            put_filter(out, member)?;
            out.push(b')')?;
            Ok(())
        }
        Node::Equal(kind, value) => put_item(out, kind.as_slice(), b"=", value.as_slice()),
        Node::AtLeast(kind, value) => put_item(out, kind.as_slice(), b">=", value.as_slice()),
        Node::AtMost(kind, value) => put_item(out, kind.as_slice(), b"<=", value.as_slice()),
        Node::Approx(kind, value) => put_item(out, kind.as_slice(), b"~=", value.as_slice()),
        Node::Parts(kind, initial, any, last) => {
            put_substrings(out, kind.as_slice(), initial, any, last)
        }
        Node::Present(kind) => put_present(out, kind.as_slice()),
        Node::Extensible(_) => Ok(()),
    }
}

/// Appends the string form of a filter (RFC 4515): without spaces, each octet of a value that is no visible octet of ASCII
/// or is one of `(`, `)`, `*` and `\` as `\` and two hexadecimal digits in lower case. An extensible match has no string
/// form here, and nothing is appended for it.
///
/// The error comes where memory is refused; `out` is then as before.
pub fn print_filter(filter: &Filter, out: &mut Vec<u8>) -> Result<(), AllocError>
    ensures ok { OnOk result (out.new.items ≡ out.old.items ++ print_of filter.now) }
    ensures err { OnErr result (out.new.items ≡ out.old.items) }
{
    let mut text = Vec::new(*out.allocator());
    put_filter(&mut text, filter)?;
    out.extend_from_slice(&text)
}
