//! Items: a type, an operator and a value.

ghost use Rattle.std.specs.Prelude.{◌≡◌, ◌≤◌, ◌<◌, ◌∷◌, [], length, IfOk, IfSome, MatchOption, IsTrue};
ghost use Rattle.filter_text.specs.Items.{any_of, final_of, matched_by, parts_of, matched_of, signed, asserted, is_operator, kind_size, item_of};

use crate::octets::{read_part, read_value};
use ldap_filter::{Filter, Node};
use plain_values::{Octets, OneOrMany, position_of};
use std::alloc::{AllocError, Global};

// The text before the first asterisk, and the text behind it.
#[tactic(auto, unfolding(crate::specs::Items::parts_of))]
fn cut(text: &[u8]) -> Option<(&[u8], &[u8])>
    ensures exact { MatchOption result (parts_of text.now ≡ text.now ∷ [])
        (λ cut. parts_of text.now ≡ cut.0.now ∷ parts_of cut.1.now) }
    ensures fits { IfSome result (λ cut. length cut.1.now < length text.now) }
{
    let place = position_of(text, b'*');
    if place < text.len() {
        let (part, rest) = text.split_at(place);
        Some((part, rest.split_at(1).1))
    } else {
        None
    }
}

/// The parts of substrings behind the first asterisk.
#[derive(Drop)]
struct Behind {
    any: Vec<Octets>,
    last: Option<Octets>,
}

// The parts of a text behind the first asterisk.
fn read_behind(alloc: Global, text: &[u8]) -> Result<Behind, AllocError>
    ensures any { IfOk result (λ behind. behind.any.items ≡ any_of (parts_of text.now)) }
    ensures last { IfOk result (λ behind. behind.last ≡ final_of (parts_of text.now)) }
{
    let mut any = Vec::new(alloc);
    let mut left = text;
    while let Some((part, rest)) = cut(left) {
        any.push(read_value(alloc, part)?)?;
        left = rest;
    }
    let last = read_part(alloc, left)?;
    Ok(Behind { any, last })
}

// A test of equality.
fn equal(alloc: Global, kind: Octets, text: &[u8]) -> Result<Filter, AllocError>
    ensures ok { IfOk result (λ filter. filter ≡ matched_by kind (text.now ∷ [])) }
{
    let value = read_value(alloc, text)?;
    Ok(Filter {
        node: Node::Equal(kind, value),
    })
}

// Whether an asterisk stands alone.
fn are_empty(first: &[u8], rest: &[u8]) -> bool
    ensures yes { IsTrue result → (first.now ≡ []) × (rest.now ≡ []) }
    ensures no { first.now ≡ [] → rest.now ≡ [] → IsTrue result }
{
    first.is_empty() && rest.is_empty()
}

// Presence, or substrings.
fn starred(alloc: Global, kind: Octets, first: &[u8], rest: &[u8]) -> Result<Filter, AllocError>
    ensures ok { IfOk result (λ filter. filter ≡ matched_by kind (first.now ∷ parts_of rest.now)) }
{
    if are_empty(first, rest) {
        return Ok(Filter {
            node: Node::Present(kind),
        });
    }
    let initial = read_part(alloc, first)?;
    let Behind { any, last } = read_behind(alloc, rest)?;
    Ok(Filter {
        node: Node::Parts(kind, initial, OneOrMany::from_vec(any), last),
    })
}

// What stands behind `=`.
fn matched(alloc: Global, kind: Octets, text: &[u8]) -> Result<Filter, AllocError>
    ensures ok { IfOk result (λ filter. filter ≡ matched_of kind text.now) }
{
    match cut(text) {
        Some((first, rest)) => starred(alloc, kind, first, rest),
        None => equal(alloc, kind, text),
    }
}

// What another operator and a value say.
fn signed(sign: u8, kind: Octets, value: Octets) -> Filter
    ensures exact { result ≡ signed sign kind value }
{
    let node = match sign {
        b'>' => Node::AtLeast(kind, value),
        b'<' => Node::AtMost(kind, value),
        _ => Node::Approx(kind, value),
    };
    Filter { node }
}

// What an operator and the text behind it say.
fn asserted(alloc: Global, kind: Octets, text: &[u8]) -> Result<Filter, AllocError>
    ensures ok { IfOk result (λ filter. filter ≡ asserted kind text.now) }
{
    match text {
        [] => Ok(Filter {
            node: Node::Present(kind),
        }),
        [b'=', rest @ ..] => matched(alloc, kind, rest),
        [sign, _, rest @ ..] => Ok(signed(*sign, kind, read_value(alloc, rest)?)),
        [sign] => Ok(signed(*sign, kind, read_value(alloc, &[])?)),
    }
}

// Whether the octet begins an operator.
fn is_operator(octet: u8) -> bool
    ensures exact { result ≡ is_operator octet }
{
    octet == b'=' || octet == b'>' || octet == b'<' || octet == b'~'
}

// How many octets stand before the operator.
fn kind_size(text: &[u8]) -> usize
    ensures exact { result ≡ kind_size text.now }
    ensures fits { result ≤ length text.now }
{
    for (place, octet) in text.iter().enumerate() {
        if is_operator(*octet) {
            return place;
        }
    }
    text.len()
}

/// The filter of an item's text.
#[tactic(auto, unfolding(crate::specs::Items::item_of))]
pub(crate) fn read_item(alloc: Global, text: &[u8]) -> Result<Filter, AllocError>
    ensures ok { IfOk result (λ filter. filter ≡ item_of text.now) }
{
    let (kind, rest) = text.split_at(kind_size(text));
    let kind = Octets::from_vec(kind.to_vec(alloc)?);
    asserted(alloc, kind, rest)
}
