//! Names from their texts.

ghost use Rattle.std.specs.Prelude.{◌≡◌, ◌≤◌, ◌<◌, ◌+◌, ◌^◌, ◌==◌, nat_lt, [], length, map, reverse, Ok, Err, IfOk, IfErr, IfSome, vec_len, vec_capacity};
ghost use Rattle.dn_names.specs.Limits.{most_rdns};
ghost use Rattle.dn_names.specs.name.Names.{rdns_of};
ghost use Rattle.dn_names.specs.name.GoodNames.{IsGoodName};
ghost use Rattle.dn_names.specs.Reading.{rdn_of, parts_of, written_of};
ghost use Rattle.dn_names.specs.Resolving.{rdn_from, rdns_from, from_root};
ghost use Rattle.dn_names.specs.Resolving.{resolve, resolve_rdn};
ghost use Rattle.dn_names.specs.parsing.NameCause.{NameCause, cause_of};
ghost use Rattle.plain_values.specs.Answers.{Answers};
ghost use Rattle.dn_names.specs.parsing.NameText.{NameText, RdnText, read_name, read_rdn};

use crate::error::BadName;
use crate::limits::MOST_RDNS;
use crate::name::{Dn, Pair, Rdn};
use crate::parts::{count_marks, cut, is_blank};
use crate::resolve::{add, read_one};
use crate::scan::fault_place;
use plain_values::OneOrMany;
use std::alloc::{AllocError, Global};
use std::rc::Rc;

/// Reads a name (RFC 4514). A text of nothing but spaces is the name of no RDN.
///
/// The errors come in this order: `Text` for octets that are in no text of the outer grammar, `TooMany` for more
/// than 64 RDNs, `Part` for the first pair, in the text's order, that is not good. `NoMemory` may come in place of any
/// answer.
pub fn parse(alloc: Global, octets: &[u8]) -> Result<Dn, BadName>
    ensures ok { IfOk result (λ name. NameText name octets.now) }
    ensures cause { IfErr result (λ error. IfSome (cause_of error) (NameCause (λ count. count ≤ most_rdns) octets.now)) }
    ensures exact { Answers (λ name. name) cause_of result (read_name octets.now) }
{
    parse_by(alloc, octets)
}

/// Reads an RDN as a name of one RDN. `TooMany` comes for a text of none or of more than one; the other errors
/// are those of `parse`, and come as they do there.
pub fn parse_rdn(alloc: Global, octets: &[u8]) -> Result<Dn, BadName>
    ensures ok { IfOk result (λ name. RdnText name octets.now) }
    ensures cause { IfErr result (λ error. IfSome (cause_of error) (NameCause (λ count. count ≡ 1) octets.now)) }
    ensures exact { Answers (λ name. name) cause_of result (read_rdn octets.now) }
{
    parse_rdn_by(alloc, octets)
}

// As `parse`, by the function of the text.
#[tactic(auto, unfolding(crate::specs::parsing::NameText::read_name, crate::specs::Resolving::resolve))]
fn parse_by(alloc: Global, octets: &[u8]) -> Result<Dn, BadName>
    ensures exact { Answers (λ name. name) cause_of result (read_name octets.now) }
{
    match fault_place(octets) {
        Some(place) => Err(BadName::Text { place }),
        None if has_too_many(octets) => Err(BadName::TooMany),
        None => read_all(alloc, octets),
    }
}

// As `parse_rdn`, by the function of the text.
#[tactic(auto, unfolding(crate::specs::parsing::NameText::read_rdn, crate::specs::Resolving::resolve_rdn))]
fn parse_rdn_by(alloc: Global, octets: &[u8]) -> Result<Dn, BadName>
    ensures exact { Answers (λ name. name) cause_of result (read_rdn octets.now) }
{
    match fault_place(octets) {
        Some(place) => Err(BadName::Text { place }),
        None if has_one(octets) => read_all(alloc, octets),
        None => Err(BadName::TooMany),
    }
}

// The pairs of an RDN's text; the first of them has the number `first`.
fn read_pairs(alloc: Global, text: &[u8], first: usize) -> Result<Vec<Pair>, BadName>
    requires { first + length text.now < 2 ^ 64 }
    ensures exact { Answers (λ pairs. pairs.items) cause_of result (rdn_from first [] (rdn_of text.now)) }
    ensures len { IfOk result (λ pairs. vec_len pairs ≡ length (rdn_of text.now)) }
{
    let mut pairs = Vec::with_capacity(alloc, 2)?;
    let mut index = first;
    let mut rest = text;
    'pairs: loop {
        let (part, after) = cut(rest, b'+');
        match add(alloc, &mut pairs, part, index) {
            Ok(()) => {}
            Err(error) => return Err(error),
        }
        match after {
            Some(others) => {
                index += 1;
                rest = others;
            }
            None => return Ok(pairs),
        }
    }
}

// The same as an RDN keeps them.
fn read_many(alloc: Global, text: &[u8], first: usize) -> Result<OneOrMany<Pair>, BadName>
    requires { first + length text.now < 2 ^ 64 }
    ensures exact { Answers (λ pairs. pairs) cause_of result (rdn_from first [] (rdn_of text.now)) }
    ensures len { IfOk result (λ pairs. length pairs ≡ length (rdn_of text.now)) }
{
    match read_pairs(alloc, text, first) {
        Ok(pairs) => Ok(OneOrMany::from_vec(pairs)),
        Err(error) => Err(error),
    }
}

// The same; an RDN of one pair, which is the usual one, takes no memory of its own.
fn read_rdn(alloc: Global, text: &[u8], first: usize) -> Result<OneOrMany<Pair>, BadName>
    requires { first + length text.now < 2 ^ 64 }
    ensures exact { Answers (λ pairs. pairs) cause_of result (rdn_from first [] (rdn_of text.now)) }
    ensures len { IfOk result (λ pairs. length pairs ≡ length (rdn_of text.now)) }
{
    let (part, after) = cut(text, b'+');
    match after {
        Some(_) => read_many(alloc, text, first),
        None => read_one(alloc, part, first),
    }
}

// A vector with room for the RDNs of a name's text.
fn make_room(alloc: Global, text: &[u8]) -> Result<Vec<Rdn>, AllocError>
    ensures empty { IfOk result (λ rdns. rdns.items ≡ []) }
    ensures fits { IfOk result (λ rdns. vec_capacity rdns ≡ length (parts_of 44 text.now)) }
{
    match count_marks(text, b',').checked_add(1) {
        Some(count) => Vec::with_capacity(alloc, count),
        None => Err(AllocError),
    }
}

// The RDNs of a name's text, in the text's order.
fn read_rdns(alloc: Global, text: &[u8]) -> Result<Vec<Rdn>, BadName>
    ensures exact { Answers (λ rdns. rdns_of rdns.items) cause_of result
        (rdns_from 0 (map rdn_of (parts_of 44 text.now))) }
{
    let mut rdns = make_room(alloc, text)?;
    let mut index = 0;
    let mut rest = text;
    'rdns: loop {
        let (part, after) = cut(rest, b',');
        let pairs = match read_rdn(alloc, part, index) {
            Ok(pairs) => pairs,
            Err(error) => return Err(error),
        };
        let count = pairs.as_slice().len();
        rdns.push(Rc::new(alloc, pairs)?)?;
        match after {
            Some(others) => {
                index += count;
                rest = others;
            }
            None => return Ok(rdns),
        }
    }
}

// The name of a text of the outer grammar.
#[tactic(auto, unfolding(crate::specs::Reading::written_of))]
fn read_all(alloc: Global, text: &[u8]) -> Result<Dn, BadName>
    requires { length (written_of text.now) ≤ most_rdns }
    ensures exact { Answers (λ name. name) cause_of result (from_root (rdns_from 0 (written_of text.now))) }
{
    if is_blank(text) {
        return Ok(Dn::empty(alloc));
    }
    match read_rdns(alloc, text) {
        Ok(rdns) => Ok(from_last(alloc, rdns)?),
        Err(error) => Err(error),
    }
}

// The name of RDNs in the text's order.
fn from_last(alloc: Global, rdns: Vec<Rdn>) -> Result<Dn, AllocError>
    requires { IsGoodName (reverse (rdns_of rdns.items)) }
    ensures ok { IfOk result (λ name. name ≡ reverse (rdns_of rdns.items)) }
{
    let mut rdns = rdns;
    rdns.reverse();
    Dn::from_rdns(alloc, rdns)
}

// Whether a text of the outer grammar has more than 64 RDNs.
#[tactic(auto, using(crate::proofs::resolve::ResolveLemmas::few_rdns), unfolding(crate::specs::Reading::written_of))]
fn has_too_many(text: &[u8]) -> bool
    ensures exact { result ≡ nat_lt most_rdns (length (written_of text.now)) }
{
    // nor is there room for so many in a short text
    if text.len() < MOST_RDNS {
        return false;
    }
    !is_blank(text) && count_marks(text, b',') >= MOST_RDNS
}

// Whether a text of the outer grammar has one RDN.
#[tactic(auto, unfolding(crate::specs::Reading::written_of))]
fn has_one(text: &[u8]) -> bool
    ensures exact { result ≡ (length (written_of text.now) == 1) }
{
    !is_blank(text) && count_marks(text, b',') == 0
}
