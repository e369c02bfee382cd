//! The path keys of names: octets that compare as names do.

ghost use Rattle.std.specs.Prelude.{◌≡◌, ◌≤◌, ◌++◌, ◌∷◌, List, ℕ, IfOk, OnOk, length, take, drop};
ghost use Rattle.dn_names.specs.name.Names.{TypeAndValue, RdnSequence, rdns_of};
ghost use Rattle.dn_names.specs.path.PathKeys.{escape_octet, escape, pair_part, rdn_part, path_key};
ghost use Rattle.dn_names.specs.path.PathReading.{after_key};

use crate::name::{Pair, Rdn};
use crate::short::front;
use plain_values::position_of;
use std::alloc::{AllocError, Global};

// The octet behind the last pair of an RDN, and that before a pair.
const RDN_END: u8 = 1;

const PAIR: u8 = 2;

/// The path key of RDNs.
#[tactic(auto, unfolding(crate::specs::path::PathKeys::path_key))]
pub(crate) fn make_path(alloc: Global, rdns: &[Rdn]) -> Result<Vec<u8>, AllocError>
    ensures ok { IfOk result (λ path. path.items ≡ path_key (rdns_of rdns.now)) }
{
    let mut path = Vec::with_capacity(alloc, room_for(rdns))?;
    for rdn in rdns {
        put_rdn(&mut path, rdn.as_slice())?;
    }
    Ok(path)
}

// The octets that the path key takes where the keys have no octet 00.
fn room_for(rdns: &[Rdn]) -> usize {
    let mut room: usize = 0;
    for rdn in rdns {
        room = room.saturating_add(1);
        for pair in rdn.as_slice() {
            room = room
                .saturating_add(pair.value.key().len())
                .saturating_add(4);
        }
    }
    room
}

// Puts an RDN's part at the end.
fn put_rdn(out: &mut Vec<u8>, rdn: &[Pair]) -> Result<(), AllocError>
    ensures ok { OnOk result (out.new.items ≡ out.old.items ++ rdn_part rdn.now) }
{
    for pair in rdn {
        put_pair(out, pair)?;
    }
    out.extend_from_slice(&[RDN_END])
}

// Puts a pair's part at the end.
fn put_pair(out: &mut Vec<u8>, pair: &Pair) -> Result<(), AllocError>
    ensures ok { OnOk result (out.new.items ≡ out.old.items ++ pair_part pair.now) }
{
    out.extend_from_slice(&[PAIR, pair.kind.0])?;
    put_escaped(out, pair.value.key())
}

// Puts the octets of a key with their end at the end. Nearly no key has an octet 00.
fn put_escaped(out: &mut Vec<u8>, octets: &[u8]) -> Result<(), AllocError>
    ensures ok { OnOk result (out.new.items ≡ out.old.items ++ escape octets.now) }
{
    if position_of(octets, 0) != octets.len() {
        return put_each(out, octets);
    }
    out.extend_from_slice(octets)?;
    out.extend_from_slice(&[0, 0])?;
    Ok(())
}

// The same, octet by octet.
fn put_each(out: &mut Vec<u8>, octets: &[u8]) -> Result<(), AllocError>
    ensures ok { OnOk result (out.new.items ≡ out.old.items ++ escape octets.now) }
{
    for octet in octets {
        put_octet(out, *octet)?;
    }
    out.extend_from_slice(&[0, 0])
}

// Puts an octet of a key at the end.
fn put_octet(out: &mut Vec<u8>, octet: u8) -> Result<(), AllocError>
    ensures ok { OnOk result (out.new.items ≡ out.old.items ++ escape_octet octet) }
{
    if octet == 0 {
        out.extend_from_slice(&[0, 255])
    } else {
        out.extend_from_slice(&[octet])
    }
}

/// The front of a name's path key that is the path key of its first RDNs, so many of them.
pub(crate) fn path_front(path: &[u8], count: usize) -> &[u8]
    ensures exact { (name : RdnSequence) → path.now ≡ path_key name → count ≤ length name
        → result.now ≡ path_key (take count name) }
{
    front(
        path,
        path.len().saturating_sub(after_rdns(path, count).len()),
    )
}

// The path key of what stands behind the first RDNs, so many of them.
#[tactic(auto, unfolding(crate::specs::path::PathKeys::path_key))]
fn after_rdns(path: &[u8], count: usize) -> &[u8]
    ensures exact { (name : RdnSequence) → path.now ≡ path_key name → count ≤ length name
        → result.now ≡ path_key (drop count name) }
{
    let mut rest = path;
    for _taken in 0..count {
        rest = after_rdn(rest);
    }
    rest
}

// What stands behind the part of an RDN.
fn after_rdn(octets: &[u8]) -> &[u8]
    ensures exact { (rdn : List TypeAndValue) (more : List ℕ)
        → octets.now ≡ rdn_part rdn ++ more → result.now ≡ more }
{
    let mut rest = octets;
    while let Some((mark, others)) = rest.split_first() {
        if *mark != PAIR {
            return others;
        }
        rest = after_pair(others);
    }
    rest
}

// What stands behind a type's number and a key.
fn after_pair(octets: &[u8]) -> &[u8]
    ensures exact { (kind : ℕ) (key more : List ℕ)
        → octets.now ≡ kind ∷ (escape key ++ more) → result.now ≡ more }
    ensures within { length result.now ≤ length octets.now }
{
    match octets.split_first() {
        Some((_, key)) => after_key(key),
        None => octets,
    }
}

// What stands behind the end of a key.
fn after_key(octets: &[u8]) -> &[u8]
    ensures exact { result.now ≡ after_key octets.now }
    ensures within { length result.now ≤ length octets.now }
{
    let mut rest = octets;
    let mut zero = false;
    while let Some((octet, others)) = rest.split_first() {
        if *octet == 0 && zero {
            return others;
        }
        zero = *octet == 0;
        rest = others;
    }
    rest
}
