//! Whether octets are the key of a name, without memory.

ghost use Rattle.std.specs.Prelude.{◌≡◌, ◌↔◌, ◌==◌, ◌++◌, List, [], ◌∷◌, IsTrue, map, reverse, if◌then◌else◌};
ghost use Rattle.std.specs.Option.{option_map};
ghost use Rattle.dn_names.specs.name.Names.{rdns_of};
ghost use Rattle.dn_names.specs.Printing.{print_octet, print_value, print_pair, print_rdn, shown_of, print_by, name_key};
ghost use Rattle.dn_names.specs.declared.printing.Shown.TheVariants.{Key};
ghost use Rattle.dn_names.specs.KeyReading.{strip};

use crate::name::{Dn, Pair, Rdn};
use crate::printing::{is_escaped, type_name};

/// Whether the octets are the key of this name, as a value of Name syntax: its printed form, with keys where the values
/// stand.
pub fn is_key_of(name: &Dn, key: &[u8]) -> bool
    ensures exact { IsTrue result ↔ (key.now ≡ name_key name.now) }
{
    match after_rdns(key, &name.rdns) {
        Some(rest) => rest.is_empty(),
        None => false,
    }
}

// The octets after a front.
fn after<'a>(octets: &'a [u8], front: &[u8]) -> Option<&'a [u8]>
    ensures exact { option_map (λ rest. rest.now) result ≡ strip front.now octets.now }
{
    let mut rest = octets;
    for octet in front {
        if rest.is_empty() {
            return None;
        }
        if rest[0] != *octet {
            return None;
        }
        rest = rest.split_at(1).1;
    }
    Some(rest)
}

// The octets after a printed octet of a value.
fn after_octet(octets: &[u8], octet: u8, first: bool, last: bool) -> Option<&[u8]>
    ensures exact { option_map (λ rest. rest.now) result ≡ strip (print_octet first last octet) octets.now }
{
    if is_escaped(octet, first, last) {
        after(octets, &[b'\\', octet])
    } else if octet == 0 {
        after(octets, b"\\00")
    } else {
        after(octets, &[octet])
    }
}

// The octets after a printed value.
#[tactic(auto, unfolding(crate::specs::Printing::print_value))]
fn after_value<'a>(octets: &'a [u8], value: &[u8]) -> Option<&'a [u8]>
    ensures exact { option_map (λ rest. rest.now) result ≡ strip (print_value value.now) octets.now }
{
    let mut rest = octets;
    for (index, octet) in value.iter().enumerate() {
        match after_octet(rest, *octet, index == 0, index == value.len() - 1) {
            Some(others) => rest = others,
            None => return None,
        }
    }
    Some(rest)
}

// The octets after `=` and a printed key.
fn after_equals<'a>(octets: &'a [u8], key: &[u8]) -> Option<&'a [u8]>
    ensures exact { option_map (λ rest. rest.now) result ≡ strip (61 ∷ print_value key.now) octets.now }
{
    if octets.is_empty() {
        return None;
    }
    if octets[0] != b'=' {
        return None;
    }
    after_value(octets.split_at(1).1, key)
}

// The octets after a printed pair with its key.
#[tactic(auto, using(crate::proofs::is_key::StripLemmas::strip_some, crate::proofs::is_key::StripLemmas::strip_none))]
fn after_pair<'a>(octets: &'a [u8], pair: &Pair) -> Option<&'a [u8]>
    ensures exact { option_map (λ rest. rest.now) result ≡ strip (print_pair (shown_of Key) pair.now) octets.now }
{
    match after(octets, type_name(pair.kind()).as_bytes()) {
        Some(value) => after_equals(value, pair.value().key()),
        None => None,
    }
}

// The octets after a mark, which the first item has not.
fn after_mark(octets: &[u8], mark: u8, first: bool) -> Option<&[u8]>
    ensures exact { option_map (λ rest. rest.now) result ≡ strip (if first then [] else mark ∷ []) octets.now }
{
    if first {
        Some(octets)
    } else {
        after(octets, &[mark])
    }
}

// The octets after a mark and a pair.
#[tactic(auto, using(crate::proofs::is_key::StripLemmas::strip_some, crate::proofs::is_key::StripLemmas::strip_none))]
fn after_marked_pair<'a>(octets: &'a [u8], pair: &Pair, first: bool) -> Option<&'a [u8]>
    ensures exact { option_map (λ rest. rest.now) result
        ≡ strip ((if first then [] else 43 ∷ []) ++ print_pair (shown_of Key) pair.now) octets.now }
{
    match after_mark(octets, b'+', first) {
        Some(rest) => after_pair(rest, pair),
        None => None,
    }
}

// The octets after a printed RDN.
fn after_rdn<'a>(octets: &'a [u8], rdn: &[Pair]) -> Option<&'a [u8]>
    ensures exact { option_map (λ rest. rest.now) result ≡ strip (print_rdn (shown_of Key) rdn.now) octets.now }
{
    let mut rest = octets;
    for (index, pair) in rdn.iter().enumerate() {
        match after_marked_pair(rest, pair, index == 0) {
            Some(others) => rest = others,
            None => return None,
        }
    }
    Some(rest)
}

// The octets after a mark and an RDN.
#[tactic(auto, using(crate::proofs::is_key::StripLemmas::strip_some, crate::proofs::is_key::StripLemmas::strip_none))]
fn after_marked_rdn<'a>(octets: &'a [u8], rdn: &[Pair], first: bool) -> Option<&'a [u8]>
    ensures exact { option_map (λ rest. rest.now) result
        ≡ strip ((if first then [] else 44 ∷ []) ++ print_rdn (shown_of Key) rdn.now) octets.now }
{
    match after_mark(octets, b',', first) {
        Some(rest) => after_rdn(rest, rdn),
        None => None,
    }
}

// The octets after a printed name.
#[tactic(auto, unfolding(crate::specs::Printing::print_by))]
fn after_rdns<'a>(octets: &'a [u8], rdns: &[Rdn]) -> Option<&'a [u8]>
    ensures exact { option_map (λ rest. rest.now) result ≡ strip (print_by (shown_of Key) (rdns_of rdns.now)) octets.now }
{
    let mut rest = octets;
    for index in 0..rdns.len() {
        match after_marked_rdn(rest, rdns[rdns.len() - 1 - index].as_slice(), index == 0) {
            Some(others) => rest = others,
            None => return None,
        }
    }
    Some(rest)
}
