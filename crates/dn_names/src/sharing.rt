//! Names that keep equal RDNs in one memory.

ghost use Rattle.std.specs.Prelude.{◌≡◌, ◌↔◌, IsTrue};
ghost use Rattle.dn_names.specs.name.Names.{rdns_of};

use crate::name::{Dn, Pair, Rdn};
use crate::value::Value;

impl Dn {
    /// Keeps the RDNs that are, octet by octet, those of the other name at the same places in one memory with it.
    /// The name stays what it is.
    pub fn share_with(&mut self, other: &Dn)
        ensures exact { self.new ≡ self.old }
    {
        share_rdns(&mut self.rdns, &other.rdns)
    }
}

// Shares the equal RDNs at the same places.
fn share_rdns(rdns: &mut [Rdn], others: &[Rdn])
    ensures exact { rdns_of rdns.new ≡ rdns_of rdns.old }
{
    for index in 0..rdns.len().min(others.len()) {
        share_rdn(&mut rdns[index], &others[index]);
    }
}

// Shares an equal RDN; where the other has too many owners, the RDN stays in its own memory.
fn share_rdn(rdn: &mut Rdn, other: &Rdn)
    ensures exact { rdn.new.value ≡ rdn.old.value }
{
    if is_equal_rdn(rdn.as_slice(), other.as_slice()) {
        if let Ok(shared) = other.clone() {
            *rdn = shared;
        }
    }
}

// Whether the RDNs are equal, octet by octet.
fn is_equal_rdn(one: &[Pair], other: &[Pair]) -> bool
    ensures exact { IsTrue result ↔ (one.now ≡ other.now) }
{
    if one.len() != other.len() {
        return false;
    }
    for (index, pair) in one.iter().enumerate() {
        if !is_equal_pair(pair, &other[index]) {
            return false;
        }
    }
    true
}

fn is_equal_pair(one: &Pair, other: &Pair) -> bool
    ensures exact { IsTrue result ↔ (one.now ≡ other.now) }
{
    one.kind.0 == other.kind.0 && is_equal_value(&one.value, &other.value)
}

fn is_equal_value(one: &Value, other: &Value) -> bool
    ensures exact { IsTrue result ↔ (one.now ≡ other.now) }
{
    one.octets() == other.octets() && one.key() == other.key()
}
