//! The values of an entry's own RDN (X.501 8.2 and 9.3).

ghost use Rattle.std.specs.Prelude.{◌≡◌, not};
ghost use Rattle.std.specs.List.{list_any};
ghost use Rattle.dir_tree.specs.Entry.{has_key, values_of};
ghost use Rattle.aci_item.specs.Rules.{lacks_own_value};

use dir_tree::Entry;
use dir_tree::dn_names::{Pair, Value};

/// Whether a value of the last RDN of the entry's name is none of the entry's values.
pub(crate) fn lacks_own_value(entry: &Entry) -> bool
    ensures exact { result ≡ lacks_own_value entry.now }
{
    lacks_pair(entry, entry.name().last_rdn())
}

// Whether the value of one of the pairs is none of the entry's values.
fn lacks_pair(entry: &Entry, pairs: &[Pair]) -> bool
    ensures exact { result
        ≡ list_any (λ pair. not (has_key pair.value.key (values_of pair.kind entry.now.attributes)))
        pairs.now }
{
    pairs.iter().any(|pair| !has_pair(entry, pair))
}

// Whether the entry has the value of the pair.
fn has_pair(entry: &Entry, pair: &Pair) -> bool
    ensures exact { result ≡ has_key pair.now.value.key (values_of pair.now.kind entry.now.attributes) }
{
    has_key(entry.values(pair.kind()), pair.value().key())
}

// Whether one of the values has the key.
fn has_key(values: &[Value], key: &[u8]) -> bool
    ensures exact { result ≡ has_key key.now values.now }
{
    values.iter().any(|value| key == value.key())
}
