//! The keys of values that are no names.

ghost use Rattle.std.specs.Prelude.{◌≡◌, ◌↔◌, true, false, Some, None, IfOk, IsTrue, IsErrOf, MatchOption};
ghost use Rattle.std.specs.Str.{is_utf8};
ghost use Rattle.std.specs.Option.{option_map};
ghost use Rattle.schema_tables.specs.Oids.{oid_of};
ghost use Rattle.match_rules.specs.declared.errors.PrepareFault.TheVariants.{NotOfSyntax};
ghost use Rattle.dn_names.specs.value.Values.{of_text, plain_key};
ghost use Rattle.dn_names.specs.NameValues.{value_key};

use match_rules::{PrepareFault, Rule, is_own_key, prepare};
use schema_tables::{Syntax, oid_of};
use std::alloc::Global;
use std::str;

/// The octets as a text, where they are UTF-8.
pub(crate) fn as_text(octets: &[u8]) -> Option<&str>
    ensures exact { MatchOption result (is_utf8 octets.now ≡ false)
        (λ text. (text.now ≡ octets.now) × (is_utf8 octets.now ≡ true)) }
{
    match str::from_utf8(octets) {
        Ok(text) => Some(text),
        Err(_) => None,
    }
}

/// Whether octets are seen to be their own key under a syntax, so that none has to be made; not of all that are.
pub(crate) fn has_own_key(syntax: Syntax, octets: &[u8]) -> bool
    ensures plain { IsTrue result → plain_key syntax octets.now ≡ Some octets.now }
    ensures value { IsTrue result → value_key syntax octets.now ≡ Some octets.now }
{
    match syntax {
        Syntax::Text => is_own_key(Rule::Text, octets),
        Syntax::Ascii => is_own_key(Rule::Ascii, octets),
        Syntax::Octets => is_own_key(Rule::Octets, octets),
        Syntax::Subtree => is_own_key(Rule::Octets, octets),
        Syntax::Aci => is_own_key(Rule::Octets, octets),
        _ => false,
    }
}

/// The key of octets of a syntax that is not that of names.
pub(crate) fn make_key(
    alloc: Global,
    syntax: Syntax,
    octets: &[u8],
) -> Result<Vec<u8>, PrepareFault>
    ensures ok { IfOk result (λ key. plain_key syntax octets.now ≡ Some key.items) }
    ensures not_of_syntax { IsErrOf result NotOfSyntax ↔ (plain_key syntax octets.now ≡ None) }
{
    match syntax {
        Syntax::Text => prepare(alloc, Rule::Text, octets),
        Syntax::Ascii => prepare(alloc, Rule::Ascii, octets),
        Syntax::Phone => prepare(alloc, Rule::Phone, octets),
        Syntax::Country => prepare(alloc, Rule::Country, octets),
        Syntax::Octets => prepare(alloc, Rule::Octets, octets),
        Syntax::Oid => oid_key(alloc, octets),
        Syntax::Name => Err(PrepareFault::NotOfSyntax),
        Syntax::Subtree => prepare(alloc, Rule::Octets, octets),
        Syntax::Aci => prepare(alloc, Rule::Octets, octets),
    }
}

// The dotted form of an object identifier or of a name of one.
fn oid_key(alloc: Global, octets: &[u8]) -> Result<Vec<u8>, PrepareFault>
    ensures ok { IfOk result (λ key. of_text oid_of octets.now ≡ Some key.items) }
    ensures not_of_syntax { IsErrOf result NotOfSyntax ↔ (of_text oid_of octets.now ≡ None) }
{
    match dotted_form(octets) {
        Some(oid) => Ok(oid.as_bytes().to_vec(alloc)?),
        None => Err(PrepareFault::NotOfSyntax),
    }
}

fn dotted_form(octets: &[u8]) -> Option<&str>
    ensures exact { option_map (λ oid. oid.now) result ≡ of_text oid_of octets.now }
{
    match as_text(octets) {
        Some(text) => oid_of(text),
        None => None,
    }
}
