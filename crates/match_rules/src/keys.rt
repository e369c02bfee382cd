//! The keys of values.

ghost use Rattle.std.specs.Prelude.{◌≡◌, ◌↔◌, None, Some, IfOk, IsErrOf, IsUtf8};
ghost use Rattle.match_rules.specs.Keys.{without_separators, prepared_text, prepared, key_of};
ghost use Rattle.match_rules.specs.Syntaxes.{IsOf};

use crate::errors::PrepareFault;
use crate::folding::fold_octets;
use crate::rules::{Rule, is_of};
use crate::spaces::{cut_end_of, cut_front_of, join_spaces};
use std::alloc::{AllocError, Global};

/// The key of a value: two values of one rule match where their keys are equal.
///
/// `NotOfSyntax` comes exactly where the octets are not of the rule's syntax (RFC 4517, section 3.3), and then
/// no memory is asked for; `NoMemory` may come in place of a key.
pub fn prepare(alloc: Global, rule: Rule, octets: &[u8]) -> Result<Vec<u8>, PrepareFault>
    ensures ok { IfOk result (λ key. key_of rule octets.now ≡ Some key.items) }
    ensures not_of_syntax { IsErrOf result PrepareFault.NotOfSyntax
        ↔ (key_of rule octets.now ≡ None) }
{
    if !is_of(rule, octets) {
        return Err(PrepareFault::NotOfSyntax);
    }
    Ok(prepare_value(alloc, rule, octets)?)
}

fn prepare_value(alloc: Global, rule: Rule, octets: &[u8]) -> Result<Vec<u8>, AllocError>
    requires { IsOf rule octets.now }
    ensures { IfOk result (λ key. key.items ≡ prepared rule octets.now) }
{
    match rule {
        Rule::Text => prepare_text(alloc, octets),
        Rule::Ascii => prepare_text(alloc, octets),
        Rule::Phone => prepare_phone(alloc, octets),
        Rule::Country => prepare_text(alloc, octets),
        Rule::Octets => Vec::from_slice(alloc, octets),
    }
}

fn prepare_phone(alloc: Global, octets: &[u8]) -> Result<Vec<u8>, AllocError>
    requires { IsUtf8 octets.now }
    ensures { IfOk result (λ key. key.items ≡ without_separators (prepared_text octets.now)) }
{
    let mut key = prepare_text(alloc, octets)?;
    remove_separators(&mut key);
    Ok(key)
}

fn prepare_text(alloc: Global, octets: &[u8]) -> Result<Vec<u8>, AllocError>
    requires { IsUtf8 octets.now }
    ensures { IfOk result (λ key. key.items ≡ prepared_text octets.now) }
{
    let mut key = fold_octets(alloc, octets)?;
    cut_front_of(&mut key);
    cut_end_of(&mut key);
    join_spaces(&mut key);
    Ok(key)
}

/// Takes the spaces and hyphens out of a telephone number.
pub(crate) fn remove_separators(key: &mut Vec<u8>)
    ensures { key.new.items ≡ without_separators key.old.items }
{
    key.retain(|octet| *octet != b' ' && *octet != b'-');
}
