//! The keys of substring parts.

ghost use Rattle.std.specs.Prelude.{◌≡◌, ◌↔◌, None, Some, IfOk, IsErrOf, IsUtf8};
ghost use Rattle.match_rules.specs.Keys.{without_separators};
ghost use Rattle.match_rules.specs.Parts.{cut_outer, prepared_part_text, prepared_part, part_key_of};
ghost use Rattle.match_rules.specs.Syntaxes.{IsPartOf};

use crate::errors::PrepareFault;
use crate::folding::fold_octets;
use crate::keys::remove_separators;
use crate::rules::{Rule, is_part_of};
use crate::spaces::{cut_end_of, cut_front_of, join_spaces};
use std::alloc::{AllocError, Global};

/// Where a substring part stands in a value.
#[derive(Clone, Copy, Debug, PartialEq, Eq, Hash)]
pub enum Part {
    /// At the front of the value.
    First,
    /// Anywhere between the parts before and after it.
    Middle,
    /// At the end of the value.
    Last,
}

/// The key of a substring part, which `substring` looks for in the key of a value.
///
/// `NotOfSyntax` comes exactly where the octets can be no part of a value of the rule's syntax: a part of a
/// country's name may be one letter, and any other part must be of the syntax itself. `NoMemory` may come in place of a
/// key.
pub fn prepare_part(
    alloc: Global,
    rule: Rule,
    part: Part,
    octets: &[u8],
) -> Result<Vec<u8>, PrepareFault>
    ensures ok { IfOk result (λ key. part_key_of rule part octets.now ≡ Some key.items) }
    ensures not_of_syntax { IsErrOf result PrepareFault.NotOfSyntax
        ↔ (part_key_of rule part octets.now ≡ None) }
{
    if !is_part_of(rule, octets) {
        return Err(PrepareFault::NotOfSyntax);
    }
    Ok(prepare_piece(alloc, rule, part, octets)?)
}

fn prepare_piece(
    alloc: Global,
    rule: Rule,
    part: Part,
    octets: &[u8],
) -> Result<Vec<u8>, AllocError>
    requires { IsPartOf rule octets.now }
    ensures { IfOk result (λ key. key.items ≡ prepared_part rule part octets.now) }
{
    match rule {
        Rule::Text => prepare_part_text(alloc, part, octets),
        Rule::Ascii => prepare_part_text(alloc, part, octets),
        Rule::Phone => prepare_part_phone(alloc, part, octets),
        Rule::Country => prepare_part_text(alloc, part, octets),
        Rule::Octets => Vec::from_slice(alloc, octets),
    }
}

fn prepare_part_phone(alloc: Global, part: Part, octets: &[u8]) -> Result<Vec<u8>, AllocError>
    requires { IsUtf8 octets.now }
    ensures { IfOk result (λ key.
        key.items ≡ without_separators (prepared_part_text part octets.now)) }
{
    let mut key = prepare_part_text(alloc, part, octets)?;
    remove_separators(&mut key);
    Ok(key)
}

fn prepare_part_text(alloc: Global, part: Part, octets: &[u8]) -> Result<Vec<u8>, AllocError>
    requires { IsUtf8 octets.now }
    ensures { IfOk result (λ key. key.items ≡ prepared_part_text part octets.now) }
{
    let mut key = fold_octets(alloc, octets)?;
    cut_outer_of(part, &mut key);
    join_spaces(&mut key);
    Ok(key)
}

fn cut_outer_of(part: Part, key: &mut Vec<u8>)
    ensures { key.new.items ≡ cut_outer part key.old.items }
{
    match part {
        Part::First => cut_front_of(key),
        Part::Middle => {}
        Part::Last => cut_end_of(key),
    }
}
