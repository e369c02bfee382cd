//! Filters read where they lie; only the fields' octets are copied.

ghost use Rattle.std.specs.Prelude.{◌≡◌, ◌++◌, ◌∷◌, [], OnOk, IfOk, Some, None};
ghost use Rattle.ber_layout.specs.Layouts.{reads};
ghost use Rattle.ber_layout.specs.element.Reading.{Gives};
ghost use Rattle.ldap_filter.specs.filter.Filters.Filter.{Not, Equal, AtLeast, AtMost, Present, Approx, Extensible};
ghost use Rattle.ldap_filter.specs.filter.Filters.{filters_of};
ghost use Rattle.ldap_filter.specs.reading.FilterReading.{asserted, substrings_from, parts_in, item_of, all_of, only_of, level_of, filter_at as filter_within, filter_of};

use crate::assertion::Assertion;
use crate::filter::{Filter, Node};
use ber_layout::{
    Laid, NoMemory, ReadFault, any, each_octets, optional_octets, put_each_octets, put_optional,
    required,
};
use plain_values::{Octets, OneOrMany};
use std::alloc::{AllocError, Global};

/// How deep a filter may be; an item is 1 deep.
pub const MOST_DEEP: u8 = 64;

fn equal(alloc: Global, content: &[u8]) -> Result<Filter, ReadFault>
    ensures { Gives (λ filter. filter) result (asserted (λ kind value. Equal kind value) content.now) }
{
    let Assertion { kind, value } = Assertion::read(alloc, content)?;
    Ok(Filter {
        node: Node::Equal(kind, value),
    })
}

fn at_least(alloc: Global, content: &[u8]) -> Result<Filter, ReadFault>
    ensures { Gives (λ filter. filter) result (asserted (λ kind value. AtLeast kind value) content.now) }
{
    let Assertion { kind, value } = Assertion::read(alloc, content)?;
    Ok(Filter {
        node: Node::AtLeast(kind, value),
    })
}

fn at_most(alloc: Global, content: &[u8]) -> Result<Filter, ReadFault>
    ensures { Gives (λ filter. filter) result (asserted (λ kind value. AtMost kind value) content.now) }
{
    let Assertion { kind, value } = Assertion::read(alloc, content)?;
    Ok(Filter {
        node: Node::AtMost(kind, value),
    })
}

fn approx(alloc: Global, content: &[u8]) -> Result<Filter, ReadFault>
    ensures { Gives (λ filter. filter) result (asserted (λ kind value. Approx kind value) content.now) }
{
    let Assertion { kind, value } = Assertion::read(alloc, content)?;
    Ok(Filter {
        node: Node::Approx(kind, value),
    })
}

/// The initial, any and final parts of substrings.
#[derive(Drop)]
struct Substrings {
    initial: Option<Octets>,
    any: OneOrMany<Octets>,
    last: Option<Octets>,
}

impl Laid for Substrings {
    ghost use Rattle.ldap_filter.specs.reading.FilterLayouts.{substrings_layout};
    ghost use Rattle.ldap_filter.specs.reading.SubstringParts.{substrings_parts};

    ghost layout = { substrings_layout };

    ghost parts = { substrings_parts };

    #[tactic(auto, unfolding(ber_layout::specs::Layouts::reads_into))]
    fn read(alloc: Global, content: &[u8]) -> Result<Substrings, ReadFault> {
        let initial = optional_octets(alloc, 0x80, content)?;
        let any = each_octets(alloc, 0x81, initial.rest)?;
        let last = optional_octets(alloc, 0x82, any.rest)?;
        if !last.rest.is_empty() {
            return Err(ReadFault::BadMessage);
        }
        Ok(Substrings {
            initial: initial.value,
            any: any.value,
            last: last.value,
        })
    }

    fn put(&self, out: &mut Vec<u8>) -> Result<(), NoMemory> {
        put_optional(out, 0x80, &self.initial)?;
        put_each_octets(out, 0x81, self.any.as_slice())?;
        put_optional(out, 0x82, &self.last)
    }
}

/// The filter of a type and substrings, of which there is at least one.
fn with_substrings(kind: Octets, found: Substrings) -> Result<Filter, ReadFault>
    ensures { Gives (λ filter. filter) result (substrings_from kind found.initial found.any found.last) }
{
    let Substrings { initial, any, last } = found;
    match initial {
        Some(initial) => Ok(Filter {
            node: Node::Parts(kind, Some(initial), any, last),
        }),
        None => without_initial(kind, any, last),
    }
}

fn without_initial(
    kind: Octets,
    any: OneOrMany<Octets>,
    last: Option<Octets>,
) -> Result<Filter, ReadFault>
    ensures { Gives (λ filter. filter) result (substrings_from kind None any last) }
{
    match last {
        Some(last) => Ok(Filter {
            node: Node::Parts(kind, None, any, Some(last)),
        }),
        None => {
            if any.is_empty() {
                return Err(ReadFault::BadMessage);
            }
            Ok(Filter {
                node: Node::Parts(kind, None, any, None),
            })
        }
    }
}

#[tactic(auto, unfolding(ber_layout::specs::Layouts::reads_into))]
fn parts(alloc: Global, content: &[u8]) -> Result<Filter, ReadFault>
    ensures { Gives (λ filter. filter) result (parts_in content.now) }
{
    let kind = required::<Octets>(alloc, 0x04, content)?;
    let found = required::<Substrings>(alloc, 0x30, kind.rest)?;
    if !found.rest.is_empty() {
        return Err(ReadFault::BadMessage);
    }
    with_substrings(kind.value, found.value)
}

#[tactic(auto, unfolding(ber_layout::specs::Layouts::reads_into))]
fn octets(alloc: Global, content: &[u8]) -> Result<Octets, ReadFault>
    ensures { Gives (λ octets. octets) result (Some content.now) }
{
    Octets::read(alloc, content)
}

fn present(alloc: Global, content: &[u8]) -> Result<Filter, ReadFault>
    ensures { Gives (λ filter. filter) result (Some (Present content.now)) }
{
    let kind = octets(alloc, content)?;
    Ok(Filter {
        node: Node::Present(kind),
    })
}

fn extensible(alloc: Global, content: &[u8]) -> Result<Filter, ReadFault>
    ensures { Gives (λ filter. filter) result (Some (Extensible content.now)) }
{
    let held = octets(alloc, content)?;
    Ok(Filter {
        node: Node::Extensible(held),
    })
}

/// The item that a tag and a content say.
fn item(alloc: Global, tag: u8, content: &[u8]) -> Result<Filter, ReadFault>
    ensures { Gives (λ filter. filter) result (item_of tag content.now) }
{
    match tag {
        0xa3 => equal(alloc, content),
        0xa4 => parts(alloc, content),
        0xa5 => at_least(alloc, content),
        0xa6 => at_most(alloc, content),
        0x87 => present(alloc, content),
        0xa8 => approx(alloc, content),
        0xa9 => extensible(alloc, content),
        _ => Err(ReadFault::BadMessage),
    }
}

fn put_last(members: &mut Vec<Filter>, member: Filter) -> Result<(), NoMemory>
    ensures { OnOk result (members.new.items ≡ members.old.items ++ member ∷ []) }
{
    match members.push(member) {
        Ok(()) => Ok(()),
        Err(fault) => Err(AllocError::from(fault)),
    }
}

fn negated(alloc: Global, member: Filter) -> Result<Filter, NoMemory>
    ensures { IfOk result (λ filter. filter ≡ Not member) }
{
    match Box::new(alloc, member) {
        Ok(member) => Ok(Filter {
            node: Node::Not(member),
        }),
        Err(fault) => Err(AllocError::from(fault)),
    }
}

/// The filter that a tag and a content say, where it is at most `deep` deep.
#[cycle(filter_at)]
#[tactic(auto, unfolding(crate::specs::reading::FilterReading::filter_at))]
fn filter_at(alloc: Global, deep: u8, tag: u8, content: &[u8]) -> Result<Filter, ReadFault>
    ensures { Gives (λ filter. filter) result (filter_within deep (tag, content.now)) }
{
    if deep == 0 {
        return Err(ReadFault::BadMessage);
    }
    level(alloc, deep - 1, tag, content)
}

/// A filter whose members are at most `deep` deep.
#[cycle(filter_at)]
fn level(alloc: Global, deep: u8, tag: u8, content: &[u8]) -> Result<Filter, ReadFault>
    ensures { Gives (λ filter. filter) result (level_of (filter_within deep) (tag, content.now)) }
{
    match tag {
        0xa0 => {
            let members = all(alloc, deep, content)?;
            Ok(Filter {
                node: Node::And(members),
            })
        }
        0xa1 => {
            let members = all(alloc, deep, content)?;
            Ok(Filter {
                node: Node::Or(members),
            })
        }
        0xa2 => {
            let member = only(alloc, deep, content)?;
            Ok(negated(alloc, member)?)
        }
        _ => item(alloc, tag, content),
    }
}

/// The filters of all elements.
#[cycle(filter_at)]
fn all(alloc: Global, deep: u8, content: &[u8]) -> Result<Vec<Filter>, ReadFault>
    ensures { Gives (λ members. filters_of members.items) result (all_of (filter_within deep) content.now) }
{
    let mut members = Vec::new(alloc);
    let mut rest = content;
    while !rest.is_empty() {
        let found = any(rest)?;
        let member = filter_at(alloc, deep, found.tag, found.content)?;
        put_last(&mut members, member)?;
        rest = found.rest;
    }
    Ok(members)
}

/// The filter of the one element.
#[cycle(filter_at)]
fn only(alloc: Global, deep: u8, content: &[u8]) -> Result<Filter, ReadFault>
    ensures { Gives (λ member. member) result (only_of (filter_within deep) content.now) }
{
    let member = any(content)?;
    if !member.rest.is_empty() {
        return Err(ReadFault::BadMessage);
    }
    filter_at(alloc, deep, member.tag, member.content)
}

/// The filter that the tag and the content of an element say. `BadMessage` comes exactly where they
/// say none, or one that is more than `MOST_DEEP` deep, and `NoMemory` may come in place of any
/// answer.
#[tactic(auto, unfolding(crate::specs::reading::FilterReading::filter_of))]
pub fn read_filter(alloc: Global, tag: u8, content: &[u8]) -> Result<Filter, ReadFault>
    ensures { Gives (λ filter. filter) result (filter_of (tag, content.now)) }
{
    filter_at(alloc, MOST_DEEP, tag, content)
}
