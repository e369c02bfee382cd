//! The components of a SEQUENCE, read where they lie; only the fields' octets are copied.

ghost use Rattle.std.specs.Prelude.{◌≡◌, ◌≤◌, ℕ, Bool, map, option_map, IfOk, OnOk, ◌++◌, ◌∷◌, []};
ghost use Rattle.ber_layout.specs.components.Flags.{flag_of};
ghost use Rattle.ber_layout.specs.components.Components.{any_of, required_of, optional_of, marked_of, each_of};
ghost use Rattle.ber_layout.specs.Layouts.{reads};
ghost use Rattle.ber_layout.specs.Layouts.Layout.{AnyOctets, Ignored, Number, Skipped, Flag, End, Each};
ghost use Rattle.ber_layout.specs.element.Reading.{Gives};

use crate::element::{Element, any_element, begins, number, tagged};
use crate::kinds::{Component, NoMemory, ReadFault};
use crate::laid::Laid;
use plain_values::{Octets, OneOrMany};
use std::alloc::{AllocError, Global};

/// A value in an element with this tag.
#[tactic(auto, unfolding(crate::specs::components::Components::required_of))]
pub fn required<T: Laid>(
    alloc: Global,
    tag: u8,
    bytes: &[u8],
) -> Result<Component<'_, T>, ReadFault>
    ensures { Gives (λ found. record { value = T.parts found.value; rest = found.rest.now }) result (required_of tag (reads T.layout) bytes.now) }
{
    let element = tagged(tag, bytes)?;
    let value = T::read(alloc, element.content)?;
    Ok(Component {
        value,
        rest: element.rest,
    })
}

/// A value in an element with this tag, or none where the octets begin with another.
#[tactic(auto, unfolding(crate::specs::components::Components::optional_of))]
pub fn optional<T: Laid>(
    alloc: Global,
    tag: u8,
    bytes: &[u8],
) -> Result<Component<'_, Option<T>>, ReadFault>
    ensures { Gives (λ found. record { value = option_map T.parts found.value; rest = found.rest.now }) result (optional_of tag (reads T.layout) bytes.now) }
{
    if !begins(tag, bytes) {
        return Ok(Component {
            value: None,
            rest: bytes,
        });
    }
    let found = required::<T>(alloc, tag, bytes)?;
    Ok(Component {
        value: Some(found.value),
        rest: found.rest,
    })
}

/// A number from `low` to `high` in an element with this tag.
#[tactic(auto, unfolding(crate::specs::components::Components::required_of, crate::specs::Layouts::reads_into))]
pub fn integer(tag: u8, low: u32, high: u32, bytes: &[u8]) -> Result<Component<'_, u32>, ReadFault>
    ensures value { Gives (λ found. record { value = found.value; rest = found.rest.now }) result (required_of tag (reads (Number low high)) bytes.now) }
    ensures range { IfOk result (λ found. (low ≤ found.value) × (found.value ≤ high)) }
{
    let element = tagged(tag, bytes)?;
    let value = number(low, high, element.content)?;
    Ok(Component {
        value,
        rest: element.rest,
    })
}

/// An element with any tag.
#[tactic(auto, unfolding(crate::specs::components::Components::any_of))]
pub fn any(bytes: &[u8]) -> Result<Element<'_>, ReadFault>
    ensures { Gives (λ found. record { value = (found.tag, found.content.now); rest = found.rest.now }) result (any_of bytes.now) }
{
    any_element(bytes)
}

/// What follows an element with this tag, whatever its content.
#[tactic(auto, unfolding(crate::specs::components::Components::required_of, crate::specs::Layouts::reads_into))]
pub fn ignored(tag: u8, bytes: &[u8]) -> Result<&[u8], ReadFault>
    ensures { Gives (λ rest. record { value = tt; rest = rest.now }) result (required_of tag (reads Ignored) bytes.now) }
{
    let element = tagged(tag, bytes)?;
    Ok(element.rest)
}

/// What follows a number from `low` to `high` in an element with this tag.
#[tactic(auto, unfolding(crate::specs::components::Components::required_of, crate::specs::Layouts::reads_into))]
pub fn skipped(tag: u8, low: u32, high: u32, bytes: &[u8]) -> Result<&[u8], ReadFault>
    ensures { Gives (λ rest. record { value = tt; rest = rest.now }) result (required_of tag (reads (Skipped low high)) bytes.now) }
{
    let element = tagged(tag, bytes)?;
    number(low, high, element.content)?;
    Ok(element.rest)
}

fn flag_in(content: &[u8]) -> Result<bool, ReadFault>
    ensures { Gives (λ flag. flag) result (flag_of content.now) }
{
    match content {
        [octet] => Ok(*octet != 0),
        _ => Err(ReadFault::BadMessage),
    }
}

/// A BOOLEAN in an element with this tag.
#[tactic(auto, unfolding(crate::specs::components::Components::required_of, crate::specs::Layouts::reads_into))]
pub fn flag(tag: u8, bytes: &[u8]) -> Result<Component<'_, bool>, ReadFault>
    ensures { Gives (λ found. record { value = found.value; rest = found.rest.now }) result (required_of tag (reads Flag) bytes.now) }
{
    let element = tagged(tag, bytes)?;
    let value = flag_in(element.content)?;
    Ok(Component {
        value,
        rest: element.rest,
    })
}

/// A BOOLEAN in an element with this tag, or FALSE where the octets begin with another.
#[tactic(auto, unfolding(crate::specs::components::Components::required_of, crate::specs::components::Components::marked_of))]
pub fn marked(tag: u8, bytes: &[u8]) -> Result<Component<'_, bool>, ReadFault>
    ensures { Gives (λ found. record { value = found.value; rest = found.rest.now }) result (marked_of tag bytes.now) }
{
    if !begins(tag, bytes) {
        return Ok(Component {
            value: false,
            rest: bytes,
        });
    }
    let element = tagged(tag, bytes)?;
    let value = flag_in(element.content)?;
    Ok(Component {
        value,
        rest: element.rest,
    })
}

fn put_last<T: Drop>(values: &mut Vec<T>, value: T) -> Result<(), NoMemory>
    ensures { OnOk result (values.new.items ≡ values.old.items ++ value ∷ []) }
{
    match values.push(value) {
        Ok(()) => Ok(()),
        Err(fault) => Err(AllocError::from(fault)),
    }
}

/// The values of as many elements as begin with this tag.
pub fn each<T: Laid>(
    alloc: Global,
    tag: u8,
    bytes: &[u8],
) -> Result<Component<'_, Vec<T>>, ReadFault>
    ensures { Gives (λ found. record { value = map T.parts found.value.items; rest = found.rest.now }) result (each_of tag (reads T.layout) bytes.now) }
{
    let mut values = Vec::new(alloc);
    let mut rest = bytes;
    while begins(tag, rest) {
        let found = required::<T>(alloc, tag, rest)?;
        put_last(&mut values, found.value)?;
        rest = found.rest;
    }
    Ok(Component {
        value: values,
        rest,
    })
}

#[tactic(auto, unfolding(crate::specs::Layouts::reads_into))]
fn elements<T: Laid>(alloc: Global, tag: u8, content: &[u8]) -> Result<OneOrMany<T>, ReadFault>
    ensures { Gives (λ values. (map T.parts values, tt)) result (reads (Each tag T.layout End) content.now) }
{
    let found = each::<T>(alloc, tag, content)?;
    if !found.rest.is_empty() {
        return Err(ReadFault::BadMessage);
    }
    Ok(OneOrMany::from_vec(found.value))
}

/// The values of the elements, each with the tag `tag`, in an element with the tag `outer`.
#[tactic(auto, unfolding(crate::specs::components::Components::required_of))]
pub fn list<T: Laid>(
    alloc: Global,
    outer: u8,
    tag: u8,
    bytes: &[u8],
) -> Result<Component<'_, OneOrMany<T>>, ReadFault>
    ensures { Gives (λ found. record { value = (map T.parts found.value, tt); rest = found.rest.now }) result (required_of outer (reads (Each tag T.layout End)) bytes.now) }
{
    let element = tagged(outer, bytes)?;
    let value = elements::<T>(alloc, tag, element.content)?;
    Ok(Component {
        value,
        rest: element.rest,
    })
}

/// The same for octets.
pub fn octets_list(
    alloc: Global,
    outer: u8,
    tag: u8,
    bytes: &[u8],
) -> Result<Component<'_, OneOrMany<Octets>>, ReadFault>
    ensures { Gives (λ found. record { value = (found.value, tt); rest = found.rest.now }) result (required_of outer (reads (Each tag AnyOctets End)) bytes.now) }
{
    list::<Octets>(alloc, outer, tag, bytes)
}

/// Octets of as many elements as begin with this tag.
pub fn each_octets(
    alloc: Global,
    tag: u8,
    bytes: &[u8],
) -> Result<Component<'_, OneOrMany<Octets>>, ReadFault>
    ensures { Gives (λ found. record { value = found.value; rest = found.rest.now }) result (each_of tag (reads AnyOctets) bytes.now) }
{
    let found = each::<Octets>(alloc, tag, bytes)?;
    Ok(Component {
        value: OneOrMany::from_vec(found.value),
        rest: found.rest,
    })
}

/// Octets in an element with this tag, or none where the octets begin with another.
pub fn optional_octets(
    alloc: Global,
    tag: u8,
    bytes: &[u8],
) -> Result<Component<'_, Option<Octets>>, ReadFault>
    ensures { Gives (λ found. record { value = found.value; rest = found.rest.now }) result (optional_of tag (reads AnyOctets) bytes.now) }
{
    optional::<Octets>(alloc, tag, bytes)
}
