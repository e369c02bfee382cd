//! How many octets the message of a reply has at most, so that its room is made at once. Nothing rests on these numbers:
//! where one were too small, what is appended would make room for itself.

use crate::kinds::{KindValues, LdapResult, Reply};
use plain_values::Octets;

/// The most octets of a header.
const HEADER: usize = 6;

/// The most octets of a messageID's element.
const ID: usize = 7;

/// The most octets of a result code's element.
const CODE: usize = 4;

fn element_room(content: usize) -> usize {
    content.saturating_add(HEADER)
}

fn optional_room(value: &Option<Octets>) -> usize {
    match value {
        None => 0,
        Some(octets) => element_room(octets.as_slice().len()),
    }
}

fn values_room(values: &[Octets]) -> usize {
    let mut room = 0_usize;
    for value in values {
        room = room.saturating_add(element_room(value.as_slice().len()));
    }
    element_room(room)
}

fn attribute_room(attribute: &KindValues) -> usize {
    let kind = element_room(attribute.kind.as_slice().len());
    element_room(kind.saturating_add(values_room(attribute.values.as_slice())))
}

fn attributes_room(attributes: &[KindValues]) -> usize {
    let mut room = 0_usize;
    for attribute in attributes {
        room = room.saturating_add(attribute_room(attribute));
    }
    element_room(room)
}

/// The code, the matched name, and the diagnostic message, which is empty.
fn result_room(ended: &LdapResult) -> usize {
    let matched = element_room(ended.matched.as_slice().len());
    element_room(matched.saturating_add(CODE))
}

fn content_room(reply: &Reply) -> usize {
    match reply {
        Reply::Entry(name, attributes) => element_room(name.as_slice().len()).saturating_add(
            attributes_room(attributes.as_slice()),
        ),
        Reply::Ended(_, ended) => result_room(ended),
        Reply::Extended(ended, name, value) => result_room(ended)
            .saturating_add(optional_room(name))
            .saturating_add(optional_room(value)),
    }
}

/// The most octets that the reply's message has.
pub(crate) fn reply_room(reply: &Reply) -> usize {
    element_room(element_room(content_room(reply)).saturating_add(ID))
}
