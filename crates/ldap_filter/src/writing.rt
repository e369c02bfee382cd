//! Filters written.

ghost use Rattle.std.specs.Prelude.{◌≡◌, ◌++◌, OnOk, List, ℕ, Option};
ghost use Rattle.ber_elements.specs.write.Element.{IsTag};
ghost use Rattle.ber_layout.specs.Layouts.{writes};
ghost use Rattle.ber_layout.specs.Spellings.{Extends, element_octets};
ghost use Rattle.ldap_filter.specs.filter.Nodes.{filter_of_node};
ghost use Rattle.ldap_filter.specs.reading.FilterLayouts.{substrings_layout, parts_layout};
ghost use Rattle.ldap_filter.specs.FilterSpelling.{filter_tag, filter_content, filter_octets};

use crate::assertion::put_pair;
use crate::filter::{Filter, Node};
use ber_layout::{NoMemory, enclose, put_each_octets, put_element, put_optional};
use plain_values::{Octets, OneOrMany};

fn put_substrings(
    out: &mut Vec<u8>,
    initial: &Option<Octets>,
    any: &OneOrMany<Octets>,
    last: &Option<Octets>,
) -> Result<(), NoMemory>
    ensures ok { OnOk result (out.new.items ≡ out.old.items ++ writes substrings_layout (initial.now, (any.now, (last.now, tt)))) }
    ensures kept { Extends out.old.items out.new.items }
{
    put_optional(out, 0x80, initial)?;
    put_each_octets(out, 0x81, any.as_slice())?;
    put_optional(out, 0x82, last)
}

fn put_inner(
    out: &mut Vec<u8>,
    initial: &Option<Octets>,
    any: &OneOrMany<Octets>,
    last: &Option<Octets>,
) -> Result<(), NoMemory>
    ensures ok { OnOk result (out.new.items ≡ out.old.items ++ element_octets 0x30 (writes substrings_layout (initial.now, (any.now, (last.now, tt))))) }
    ensures kept { Extends out.old.items out.new.items }
{
    let start = out.len();
    put_substrings(out, initial, any, last)?;
    enclose(out, 0x30, start)
}

fn put_parts(
    out: &mut Vec<u8>,
    kind: &[u8],
    initial: &Option<Octets>,
    any: &OneOrMany<Octets>,
    last: &Option<Octets>,
) -> Result<(), NoMemory>
    ensures ok { OnOk result (out.new.items ≡ out.old.items ++ writes parts_layout (kind.now, ((initial.now, (any.now, (last.now, tt))), tt))) }
    ensures kept { Extends out.old.items out.new.items }
{
    put_element(out, 0x04, kind)?;
    put_inner(out, initial, any, last)
}

impl Node {
    /// The tag of the filter's element.
    pub fn tag(&self) -> u8
        ensures exact { result ≡ filter_tag (filter_of_node self.now) }
        ensures tag { IsTag result }
    {
        match self {
            Node::And(_) => 0xa0,
            Node::Or(_) => 0xa1,
            Node::Not(_) => 0xa2,
            Node::Equal(_, _) => 0xa3,
            Node::Parts(_, _, _, _) => 0xa4,
            Node::AtLeast(_, _) => 0xa5,
            Node::AtMost(_, _) => 0xa6,
            Node::Present(_) => 0x87,
            Node::Approx(_, _) => 0xa8,
            Node::Extensible(_) => 0xa9,
        }
    }
}

/// Appends the element of a filter. After the error, want of memory, or a content of 2^32 octets or
/// more, `out` has what it had and may have more.
#[cycle(put_filter)]
pub fn put_filter(out: &mut Vec<u8>, filter: &Filter) -> Result<(), NoMemory>
    ensures ok { OnOk result (out.new.items ≡ out.old.items ++ element_octets (filter_tag filter.now) (filter_content filter.now)) }
    ensures kept { Extends out.old.items out.new.items }
{
    let start = out.len();
    put_node(out, &filter.node)?;
    enclose(out, filter.node.tag(), start)
}

/// Appends the content of a filter.
#[cycle(put_filter)]
fn put_node(out: &mut Vec<u8>, node: &Node) -> Result<(), NoMemory>
    ensures ok { OnOk result (out.new.items ≡ out.old.items ++ filter_content (filter_of_node node.now)) }
    ensures kept { Extends out.old.items out.new.items }
{
    match node {
        Node::And(members) | Node::Or(members) => {
            for member in members {
                put_filter(out, member)?;
            }
            Ok(())
        }
        Node::Not(member) => put_filter(out, member),
        Node::Equal(kind, value)
        | Node::AtLeast(kind, value)
        | Node::AtMost(kind, value)
        | Node::Approx(kind, value) => put_pair(out, kind.as_slice(), value.as_slice()),
        Node::Parts(kind, initial, any, last) => {
            put_parts(out, kind.as_slice(), initial, any, last)
        }
        Node::Present(held) | Node::Extensible(held) => out.extend_from_slice(held.as_slice()),
    }
}
