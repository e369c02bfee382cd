//! Search filters (RFC 4511 4.5.1.7).

use plain_values::{Octets, OneOrMany};
use std::marker::Model;

/// A filter. Contracts see it as a value of its own, whatever memory its lists have.
#[cycle(filter)]
#[derive(Drop)]
pub struct Filter {
    pub node: Node,
}

/// What a filter asks for.
#[cycle(filter)]
#[derive(Drop)]
pub enum Node {
    And(Vec<Filter>),
    Or(Vec<Filter>),
    Not(Box<Filter>),
    /// A type and a value.
    Equal(Octets, Octets),
    /// A type, and the initial, any and final parts, of which there is at least one.
    Parts(Octets, Option<Octets>, OneOrMany<Octets>, Option<Octets>),
    /// A type and a value.
    AtLeast(Octets, Octets),
    /// A type and a value.
    AtMost(Octets, Octets),
    /// A type.
    Present(Octets),
    /// A type and a value.
    Approx(Octets, Octets),
    /// The content of an extensible match, which isn't read further.
    Extensible(Octets),
}

impl Model for Filter {
    ghost use Rattle.ldap_filter.specs.filter.Filters as filters;
    ghost use Rattle.ldap_filter.specs.filter.Codes.{coded_filter};

    ghost Value = { filters.Filter };

    ghost coded = { coded_filter };

    ghost use Rattle.ldap_filter.specs.filter.Nodes.{filter_of_node};
    ghost use Rattle.ldap_filter.specs.filter.Filters.{depth};

    ghost view = { λ f. filter_of_node f.node };

    ghost size = { depth };

    ghost use Rattle.ldap_filter.specs.filter.Sizes.{node_falls};

    ghost size_decreases = { λ a h. node_falls a.node };
}
