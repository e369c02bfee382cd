//! Filters prepared.

ghost use Rattle.std.specs.Prelude.{◌≡◌, ◌++◌, ◌∷◌, [], IfOk, OnOk};
ghost use Rattle.ldap_filter.specs.filter.Nodes.{filter_of_node};
ghost use Rattle.filter_match.specs.Tests.{test_of};
ghost use Rattle.filter_match.specs.walk.Walks.{tests_of};

use crate::asked::Test;
use crate::preparing::prepare_item;
use ldap_filter::{Filter, Node};
use std::alloc::{AllocError, Global};
use std::marker::Model;

/// No memory was left.
pub type NoMemory = AllocError;

/// A filter whose items' types were looked up and whose assertions' keys were made. Contracts see the filter that it
/// stands for.
#[derive(Drop)]
pub struct Prepared<'a> {
    filter: &'a Filter,
    // the tests of the items, in their order
    tests: Vec<Test>,
}

impl<'a> Model for Prepared<'a> {
    ghost use Rattle.std.specs.Prelude.{◌≡◌};
    ghost use Rattle.ldap_filter.specs.filter.Filters as filters;
    ghost use Rattle.ldap_filter.specs.filter.Codes.{coded_filter};

    ghost Value = { filters.Filter };

    ghost coded = { coded_filter };

    ghost use Rattle.filter_match.specs.walk.Walks.{tests_of};

    ghost view = { λ prepared. prepared.filter.now };

    ghost invariant = { λ prepared. prepared.tests.items ≡ tests_of prepared.filter.now };
}

impl<'a> Prepared<'a> {
    /// The filter itself.
    pub(crate) fn filter(&self) -> &Filter
        ensures exact { result.now ≡ self.now }
    {
        self.filter
    }

    /// The tests of its items, in their order.
    pub(crate) fn tests(&self) -> &[Test]
        ensures exact { result.now ≡ tests_of self.now }
    {
        self.tests.as_slice()
    }
}

fn put_test(tests: &mut Vec<Test>, test: Test) -> Result<(), NoMemory>
    ensures { OnOk result (tests.new.items ≡ tests.old.items ++ test ∷ []) }
{
    Ok(tests.push(test)?)
}

fn put_item(alloc: Global, tests: &mut Vec<Test>, item: &Filter) -> Result<(), NoMemory>
    ensures { OnOk result (tests.new.items ≡ tests.old.items ++ test_of item.now ∷ []) }
{
    let test = prepare_item(alloc, item)?;
    put_test(tests, test)
}

/// Appends the tests of the filter's items.
fn put_tests(alloc: Global, tests: &mut Vec<Test>, filter: &Filter) -> Result<(), NoMemory>
    ensures { OnOk result (tests.new.items ≡ tests.old.items ++ tests_of filter.now) }
{
    match &filter.node {
        Node::And(members) | Node::Or(members) => {
            for member in members {
                put_tests(alloc, tests, member)?;
            }
            Ok(())
        }
        Node::Not(member) => put_tests(alloc, tests, member),
        Node::Equal(_, _)
        | Node::Parts(_, _, _, _)
        | Node::AtLeast(_, _)
        | Node::AtMost(_, _)
        | Node::Present(_)
        | Node::Approx(_, _)
        | Node::Extensible(_) => put_item(alloc, tests, filter),
    }
}

/// The filter with its items' types looked up and its assertions' keys made, once for all entries. An item whose type
/// is unknown, or whose assertion is not of the type's syntax, asks nothing, and is Undefined (RFC 4511 4.5.1.7). The
/// error comes only where memory is refused.
pub fn prepare_filter<'a>(alloc: Global, filter: &'a Filter) -> Result<Prepared<'a>, NoMemory>
    ensures ok { IfOk result (λ prepared. prepared ≡ filter.now) }
{
    let mut tests = Vec::new(alloc);
    put_tests(alloc, &mut tests, filter)?;
    Ok(Prepared { filter, tests })
}
