//! Items prepared: a type by its number, and assertions by their keys.

ghost use Rattle.std.specs.Prelude.{◌≡◌, Option, Some, None, [], ◌∷◌, ◌++◌, map, unwrap_or, IfOk, OnOk};
ghost use Rattle.dir_tree.specs.match_rules.Keys.{key_of};
ghost use Rattle.dir_tree.specs.match_rules.Parts.{part_key_of};
ghost use Rattle.dir_tree.specs.schema_tables.Attributes.{IsAttrId, attr_of};
ghost use Rattle.dir_tree.specs.dn_names.NameValues.{value_of};
ghost use Rattle.filter_match.specs.Tests as tests;
ghost use Rattle.filter_match.specs.Tests.{rule_of, equality, equal_test, order_test, outer_key, middle_keys, parts_asserted, parts_test, present_test, test_of};
ghost use Rattle.filter_match.specs.Tests.Test.{Nothing};
ghost use Rattle.filter_match.specs.Asked.{assertion_asked};
ghost use Rattle.filter_match.specs.Preparing.{Gives};

use crate::asked::{Asks, Asserted, Test};
use dir_tree::dn_names::{Value, make_value};
use dir_tree::match_rules::{Part, PrepareFault, Rule, prepare, prepare_part};
use dir_tree::plain_values::Octets;
use dir_tree::schema_tables::{AttrId, Syntax, attr_named, row};
use ldap_filter::{Filter, Node};
use std::alloc::{AllocError, Global};

/// The type that a text names.
fn known(kind: &[u8]) -> Result<AttrId, PrepareFault>
    ensures exact { Gives (λ kind. kind.0) result (attr_of kind.now) }
    ensures fits { IfOk result (λ kind. IsAttrId kind.0) }
{
    match attr_named(kind) {
        Some(kind) => Ok(kind),
        None => Err(PrepareFault::NotOfSyntax),
    }
}

/// The rule of a type whose values are texts.
#[tactic(auto, unfolding(crate::specs::Tests::rule_of))]
fn text_rule(kind: AttrId) -> Result<Rule, PrepareFault>
    ensures { Gives (λ rule. rule) result (rule_of kind.0) }
{
    let Some(row) = row(kind) else {
        return Err(PrepareFault::NotOfSyntax);
    };
    match row.syntax {
        Syntax::Text => Ok(Rule::Text),
        Syntax::Ascii => Ok(Rule::Ascii),
        Syntax::Phone => Ok(Rule::Phone),
        Syntax::Country => Ok(Rule::Country),
        Syntax::Octets | Syntax::Oid | Syntax::Name | Syntax::Subtree | Syntax::Aci => {
            Err(PrepareFault::NotOfSyntax)
        }
    }
}

/// The value of a type.
fn value_asserted(alloc: Global, kind: AttrId, octets: &[u8]) -> Result<Value, PrepareFault>
    requires { IsAttrId kind.0 }
    ensures { Gives (λ value. value) result (value_of kind.0 octets.now) }
{
    let octets = Vec::from_slice(alloc, octets)?;
    make_value(alloc, kind, octets)
}

/// The key of a text.
fn key_asserted(alloc: Global, rule: Rule, octets: &[u8]) -> Result<Vec<u8>, PrepareFault>
    ensures { Gives (λ key. key.items) result (key_of rule octets.now) }
{
    prepare(alloc, rule, octets)
}

/// The key of a part.
fn part_asserted(
    alloc: Global,
    rule: Rule,
    part: Part,
    octets: &[u8],
) -> Result<Vec<u8>, PrepareFault>
    ensures { Gives (λ key. key.items) result (part_key_of rule part octets.now) }
{
    prepare_part(alloc, rule, part, octets)
}

/// What is asserted by equality.
fn equality(kind: AttrId, value: Value) -> Asserted
    ensures { assertion_asked result ≡ equality kind.0 value.key }
{
    if kind == AttrId::OBJECT_CLASS {
        Asserted::IsClass(value)
    } else {
        Asserted::HasKey(value)
    }
}

#[tactic(auto, unfolding(crate::specs::Tests::equal_test))]
fn equal(alloc: Global, kind: &[u8], octets: &[u8]) -> Result<Test, PrepareFault>
    ensures { Gives (λ test. test) result (equal_test kind.now octets.now) }
{
    let kind = known(kind)?;
    let value = value_asserted(alloc, kind, octets)?;
    Ok(Test {
        asks: Asks::HasValue(kind, equality(kind, value)),
    })
}

#[tactic(auto, unfolding(crate::specs::Tests::order_test))]
fn at_least(alloc: Global, kind: &[u8], octets: &[u8]) -> Result<Test, PrepareFault>
    ensures { Gives (λ test. test) result (order_test (λ key. tests.IsAtLeast key) kind.now octets.now) }
{
    let kind = known(kind)?;
    let rule = text_rule(kind)?;
    let key = key_asserted(alloc, rule, octets)?;
    Ok(Test {
        asks: Asks::HasValue(kind, Asserted::IsAtLeast(key)),
    })
}

#[tactic(auto, unfolding(crate::specs::Tests::order_test))]
fn at_most(alloc: Global, kind: &[u8], octets: &[u8]) -> Result<Test, PrepareFault>
    ensures { Gives (λ test. test) result (order_test (λ key. tests.IsAtMost key) kind.now octets.now) }
{
    let kind = known(kind)?;
    let rule = text_rule(kind)?;
    let key = key_asserted(alloc, rule, octets)?;
    Ok(Test {
        asks: Asks::HasValue(kind, Asserted::IsAtMost(key)),
    })
}

/// The key of an outer part, empty where there is none.
fn outer(
    alloc: Global,
    rule: Rule,
    part: Part,
    octets: &Option<Octets>,
) -> Result<Vec<u8>, PrepareFault>
    ensures { Gives (λ key. key.items) result (outer_key rule part octets.now) }
{
    match octets {
        Some(octets) => part_asserted(alloc, rule, part, octets.as_slice()),
        None => Ok(Vec::new(alloc)),
    }
}

/// The keys of the middle parts.
fn middle(alloc: Global, rule: Rule, parts: &[Octets]) -> Result<Vec<Vec<u8>>, PrepareFault>
    ensures { Gives (λ keys. map (λ key. key.items) keys.items) result (middle_keys rule parts.now) }
{
    let mut keys = Vec::with_capacity(alloc, parts.len())?;
    for part in parts {
        let key = part_asserted(alloc, rule, Part::Middle, part.as_slice())?;
        put_key(&mut keys, key)?;
    }
    Ok(keys)
}

/// Puts a key last.
fn put_key(keys: &mut Vec<Vec<u8>>, key: Vec<u8>) -> Result<(), AllocError>
    ensures { OnOk result (map (λ key. key.items) keys.new.items ≡ map (λ key. key.items) keys.old.items ++ key.items ∷ []) }
{
    Ok(keys.push(key)?)
}

/// What is asserted by parts.
#[tactic(auto, unfolding(crate::specs::Tests::parts_asserted))]
fn parts_of(
    alloc: Global,
    rule: Rule,
    initial: &Option<Octets>,
    any: &[Octets],
    last: &Option<Octets>,
) -> Result<Asserted, PrepareFault>
    ensures { Gives assertion_asked result (parts_asserted rule initial.now any.now last.now) }
{
    let first = outer(alloc, rule, Part::First, initial)?;
    let middle = middle(alloc, rule, any)?;
    let last = outer(alloc, rule, Part::Last, last)?;
    Ok(Asserted::HasParts(first, middle, last))
}

#[tactic(auto, unfolding(crate::specs::Tests::parts_test))]
fn substrings(
    alloc: Global,
    kind: &[u8],
    initial: &Option<Octets>,
    any: &[Octets],
    last: &Option<Octets>,
) -> Result<Test, PrepareFault>
    ensures { Gives (λ test. test) result (parts_test kind.now initial.now any.now last.now) }
{
    let kind = known(kind)?;
    let rule = text_rule(kind)?;
    let asserted = parts_of(alloc, rule, initial, any, last)?;
    Ok(Test {
        asks: Asks::HasValue(kind, asserted),
    })
}

#[tactic(auto, unfolding(crate::specs::Tests::present_test))]
fn present(kind: &[u8]) -> Result<Test, PrepareFault>
    ensures { Gives (λ test. test) result (present_test kind.now) }
{
    let kind = known(kind)?;
    Ok(Test {
        asks: Asks::IsThere(kind),
    })
}

/// The test that was made; nothing is asked where none could be.
fn or_nothing(made: Result<Test, PrepareFault>) -> Result<Test, AllocError>
    ensures { (expected : Option tests.Test) → Gives (λ test. test) made expected
        → IfOk result (λ test. test ≡ unwrap_or expected Nothing) }
{
    match made {
        Ok(test) => Ok(test),
        Err(PrepareFault::NotOfSyntax) => Ok(Test::nothing()),
        Err(PrepareFault::NoMemory) => Err(AllocError),
    }
}

/// What an item asks; nothing is asked by `and`, `or` and `not`.
#[tactic(auto, unfolding(crate::specs::Tests::test_of))]
pub(crate) fn prepare_item(alloc: Global, item: &Filter) -> Result<Test, AllocError>
    ensures { IfOk result (λ test. test ≡ test_of item.now) }
{
    match &item.node {
        Node::Equal(kind, value) => or_nothing(equal(alloc, kind.as_slice(), value.as_slice())),
        Node::Parts(kind, initial, any, last) => {
            or_nothing(substrings(alloc, kind.as_slice(), initial, any.as_slice(), last))
        }
        Node::AtLeast(kind, value) => {
            or_nothing(at_least(alloc, kind.as_slice(), value.as_slice()))
        }
        Node::AtMost(kind, value) => or_nothing(at_most(alloc, kind.as_slice(), value.as_slice())),
        Node::Present(kind) => or_nothing(present(kind.as_slice())),
        Node::Approx(_, _) | Node::Extensible(_) | Node::And(_) | Node::Or(_) | Node::Not(_) => Ok(
            Test::nothing(),
        ),
    }
}
