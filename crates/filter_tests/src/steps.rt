//! Filters made step by step: items first, and then what joins those before it.
use dir_tree::plain_values::{Octets, OneOrMany};
use ldap_filter::{Filter, Node};
use std::alloc::Global;
use std::test::Fail;

// A step; a join takes as many of the last filters as it says.
#[derive(Clone, Copy)]
pub enum Step {
    Equal(&'static str, &'static str),
    // The initial, any and final parts.
    Parts(&'static str, Option<&'static str>, &'static [&'static str], Option<&'static str>),
    AtLeast(&'static str, &'static str),
    AtMost(&'static str, &'static str),
    Present(&'static str),
    Approx(&'static str, &'static str),
    Extensible(&'static str),
    And(usize),
    Or(usize),
    Not,
}

fn octets(alloc: Global, text: &str) -> Result<Octets, Fail> {
    Ok(Octets::from_vec(text.as_bytes().to_vec(alloc)?))
}

fn part(alloc: Global, text: Option<&'static str>) -> Result<Option<Octets>, Fail> {
    match text {
        Some(text) => Ok(Some(octets(alloc, text)?)),
        None => Ok(None),
    }
}

fn parts(alloc: Global, texts: &[&'static str]) -> Result<OneOrMany<Octets>, Fail> {
    let mut parts = Vec::new(alloc);
    for text in texts {
        parts.push(octets(alloc, text)?)?;
    }
    Ok(OneOrMany::from_vec(parts))
}

// Takes the last filters, in their order.
fn last(alloc: Global, made: &mut Vec<Filter>, count: usize) -> Result<Vec<Filter>, Fail> {
    let mut members = Vec::new(alloc);
    for _ in 0..count {
        members.push(made.pop().ok_or("no filter to join")?)?;
    }
    members.reverse();
    Ok(members)
}

fn node(alloc: Global, made: &mut Vec<Filter>, step: Step) -> Result<Node, Fail> {
    Ok(match step {
        Step::Equal(kind, value) => Node::Equal(octets(alloc, kind)?, octets(alloc, value)?),
        Step::Parts(kind, initial, any, end) => Node::Parts(
            octets(alloc, kind)?,
            part(alloc, initial)?,
            parts(alloc, any)?,
            part(alloc, end)?,
        ),
        Step::AtLeast(kind, value) => Node::AtLeast(octets(alloc, kind)?, octets(alloc, value)?),
        Step::AtMost(kind, value) => Node::AtMost(octets(alloc, kind)?, octets(alloc, value)?),
        Step::Present(kind) => Node::Present(octets(alloc, kind)?),
        Step::Approx(kind, value) => Node::Approx(octets(alloc, kind)?, octets(alloc, value)?),
        Step::Extensible(content) => Node::Extensible(octets(alloc, content)?),
        Step::And(count) => Node::And(last(alloc, made, count)?),
        Step::Or(count) => Node::Or(last(alloc, made, count)?),
        Step::Not => Node::Not(Box::new(alloc, made.pop().ok_or("no filter to negate")?)?),
    })
}

// The filter that the steps make.
pub fn filter(alloc: Global, steps: &[Step]) -> Result<Filter, Fail> {
    let mut made = Vec::new(alloc);
    for step in steps {
        let node = node(alloc, &mut made, *step)?;
        made.push(Filter { node })?;
    }
    Ok(made.pop().ok_or("no filter")?)
}
