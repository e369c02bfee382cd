//! What has come of a filter that is open, and what an octet or a filter that ends makes of it.

ghost use Rattle.std.specs.Prelude.{◌≡◌, ◌++◌, [], ◌∷◌, None, option_map, Ok, IfOk};
ghost use Rattle.ldap_filter.specs.filter.Filters.{filters_of};
ghost use Rattle.ldap_filter.specs.filter.Filters.Filter.{And, Or, Not};
ghost use Rattle.filter_text.specs.Reading.{may_open, closed, with_filter, begun, with_octet};
ghost use Rattle.filter_text.specs.declared.frame.Frame.TheVariants as frames;

use crate::classes::Class;
use crate::items::read_item;
use crate::members::Members;
use crate::modes::{Mode, begin, ends, step};
use ldap_filter::{Filter, Node};
use plain_values::Octets;
use std::alloc::{AllocError, Global};

/// What has come of a filter that is open, or of the whole text.
#[derive(Drop)]
pub(crate) enum Frame {
    /// Nothing of the text.
    Start,
    /// The whole filter.
    Whole(Filter),
    /// `(` alone.
    Opened,
    /// `(&` and these filters.
    All(Members),
    /// `(|` and these filters.
    Any(Members),
    /// `(!` alone.
    No,
    /// `(!` and this filter.
    Negated(Filter),
    /// `(` and these octets of an item, after which reading is so far.
    Item(Octets, Mode),
}

// Drops a filter.
fn forget(_filter: Filter) {}

/// Whether a filter may begin here.
pub(crate) fn may_open(frame: &Frame) -> bool
    ensures exact { result ≡ may_open frame.now }
{
    match frame {
        Frame::Start | Frame::All(_) | Frame::Any(_) | Frame::No => true,
        _ => false,
    }
}

// All of these filters.
fn all(members: Members) -> Filter
    ensures exact { result ≡ And (filters_of members) }
{
    Filter {
        node: Node::And(members.into_vec()),
    }
}

// Any of these filters.
fn any(members: Members) -> Filter
    ensures exact { result ≡ Or (filters_of members) }
{
    Filter {
        node: Node::Or(members.into_vec()),
    }
}

// The negation of a filter.
fn negated(alloc: Global, member: Filter) -> Result<Filter, AllocError>
    ensures ok { IfOk result (λ filter. filter ≡ Not member) }
{
    match Box::new(alloc, member) {
        Ok(member) => Ok(Filter {
            node: Node::Not(member),
        }),
        Err(fault) => Err(AllocError::from(fault)),
    }
}

// The filter of an item that ends.
fn item(alloc: Global, raw: Octets, mode: Mode) -> Result<Option<Filter>, AllocError>
    ensures ok { IfOk result (λ filter. filter ≡ closed (frames.Item raw mode)) }
{
    if ends(mode) {
        Ok(Some(read_item(alloc, raw.as_slice())?))
    } else {
        Ok(None)
    }
}

/// The filter that ends here.
pub(crate) fn closed(alloc: Global, frame: Frame) -> Result<Option<Filter>, AllocError>
    ensures ok { IfOk result (λ filter. filter ≡ closed frame) }
{
    match frame {
        Frame::All(members) => Ok(Some(all(members))),
        Frame::Any(members) => Ok(Some(any(members))),
        Frame::Negated(member) => Ok(Some(negated(alloc, member)?)),
        Frame::Item(raw, mode) => item(alloc, raw, mode),
        Frame::Start | Frame::Opened | Frame::No => Ok(None),
        Frame::Whole(filter) => {
            forget(filter);
            Ok(None)
        }
    }
}

// A filter that may not stand there.
fn refused(_filter: Filter, _frame: Frame) -> Result<Option<Frame>, AllocError>
    ensures exact { result ≡ Ok None }
{
    Ok(None)
}

/// A filter that ended, within what stands round it; None where it may not stand there.
pub(crate) fn with_filter(filter: Filter, frame: Frame) -> Result<Option<Frame>, AllocError>
    ensures ok { IfOk result (λ next. next ≡ with_filter filter frame) }
{
    match frame {
        Frame::Start => Ok(Some(Frame::Whole(filter))),
        Frame::All(members) => Ok(Some(Frame::All(members.and_last(filter)?))),
        Frame::Any(members) => Ok(Some(Frame::Any(members.and_last(filter)?))),
        Frame::No => Ok(Some(Frame::Negated(filter))),
        Frame::Whole(other) => refused(filter, Frame::Whole(other)),
        Frame::Opened => refused(filter, Frame::Opened),
        Frame::Negated(other) => refused(filter, Frame::Negated(other)),
        Frame::Item(raw, mode) => refused(filter, Frame::Item(raw, mode)),
    }
}

// An octet behind those of an item, after which reading is so far, if it may follow.
fn item_to(raw: Octets, octet: u8, next: Option<Mode>) -> Result<Option<Frame>, AllocError>
    ensures ok { IfOk result (λ frame. frame ≡ option_map (λ next. frames.Item (raw ++ octet ∷ []) next) next) }
{
    match next {
        Some(next) => {
            let mut octets = raw.into_vec();
            octets.push(octet)?;
            Ok(Some(Frame::Item(Octets::from_vec(octets), next)))
        }
        None => Ok(None),
    }
}

// The first octet behind a parenthesis.
fn begun(alloc: Global, class: Class, octet: u8) -> Result<Option<Frame>, AllocError>
    ensures ok { IfOk result (λ frame. frame ≡ begun class octet) }
{
    match class {
        Class::Ampersand => Ok(Some(Frame::All(Members::new(alloc)))),
        Class::Vertbar => Ok(Some(Frame::Any(Members::new(alloc)))),
        Class::Exclamation => Ok(Some(Frame::No)),
        _ => item_to(Octets::from_vec(Vec::new(alloc)), octet, begin(class)),
    }
}

// Drops filters.
fn forget_members(_members: Members) {}

/// An octet of the class, no parenthesis; None where it may not follow.
pub(crate) fn with_octet(
    alloc: Global,
    class: Class,
    octet: u8,
    frame: Frame,
) -> Result<Option<Frame>, AllocError>
    ensures ok { IfOk result (λ next. next ≡ with_octet class octet frame) }
{
    match frame {
        Frame::Opened => begun(alloc, class, octet),
        Frame::Item(raw, mode) => item_to(raw, octet, step(mode, class)),
        Frame::Start | Frame::No => Ok(None),
        Frame::Whole(filter) | Frame::Negated(filter) => {
            forget(filter);
            Ok(None)
        }
        Frame::All(members) | Frame::Any(members) => {
            forget_members(members);
            Ok(None)
        }
    }
}
