//! The filters that are open at a place of a text.

ghost use Rattle.std.specs.Prelude.{◌≡◌, nat_lt, length, reverse, option_map, IfOk};
ghost use Rattle.ldap_filter.specs.reading.FilterLayouts.{most_deep};
ghost use Rattle.filter_text.specs.Reading.{stack_of, with_octet, on_top, close_in, step, step_by, nothing_yet};
ghost use Rattle.filter_text.specs.declared.classes.Class.TheVariants as classes;

use crate::classes::{Class, classify};
use crate::frame::{Frame, closed, may_open, with_filter, with_octet};
use ldap_filter::{Filter, MOST_DEEP};
use std::alloc::{AllocError, Global};

/// The innermost filter that is open, and what stands round it, the outermost first.
#[derive(Drop)]
pub(crate) struct Frames {
    pub top: Frame,
    pub below: Vec<Frame>,
}

// The frames below another top.
fn on_top(top: Option<Frame>, below: Vec<Frame>) -> Option<Frames>
    ensures exact { option_map stack_of result ≡ on_top (reverse below.items) top }
{
    match top {
        Some(top) => Some(Frames { top, below }),
        None => None,
    }
}

// A filter that ended, on what stands round it.
fn close_in(filter: Filter, below: Vec<Frame>) -> Result<Option<Frames>, AllocError>
    ensures ok { IfOk result (λ next. option_map stack_of next ≡ close_in filter (reverse below.items)) }
{
    let mut below = below;
    match below.pop() {
        Some(frame) => Ok(on_top(with_filter(filter, frame)?, below)),
        None => Ok(None),
    }
}

// A closing parenthesis.
fn close(alloc: Global, frames: Frames) -> Result<Option<Frames>, AllocError>
    ensures ok { IfOk result (λ next. option_map stack_of next ≡ step_by classes.Close 41 (stack_of frames)) }
{
    let Frames { top, below } = frames;
    match closed(alloc, top)? {
        Some(filter) => close_in(filter, below),
        None => Ok(None),
    }
}

// An opening parenthesis.
fn open(frames: Frames) -> Result<Option<Frames>, AllocError>
    ensures ok { IfOk result (λ next. option_map stack_of next ≡ step_by classes.Open 40 (stack_of frames)) }
{
    let Frames { top, mut below } = frames;
    if !may_open(&top) {
        return Ok(None);
    }
    below.push(top)?;
    Ok(Some(Frames {
        top: Frame::Opened,
        below,
    }))
}

// Another octet.
fn inside(
    alloc: Global,
    class: Class,
    octet: u8,
    frames: Frames,
) -> Result<Option<Frames>, AllocError>
    ensures ok { IfOk result (λ next. option_map stack_of next
        ≡ on_top (stack_of frames).below (with_octet class octet frames.top)) }
{
    let Frames { top, below } = frames;
    Ok(on_top(with_octet(alloc, class, octet, top)?, below))
}

/// An octet; None where it may not follow.
#[tactic(auto, unfolding(crate::specs::Reading::step))]
pub(crate) fn step(alloc: Global, octet: u8, frames: Frames) -> Result<Option<Frames>, AllocError>
    ensures ok { IfOk result (λ next. option_map stack_of next ≡ step octet (stack_of frames)) }
{
    let class = classify(octet);
    match class {
        Class::Open => open(frames),
        Class::Close => close(alloc, frames),
        _ => inside(alloc, class, octet, frames),
    }
}

/// Nothing has come.
pub(crate) fn nothing(alloc: Global) -> Frames
    ensures exact { stack_of result ≡ nothing_yet }
{
    Frames {
        top: Frame::Start,
        below: Vec::new(alloc),
    }
}

/// Whether more filters are open than a filter may be deep.
pub(crate) fn are_too_many(frames: &Frames) -> bool
    ensures exact { result ≡ nat_lt most_deep (length (stack_of frames.now).below) }
{
    frames.below.len() > MOST_DEEP as usize
}
