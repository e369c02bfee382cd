//! Filters read from text.

ghost use Rattle.plain_values.specs.Answers.{Answers};
ghost use Rattle.filter_text.specs.Faults.{cause_of};
ghost use Rattle.filter_text.specs.Reading.{ended, filter_in};

use crate::error::FilterFault;
use crate::frame::Frame;
use crate::frames::{are_too_many, nothing, step};
use ldap_filter::Filter;
use std::alloc::Global;

// What the end of the text gives.
fn ended(place: usize, frame: Frame) -> Result<Filter, FilterFault>
    ensures exact { Answers (λ filter. filter) cause_of result (ended place frame) }
{
    match frame {
        Frame::Whole(filter) => Ok(filter),
        Frame::Start => Err(FilterFault::Text { place }),
        Frame::Opened => Err(FilterFault::Text { place }),
        Frame::No => Err(FilterFault::Text { place }),
        Frame::All(_members) => Err(FilterFault::Text { place }),
        Frame::Any(_members) => Err(FilterFault::Text { place }),
        Frame::Negated(_member) => Err(FilterFault::Text { place }),
        Frame::Item(_raw, _mode) => Err(FilterFault::Text { place }),
    }
}

/// The filter of a text (RFC 4515 section 3, without extensible matches; the lists of `&` and `|` may be empty, as in
/// RFC 4526). `Text` comes exactly where the octets are the text of no filter, and none of their fronts is too deep;
/// `TooDeep` exactly where more than 64 filters are open in a front with which the text of some filter begins; and
/// `NoMemory` may come in place of any answer.
#[tactic(auto, unfolding(crate::specs::Reading::filter_in))]
pub fn read_filter(alloc: Global, text: &[u8]) -> Result<Filter, FilterFault>
    ensures exact { Answers (λ filter. filter) cause_of result (filter_in text.now) }
{
    let mut frames = nothing(alloc);
    for (place, octet) in text.iter().enumerate() {
        match step(alloc, *octet, frames)? {
            Some(next) => frames = next,
            None => return Err(FilterFault::Text { place }),
        }
        if are_too_many(&frames) {
            return Err(FilterFault::TooDeep);
        }
    }
    ended(text.len(), frames.top)
}
