//! The filter of a search.

ghost use Rattle.std.specs.Prelude.{◌≡◌, is_ok, IfOk, Option, Some, None};
ghost use Rattle.std.specs.Option.{option_map};
ghost use Rattle.filter_text.specs.Reading.{filter_in};
ghost use Rattle.client_core.specs.Picks.{presence, filter_by};

use crate::types::NoMemory;
use filter_text::{FilterFault, read_filter};
use ldap_msg::plain_values::Octets;
use ldap_msg::{Filter, Node};
use std::alloc::{AllocError, Global};

// A filter that isn't wanted any more.
fn forget(_filter: Filter) {}

/// Whether the text is one of a filter.
pub(crate) fn is_filter(alloc: Global, text: &[u8]) -> Result<bool, NoMemory>
    ensures ok { IfOk result (λ is. is ≡ is_ok (filter_in text.now)) }
{
    match read_filter(alloc, text) {
        Ok(filter) => {
            forget(filter);
            Ok(true)
        }
        Err(FilterFault::Text { place: _ }) => Ok(false),
        Err(FilterFault::TooDeep) => Ok(false),
        Err(FilterFault::NoMemory) => Err(AllocError),
    }
}

// The filter that stands for none.
fn presence(alloc: Global) -> Result<Filter, NoMemory>
    ensures ok { IfOk result (λ filter. filter ≡ presence) }
{
    let kind = Octets::from_vec(b"objectClass".to_vec(alloc)?);
    Ok(Filter {
        node: Node::Present(kind),
    })
}

// The filter of a text.
fn filter_of(alloc: Global, text: &[u8]) -> Result<Filter, NoMemory>
    ensures ok { IfOk result (λ filter. filter ≡ filter_by (Some text.now)) }
{
    match read_filter(alloc, text) {
        Ok(filter) => Ok(filter),
        Err(FilterFault::Text { place: _ }) => presence(alloc),
        Err(FilterFault::TooDeep) => presence(alloc),
        Err(FilterFault::NoMemory) => Err(AllocError),
    }
}

/// The filter of a search whose filter has this text, if there is one.
pub(crate) fn filter_by(alloc: Global, text: Option<&[u8]>) -> Result<Filter, NoMemory>
    ensures ok { IfOk result (λ filter. filter ≡ filter_by (option_map (λ text. text.now) text.entry)) }
{
    match text {
        Some(text) => filter_of(alloc, text),
        None => presence(alloc),
    }
}
