//! Search requests (RFC 4511 4.5.1).

ghost use Rattle.std.specs.Prelude.{◌≡◌, ◌≤◌, ◌++◌, OnOk};
ghost use Rattle.ber_layout.specs.Layouts.{writes};
ghost use Rattle.ber_layout.specs.element.Reading.{Gives};
ghost use Rattle.ber_layout.specs.Spellings.{Extends};
ghost use Rattle.ldap_msg.specs.Search.{scope_number, scope_from, is_base, search_layout, limits_layout, search_of, limits_parts, search_parts};

use crate::kinds::{NoMemory, SearchRequest, SearchScope};
use crate::reading::MAX_ID;
use ber_layout::{
    ReadFault, any, flag, integer, is_further, octets_list, put_element, put_flag, put_number,
    put_octets_list, required, skipped,
};
use ldap_filter::{put_filter, read_filter};
use plain_values::Octets;
use std::alloc::Global;

impl SearchScope {
    /// The scope's number.
    pub fn number(self) -> u8
        ensures exact { result ≡ scope_number self }
        ensures range { result ≤ 2 }
    {
        match self {
            SearchScope::BaseObject => 0,
            SearchScope::SingleLevel => 1,
            SearchScope::WholeSubtree => 2,
        }
    }

    /// Whether it is the base object alone.
    pub fn is_base(self) -> bool
        ensures { result ≡ is_base self }
    {
        match self {
            SearchScope::BaseObject => true,
            SearchScope::SingleLevel | SearchScope::WholeSubtree => false,
        }
    }

    /// The scope of a number up to 2.
    pub fn of(number: u32) -> SearchScope
        requires { number ≤ 2 }
        ensures exact { result ≡ scope_from number }
        ensures back { scope_number result ≡ number }
    {
        match number {
            0 => SearchScope::BaseObject,
            1 => SearchScope::SingleLevel,
            _ => SearchScope::WholeSubtree,
        }
    }
}

/// The search that a content says.
#[tactic(auto, unfolding(ber_layout::specs::Layouts::reads_into))]
pub fn search(alloc: Global, content: &[u8]) -> Result<SearchRequest, ReadFault>
    ensures { Gives (λ search. search) result (search_of content.now) }
{
    let base = required::<Octets>(alloc, 0x04, content)?;
    let scope = integer(0x0a, 0, 2, base.rest)?;
    let behind_aliases = skipped(0x0a, 0, 3, scope.rest)?;
    let size = integer(0x02, 0, MAX_ID, behind_aliases)?;
    let behind_time = skipped(0x02, 0, MAX_ID, size.rest)?;
    let kinds_only = flag(0x01, behind_time)?;
    let element = any(kinds_only.rest)?;
    let selection = octets_list(alloc, 0x30, 0x04, element.rest)?;
    if !is_further(selection.rest) {
        return Err(ReadFault::BadMessage);
    }
    let filter = read_filter(alloc, element.tag, element.content)?;
    Ok(SearchRequest {
        base: base.value,
        scope: SearchScope::of(scope.value),
        size: size.value,
        kinds_only: kinds_only.value,
        filter,
        selection: selection.value,
    })
}

fn put_limits(out: &mut Vec<u8>, search: &SearchRequest) -> Result<(), NoMemory>
    ensures ok { OnOk result (out.new.items ≡ out.old.items ++ writes limits_layout (limits_parts search.now)) }
    ensures kept { Extends out.old.items out.new.items }
{
    put_number(out, 0x02, search.size)?;
    put_number(out, 0x02, 0)?;
    put_flag(out, 0x01, search.kinds_only)?;
    put_filter(out, &search.filter)?;
    put_octets_list(out, 0x30, 0x04, search.selection.as_slice())
}

/// Appends the content of a search request; neither derefAliases nor a time limit is asked for.
pub fn put_search(out: &mut Vec<u8>, search: &SearchRequest) -> Result<(), NoMemory>
    ensures ok { OnOk result (out.new.items ≡ out.old.items ++ writes search_layout (search_parts search.now)) }
    ensures kept { Extends out.old.items out.new.items }
{
    put_element(out, 0x04, search.base.as_slice())?;
    put_number(out, 0x0a, u32::from(search.scope.number()))?;
    put_number(out, 0x0a, 0)?;
    put_limits(out, search)
}
