//! The controls of a request (RFC 4511 4.1.11).

ghost use Rattle.std.specs.Prelude.{◌≡◌, nat_lt, count_by, find, option_copied};
ghost use Rattle.session_model.specs.ber_layout.element.Reading.{Gives};
ghost use Rattle.session_model.specs.ber_layout.Layouts.{reads};
ghost use Rattle.op_read.specs.page_core.Values.{page_kind, page_of};
ghost use Rattle.session_hub.specs.Controls.{is_subentries, is_paged, is_search, is_known, is_refused, subentries_layout, flag_in, flag_of, subentries_asked, page_in, page_wanted, page_asked};

use op_read::page_core::{PAGE_KIND, Page, read_page};
use session_model::ber_layout::flag;
use session_model::ldap_msg::{Control, ReadFault, Request};
use std::alloc::Global;

/// The type of the controls of subentries (RFC 3672 3).
const SUBENTRIES: &[u8] = b"1.3.6.1.4.1.4203.1.10.1";

fn is_subentries(control: &Control) -> bool
    ensures exact { result ≡ is_subentries control.now }
{
    control.kind.as_slice() == SUBENTRIES
}

fn is_paged(control: &Control) -> bool
    ensures exact { result ≡ is_paged control.now }
{
    control.kind.as_slice() == PAGE_KIND
}

fn is_search(request: &Request) -> bool
    ensures exact { result ≡ is_search request.now }
{
    matches!(request, Request::Search(_))
}

fn is_known(request: &Request, control: &Control) -> bool
    ensures exact { result ≡ is_known request.now control.now }
{
    is_search(request) && (is_subentries(control) || is_paged(control))
}

/// Whether the request is refused for a critical control that isn't known. Those of subentries and of
/// pages are known in a search, and no other.
pub fn is_refused(request: &Request, controls: &[Control]) -> bool
    ensures exact { result ≡ is_refused request.now controls.now }
{
    controls
        .iter()
        .any(|control| control.critical && !is_known(request, control))
}

fn flag_alone(octets: &[u8]) -> Result<bool, ReadFault>
    ensures exact { Gives (λ flag. (flag, tt)) result (reads subentries_layout octets.now) }
{
    let found = flag(0x01, octets)?;
    if !found.rest.is_empty() {
        return Err(ReadFault::BadMessage);
    }
    Ok(found.value)
}

fn flag_in(control: &Control) -> Result<bool, ReadFault>
    ensures exact { Gives (λ flag. flag) result (flag_in control.now.value) }
{
    match &control.value {
        Some(octets) => flag_alone(octets.as_slice()),
        None => Err(ReadFault::BadMessage),
    }
}

fn flag_of(found: Option<&Control>) -> Result<Option<bool>, ReadFault>
    ensures exact { Gives (λ asked. asked) result (flag_of (option_copied found.entry)) }
{
    match found {
        Some(control) => Ok(Some(flag_in(control)?)),
        None => Ok(None),
    }
}

fn has_two(controls: &[Control]) -> bool
    ensures exact { result ≡ nat_lt 1 (count_by is_subentries controls.now) }
{
    controls
        .iter()
        .filter(|control| is_subentries(control))
        .count()
        > 1
}

fn first_of(controls: &[Control]) -> Option<&Control>
    ensures exact { option_copied result ≡ find is_subentries controls.now }
{
    controls.iter().find(|control| is_subentries(control))
}

/// What the controls of subentries of a search ask for: subentries with TRUE, ordinary entries with
/// FALSE, and neither where there is no such control (RFC 3672 3). `BadMessage` comes where there are
/// two or more, or where the value is absent or isn't a BOOLEAN alone.
pub fn subentries_asked(controls: &[Control]) -> Result<Option<bool>, ReadFault>
    ensures exact { Gives (λ asked. asked) result (subentries_asked controls.now) }
{
    if has_two(controls) {
        return Err(ReadFault::BadMessage);
    }
    flag_of(first_of(controls))
}

fn page_in(alloc: Global, control: &Control) -> Result<Page, ReadFault>
    ensures exact { Gives (λ page. page) result (page_in control.now.value) }
{
    match &control.value {
        Some(octets) => match read_page(alloc, octets.as_slice())? {
            Some(page) => Ok(page),
            None => Err(ReadFault::BadMessage),
        },
        None => Err(ReadFault::BadMessage),
    }
}

fn page_wanted(alloc: Global, found: Option<&Control>) -> Result<Option<Page>, ReadFault>
    ensures exact { Gives (λ asked. asked) result (page_wanted (option_copied found.entry)) }
{
    match found {
        Some(control) => Ok(Some(page_in(alloc, control)?)),
        None => Ok(None),
    }
}

fn has_two_paged(controls: &[Control]) -> bool
    ensures exact { result ≡ nat_lt 1 (count_by is_paged controls.now) }
{
    controls.iter().filter(|control| is_paged(control)).count() > 1
}

fn first_paged(controls: &[Control]) -> Option<&Control>
    ensures exact { option_copied result ≡ find is_paged controls.now }
{
    controls.iter().find(|control| is_paged(control))
}

/// The page that the controls of a search ask for, and none where there is no control of pages (RFC
/// 2696). `BadMessage` comes where there are two or more, or where the value is absent or isn't one of
/// such a control; `NoMemory` where there is none for the cookie.
pub fn page_asked(alloc: Global, controls: &[Control]) -> Result<Option<Page>, ReadFault>
    ensures exact { Gives (λ asked. asked) result (page_asked controls.now) }
{
    if has_two_paged(controls) {
        return Err(ReadFault::BadMessage);
    }
    page_wanted(alloc, first_paged(controls))
}
