//! The value of the control of pages (RFC 2696 2), read.

ghost use Rattle.std.specs.Prelude.{◌≡◌, Some, IfOk, IfSome};
ghost use Rattle.ber_layout.specs.element.Reading.{Gives};
ghost use Rattle.ber_layout.specs.Layouts.{reads};
ghost use Rattle.page_core.specs.declared.page.Page.{Page};
ghost use Rattle.page_core.specs.Values.{page_layout, value_layout, value_parts, SaysPage, page_of};

use ber_layout::{ReadFault, integer, required, tagged};
use ldap_msg::plain_values::Octets;
use std::alloc::{AllocError, Global};

/// The one error of this crate's calls: there was no memory.
pub type NoMemory = AllocError;

/// The type of the control of pages (RFC 2696 2).
pub const PAGE_KIND: &[u8] = b"1.2.840.113556.1.4.319";

/// What the control of pages asks for (RFC 2696 2).
#[derive(Debug, Drop)]
pub struct Page {
    /// The most entries of the page, from 0 to 2,147,483,647; 0 asks for none.
    pub size: u32,
    /// What the page before ended with, and nothing for the first page.
    pub cookie: Octets,
}

/// What the content of the SEQUENCE asks for.
#[tactic(auto, unfolding(ber_layout::specs::Layouts::reads_into))]
fn page_in(alloc: Global, content: &[u8]) -> Result<Page, ReadFault>
    ensures exact { Gives (λ page. (page.size, (page.cookie, tt))) result (reads page_layout content.now) }
{
    let size = integer(0x02, 0, 2_147_483_647, content)?;
    let cookie = required::<Octets>(alloc, 0x04, size.rest)?;
    if !cookie.rest.is_empty() {
        return Err(ReadFault::BadMessage);
    }
    Ok(Page {
        size: size.value,
        cookie: cookie.value,
    })
}

#[tactic(auto, unfolding(ber_layout::specs::Layouts::reads_into, ber_layout::specs::components::Components::required_of))]
fn page_alone(alloc: Global, value: &[u8]) -> Result<Page, ReadFault>
    ensures exact { Gives value_parts result (reads value_layout value.now) }
{
    let outer = tagged(0x30, value)?;
    let page = page_in(alloc, outer.content)?;
    if !outer.rest.is_empty() {
        return Err(ReadFault::BadMessage);
    }
    Ok(page)
}

/// What the value of a control asks for: `None` exactly where it isn't the SEQUENCE of a size from 0
/// to 2,147,483,647 and a cookie alone (RFC 2696 2). The error is want of memory.
#[tactic(auto, unfolding(crate::specs::Values::page_of))]
pub fn read_page(alloc: Global, value: &[u8]) -> Result<Option<Page>, NoMemory>
    // What is read is what the value says, and what it says is read.
    ensures found { IfOk result (λ found. IfSome found (λ page. SaysPage page value.now)) }
    ensures only { (other : Page) → SaysPage other value.now → IfOk result (λ found. found ≡ Some other) }
    ensures exact { IfOk result (λ found. found ≡ page_of value.now) }
{
    match page_alone(alloc, value) {
        Ok(page) => Ok(Some(page)),
        Err(ReadFault::BadMessage) => Ok(None),
        Err(ReadFault::NoMemory) => Err(AllocError),
    }
}
