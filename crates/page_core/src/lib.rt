//! Pages of what a search finds (RFC 2696): what is answered page by page, the value of the control read, and the end of
//! a page written.
#![tactic(auto)]

mod ending;
pub mod laws;
mod page;

pub use ending::put_page_end;
pub use page::{NoMemory, PAGE_KIND, Page, read_page};
pub use read_model;
