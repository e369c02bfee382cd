//! Layouts of BER values as data (X.690; RFC 4511 section 4): what stands in an element's content, read where it lies
//! and written. A type says its layout by `Laid`.
#![tactic(auto)]

mod components;
mod element;
mod kinds;
mod laid;
pub mod laws;
mod write;

pub use components::{
    any, each, each_octets, flag, ignored, integer, list, marked, octets_list, optional,
    optional_octets, required, skipped,
};
pub use element::{
    Element, any_element, begins, first_element, is_further, is_further_but, number, tagged,
};
pub use kinds::{Component, NoMemory, ReadFault};
pub use laid::Laid;
pub use write::{
    enclose, put_each_octets, put_element, put_flag, put_inside, put_list, put_mark, put_number,
    put_octets_list, put_optional,
};
