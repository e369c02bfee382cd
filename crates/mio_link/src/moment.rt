//! When something was heard.

/// A turn of the link, counted from 0, and the second of its clock, from 0 too.
#[derive(Clone, Copy)]
pub(crate) struct Moment {
    pub(crate) turn: u64,
    pub(crate) second: u64,
}
