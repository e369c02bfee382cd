//! How a loop ends.

/// Why a loop over a link ended.
#[derive(Clone, Copy, Debug, PartialEq, Eq)]
pub enum Ended {
    /// The link gave Stop.
    Stopped,
    /// As many events were heard as there were turns, and none was Stop.
    TurnsSpent,
    /// The link failed to give an event, which its count of faults shows.
    LinkFault,
    /// The link failed to store changes or to have them on the disk, which the count of its store's faults shows;
    /// no reply was sent that may show them.
    StoreFault,
    /// There was no memory, or a connection was cut, for want of memory or since more waited for it than it has room for.
    NoMemory,
}
