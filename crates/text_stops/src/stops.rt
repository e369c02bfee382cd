//! Where a text leaves the table.

ghost use Rattle.std.specs.Prelude.{◌≡◌, IfOk};
ghost use Rattle.text_stops.specs.Stops.{item_stop, subtree_stop};

use crate::reading::stop_in;
use std::alloc::{AllocError, Global};

/// No memory was left.
pub type NoMemory = AllocError;

/// The octet, from 0, at which the text of an access control item (X.501 18.4.2) leaves the table of what may stand where,
/// as it is read from its front: that of the first mark, word or string that may not stand where it does, or the end,
/// where something is wanted there. None where neither is so. The error comes where memory is refused.
#[tactic(auto, unfolding(crate::specs::Stops::item_stop))]
pub fn item_stop(alloc: Global, text: &[u8]) -> Result<Option<usize>, NoMemory>
    ensures ok { IfOk result (λ stop. stop ≡ item_stop text.now) }
{
    stop_in(alloc, "ACIItem", text)
}

/// The same in that of a subtree specification (RFC 3672 Appendix A).
#[tactic(auto, unfolding(crate::specs::Stops::subtree_stop))]
pub fn subtree_stop(alloc: Global, text: &[u8]) -> Result<Option<usize>, NoMemory>
    ensures ok { IfOk result (λ stop. stop ≡ subtree_stop text.now) }
{
    stop_in(alloc, "SubtreeSpecification", text)
}
