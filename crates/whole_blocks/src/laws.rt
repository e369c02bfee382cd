//! The laws of torn texts: each function computes nothing, and what it ensures is a law.

ghost use Rattle.whole_blocks.specs.Laws.{KeepsWhatStandsBefore, IsWhole, LeavesOutWhatEndsNoLine};

/// A text of blocks that is cut anywhere has a front of the blocks as its whole part; in it are all that stand before the
/// cut. So a text that isn't cut is whole, and octets that end no line behind a text make no difference.
pub fn a_torn_text_has_a_front_of_its_blocks()
    ensures cut { KeepsWhatStandsBefore }
    ensures whole { IsWhole }
    ensures tail { LeavesOutWhatEndsNoLine }
{}
