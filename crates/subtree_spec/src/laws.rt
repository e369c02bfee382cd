//! The laws of subtree specifications: each function computes nothing, and what it ensures is a law.

ghost use Rattle.std.specs.Prelude.{◌≡◌, ℕ, List, Ok};
ghost use Rattle.gser_tree.specs.Writing.{text_of};
ghost use Rattle.subtree_spec.specs.Subtrees.{Subtree};
ghost use Rattle.subtree_spec.specs.SubtreeText.{SubText, read_subtree};
ghost use Rattle.subtree_spec.specs.SubtreePrinted.{print_subtree};
ghost use Rattle.subtree_spec.specs.GoodSubtrees.{IsGoodSubtree};

/// A specification that some text gives is good, its printed form is a text that gives it, and is read as it.
pub fn a_printed_specification_is_read_again()
    ensures good { (spec : Subtree) (text : List ℕ) → SubText spec text → IsGoodSubtree spec }
    ensures printed { (spec : Subtree) → IsGoodSubtree spec → SubText spec (text_of (print_subtree spec)) }
    ensures exact { (spec : Subtree) → IsGoodSubtree spec → read_subtree (text_of (print_subtree spec)) ≡ Ok spec }
{}
