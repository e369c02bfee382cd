//! The laws of the order: the function computes nothing, and what it ensures is a law.

ghost use Rattle.std.specs.Prelude.{◌≡◌, ◌==◌, ℕ, List, filter, fold};
ghost use Rattle.acdf_filters.specs.aci_item.AciTuples.{AciTuple};
ghost use Rattle.acdf_filters.specs.declared.question.Question.{Question};
ghost use Rattle.acdf_filters.specs.declared.standing.Standing.{Standing};
ghost use Rattle.acdf_filters.specs.weighing.Weighing.{weighed_for};
ghost use Rattle.aci_lists.specs.Order.{IsHighestFirst, highest_first};

/// Tuples put in order are in order: exactly the tuples, those of one precedence as they came. Weighing them so leaves the
/// same state as weighing them as they came.
pub fn the_order_of_tuples_changes_no_state()
    ensures ordered { (tuples : List AciTuple) → IsHighestFirst (highest_first tuples) }
    ensures same { (precedence : ℕ) (tuples : List AciTuple)
        → filter (λ tuple. tuple.precedence == precedence) (highest_first tuples)
        ≡ filter (λ tuple. tuple.precedence == precedence) tuples }
    ensures exact { (question : Question) (seen : Standing) (tuples : List AciTuple)
        → fold (weighed_for question) seen (highest_first tuples) ≡ fold (weighed_for question) seen tuples }
{}
