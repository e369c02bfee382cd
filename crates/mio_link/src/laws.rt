//! Laws of the definitions: the clause is the law, and the body does nothing.

ghost use Rattle.mio_link.specs.Turns.{EachHasItsTurn};

/// Of places that are asked in turn, one that stays in the set is asked within as many turns as there may be
/// places, whatever others come and go.
pub fn each_place_has_its_turn()
    ensures law { EachHasItsTurn }
{}
