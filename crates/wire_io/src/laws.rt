//! Laws of the definitions.

ghost use Rattle.wire_io.specs.Laws.{ScriptsComeInPieces, EventsBringScriptsOn, NumbersArePutInOrder};

/// While no connection is on hold, a script's events come in pieces of the buffer's length, and then
/// Stop for ever.
pub fn scripts_come_in_pieces()
    ensures law { ScriptsComeInPieces }
{}

/// With a buffer of one length, each event that a link gives brings its script on by that event.
pub fn events_bring_scripts_on()
    ensures law { EventsBringScriptsOn }
{}

/// Numbers put in rising order are the same numbers, each at most those after it.
pub fn numbers_are_put_in_order()
    ensures law { NumbersArePutInOrder }
{}
