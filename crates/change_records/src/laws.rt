//! The laws of files of changes: each function computes nothing, and what it ensures is a law.

ghost use Rattle.change_records.specs.Laws.{SaysWhatWasWritten, SaysFrontWhereCut, WritesKnownTypes};

/// A file of changes, as its head and records are written, says the digest and the changes when it is read; and where it is
/// cut at any octet, its whole part says the changes whose records stand before the cut, and of the others a front.
pub fn a_file_of_changes_is_read_again()
    ensures exact { SaysWhatWasWritten }
    ensures cut { SaysFrontWhereCut }
{}

/// A text that names a type of the schema, by its name in any case or by its object identifier, may stand in a record. So
/// each type of a request that is accepted may.
pub fn known_types_can_be_written()
    ensures exact { WritesKnownTypes }
{}
