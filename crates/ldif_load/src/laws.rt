//! The laws of loading: each function computes nothing, and what it ensures is a law.

ghost use Rattle.ldif_load.specs.Laws.{PutsItsEntryIn, GoesOnAfterARecord, GoesOnWhereLoaded, EndsAtABadRecord, EndsAtABadLine, EndsWithItsEntries, BeginsWithoutEntries, IsBadWithoutARecord};

/// A record that is loaded puts its entry among the entries of the tree, in the order of the names, and changes nothing
/// else.
pub fn loading_puts_an_entry_in()
    ensures exact { PutsItsEntryIn }
{}

/// A file is loaded record by record: how it goes on after one, and how it ends. So a caller that reads with
/// `next_record` and loads with `load_record` until one of them fails, or no record is left, loads the file.
pub fn records_are_loaded_one_by_one()
    ensures next { GoesOnAfterARecord }
    ensures loaded { GoesOnWhereLoaded }
    ensures refused { EndsAtABadRecord }
    ensures bad { EndsAtABadLine }
    ensures empty { EndsWithItsEntries }
{}

/// A file begins with no entries, and has a record.
pub fn a_file_begins_with_a_record()
    ensures first { BeginsWithoutEntries }
    ensures empty { IsBadWithoutARecord }
{}
