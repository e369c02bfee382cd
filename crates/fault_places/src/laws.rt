//! The law of refusals: the function computes nothing, and what it ensures is a law.

ghost use Rattle.std.specs.Prelude.{◌≡◌, ℕ, List, [], Ok};
ghost use Rattle.dir_tree.specs.Entry.{EntryInformation};
ghost use Rattle.ldif_load.specs.load.DataFile.{loads};
ghost use Rattle.fault_places.specs.Refusals.{refusal_text};

/// Nothing is said of a data file that is loaded.
pub fn nothing_is_said_of_a_file_that_is_loaded()
    ensures exact { (text : List ℕ) (entries : List EntryInformation) → loads text ≡ Ok entries → refusal_text text ≡ [] }
{}
