//! The laws of loading: each function computes nothing, and what it ensures is a law.

ghost use Rattle.std.specs.Prelude.{◌≡◌, ◌≤◌, ℕ, List, Ok, Err};
ghost use Rattle.std.specs.List.{AllByRecursion};
ghost use Rattle.base64.specs.GeneralPurpose.{IsBytes};
ghost use Rattle.dir_tree.specs.Entry.{EntryInformation};
ghost use Rattle.ldif_load.specs.ldif_records.writing.Written.{AreInTable};
ghost use Rattle.ldif_load.specs.ldif_records.writing.WrittenFile.{written_file};
ghost use Rattle.aci_item.specs.Rules.{AreGood, IsGoodTree};
ghost use Rattle.ldif_load.specs.load.DataFile.{FileFault, loads};
ghost use Rattle.data_file.specs.Loadable.{IsLoadable};

/// What a data file of octets loads is a good tree (RFC 2849).
pub fn what_is_loaded_is_good()
    ensures exact { (text : List ℕ) (entries : List EntryInformation) → IsBytes text
        → loads text ≡ Ok entries → IsGoodTree entries }
{}

/// The data file that is written of a good tree gives its entries, in their order, when it is loaded (RFC 2849).
pub fn what_is_written_loads_again()
    ensures exact { (entries : List EntryInformation) → IsGoodTree entries
        → AllByRecursion IsLoadable entries → loads (written_file entries) ≡ Ok entries }
{}

/// Each entry of a data file that loads is one that a file written of it gives again: its name is a good one, and its
/// values are of the octets of the file.
pub fn what_is_loaded_is_loadable()
    ensures exact { (text : List ℕ) (entries : List EntryInformation) → IsBytes text
        → loads text ≡ Ok entries → AllByRecursion IsLoadable entries }
{}

/// The types of good entries are in the table.
pub fn the_types_of_good_entries_are_in_the_table()
    ensures exact { (entries : List EntryInformation) → AreGood entries
        → AllByRecursion (λ (entry : EntryInformation). AreInTable entry.attributes) entries }
{}

/// The line of a refused data file is one of its lines, which are counted from 1.
pub fn a_bad_line_is_counted_from_one()
    ensures exact { (text : List ℕ) (fault : FileFault) → loads text ≡ Err fault → 1 ≤ fault.line }
{}
