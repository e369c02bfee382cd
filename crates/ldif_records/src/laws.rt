//! The laws of data files: each function computes nothing, and what it ensures is a law.

ghost use Rattle.std.specs.Prelude.{◌≡◌, ◌↔◌, ℕ, List, [], ◌∷◌, IsTrue, Some, Ok};
ghost use Rattle.std.specs.List.{AllByRecursion};
ghost use Rattle.base64.specs.Engines.{standard};
ghost use Rattle.base64.specs.GeneralPurpose.{IsBytes, encode_of};
ghost use Rattle.dir_tree.specs.schema_tables.Attributes.{IsAttrId};
ghost use Rattle.dir_tree.specs.schema_tables.Naming.{is_keystring};
ghost use Rattle.dir_tree.specs.dn_names.name.Names.{Keyed};
ghost use Rattle.dir_tree.specs.Entry.{EntryInformation};
ghost use Rattle.dir_tree.specs.attributes.Changes.{with_value};
ghost use Rattle.std.specs.Str.{IsAscii};
ghost use Rattle.ldif_records.specs.declared.types.Position.{Position};
ghost use Rattle.ldif_records.specs.declared.types.Record.{Record};
ghost use Rattle.ldif_records.specs.Fields.{is_kind, decoded};
ghost use Rattle.ldif_records.specs.lines.Places.{file_start, IsNext, records_from};
ghost use Rattle.ldif_records.specs.writing.Written.{AreInTable, written_line, written_entry};
ghost use Rattle.ldif_records.specs.writing.WrittenFile.{IsWritable, record_from, entry_records, written_file};

/// A file of entries, as it is written, gives the records of the entries in their order when it is read; and the
/// record of one entry gives this one record.
pub fn a_written_file_is_read_again()
    ensures file { (entries : List EntryInformation) → AllByRecursion IsWritable entries
        → records_from (written_file entries) file_start ≡ entry_records 2 entries }
    ensures entry { (entry : EntryInformation) → IsWritable entry
        → records_from (written_entry entry) file_start ≡ Ok (record_from 1 entry) ∷ [] }
{}

/// A written line of a type is the line of one value.
pub fn a_written_line_is_of_one_value()
    ensures only { (kind one other : List ℕ) → IsTrue (is_keystring kind)
        → IsBytes one → IsBytes other
        → written_line kind one ≡ written_line kind other → one ≡ other }
{}

/// A text is read as base64 exactly where it is the padded encoding of the octets.
pub fn base64_is_padded_and_leaves_no_bits()
    ensures exact { (text octets : List ℕ) → IsBytes text → IsBytes octets
        → (decoded text ≡ Some octets) ↔ (text ≡ encode_of standard octets) }
{}

/// The types of an entry stay in the table as values of such types come.
pub fn types_stay_in_the_table()
    ensures with_value { (kind : ℕ) (value : Keyed) (entry : EntryInformation) → IsAttrId kind
        → AreInTable entry.attributes → AreInTable (with_value kind value entry).attributes }
{}

/// The type of each line of a record that is read has the form of a type, and is ASCII.
pub fn the_types_of_a_record_have_their_form()
    ensures form { (text : List ℕ) (from to : Position) (found : Record) → IsNext text from found to
        → AllByRecursion (λ line. IsTrue (is_kind line.kind)) found.lines }
    ensures ascii { (kind : List ℕ) → IsTrue (is_kind kind) → IsAscii kind }
{}
