//! The laws of texts in one line: each function computes nothing, and what it ensures is a law.

ghost use Rattle.std.specs.Prelude.{◌≡◌, ℕ, List, Some, Ok};
ghost use Rattle.line_text.specs.Escapes.{one_line, escaped, read_back};
ghost use Rattle.dn_names.specs.name.Names.{RdnSequence};
ghost use Rattle.dn_names.specs.name.GoodNames.{IsGoodName};
ghost use Rattle.dn_names.specs.parsing.NameText.{NameText, read_name};
ghost use Rattle.dn_names.specs.Printing.{print_name};

/// Octets that were written with escapes are read back.
pub fn what_is_escaped_is_read_back()
    ensures { (octets : List ℕ) → read_back (escaped octets) ≡ Some octets }
{}

/// The text of a name in one line is a text of the name (RFC 4514 section 3), so that a printed name is read again.
pub fn a_name_in_one_line_is_read_as_it()
    ensures text { (name : RdnSequence) (text : List ℕ) → NameText name text → NameText name (one_line text) }
    ensures exact { (name : RdnSequence) → IsGoodName name → read_name (one_line (print_name name)) ≡ Ok name }
{}
