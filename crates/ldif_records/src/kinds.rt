//! The types of lines.

ghost use Rattle.std.specs.Prelude.{◌≡◌, ◌==◌, ◌||◌};
ghost use Rattle.std.specs.Char.{is_ascii_alphanumeric};
ghost use Rattle.std.specs.List.{list_all};
ghost use Rattle.dir_tree.specs.schema_tables.Naming.{is_keystring};
ghost use Rattle.ldif_records.specs.Fields.{is_kind, is_changetype, is_dn};

use dir_tree::schema_tables::is_dotted_oid;

// Whether each octet is a letter, a digit or a hyphen.
fn are_key_octets(octets: &[u8]) -> bool
    ensures { result ≡ list_all (λ octet. is_ascii_alphanumeric octet || octet == 45) octets.now }
{
    octets
        .iter()
        .all(|octet| octet.is_ascii_alphanumeric() || *octet == b'-')
}

// Whether the text is a keystring (RFC 4512 1.4): a letter, and then any of letters, digits and hyphens.
fn is_keystring(text: &[u8]) -> bool
    ensures { result ≡ is_keystring text.now }
{
    if text.is_empty() {
        return false;
    }
    text[0].is_ascii_alphabetic() && are_key_octets(text.split_at(1).1)
}

/// Whether the octets are the text of an attribute's type: a keystring or a dotted object identifier (RFC 4512 1.4).
#[tactic(auto, unfolding(crate::specs::Fields::is_kind))]
pub fn is_kind(text: &[u8]) -> bool
    ensures { result ≡ is_kind text.now }
{
    is_keystring(text) || is_dotted_oid(text)
}

/// Whether the type is `changetype`, in any case of letters.
pub fn is_changetype(kind: &[u8]) -> bool
    ensures { result ≡ is_changetype kind.now }
{
    kind.eq_ignore_ascii_case(b"changetype")
}

/// Whether the type is `dn`, as it stands.
#[tactic(auto, unfolding(crate::specs::Fields::is_dn))]
pub(crate) fn is_dn(kind: &[u8]) -> bool
    ensures { result ≡ is_dn kind.now }
{
    kind == b"dn".as_slice()
}
