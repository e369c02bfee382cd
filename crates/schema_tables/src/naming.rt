//! How octets name a row of a table.
ghost use Rattle.std.specs.Prelude.{◌≡◌, ◌||◌, ◌==◌, map, find, option_map, position};
ghost use Rattle.std.specs.Char.{is_ascii_alphanumeric};
ghost use Rattle.std.specs.List.{list_all};
ghost use Rattle.std.specs.Option.{option_copied};
ghost use Rattle.schema_tables.specs.Naming.{Named, is_keystring, is_named, is_same_name};
ghost use Rattle.schema_tables.specs.Oids.{oid_among};

/// Whether the octets are a keystring (RFC 4512 section 1.4): a letter, and then letters, digits and hyphens.
pub fn is_keystring(octets: &[u8]) -> bool
    ensures exact { result ≡ is_keystring octets.now }
{
    match octets.split_first() {
        Some((first, rest)) => first.is_ascii_alphabetic() && are_keychars(rest),
        None => false,
    }
}

// Whether the octets are letters, digits and hyphens alone.
fn are_keychars(octets: &[u8]) -> bool
    ensures exact { result ≡ list_all (λ octet. is_ascii_alphanumeric octet || octet == 45) octets.now }
{
    octets
        .iter()
        .all(|octet| octet.is_ascii_alphanumeric() || *octet == b'-')
}

// The octets are the name, but for the case of ASCII letters.
pub(crate) fn is_same_name(name: &str, octets: &[u8]) -> bool
    ensures exact { result ≡ is_same_name name.now octets.now }
{
    name.as_bytes().eq_ignore_ascii_case(octets)
}

// The octets are the name, but for the case of ASCII letters, or the object identifier.
pub(crate) fn is_named(name: &str, oid: &str, octets: &[u8]) -> bool
    ensures exact { result ≡ is_named name.now oid.now octets.now }
{
    is_same_name(name, octets) || oid.as_bytes() == octets
}

// A row of a table: a name, and the object identifier in dotted form that it stands for.
pub(crate) trait NamedRow {
    ghost named: { Self → Named };

    fn name(&self) -> &'static str
        ensures exact { result.now ≡ (named self.now).name };

    fn oid(&self) -> &'static str
        ensures exact { result.now ≡ (named self.now).oid };
}

// The place of the first row that the octets name.
pub(crate) fn place_of<R: NamedRow>(rows: &[R], octets: &[u8]) -> Option<usize>
    ensures exact { result
        ≡ position (λ row. is_named (R.named row).name (R.named row).oid octets.now) rows.now }
{
    rows.iter()
        .position(|row| is_named(row.name(), row.oid(), octets))
}

// The first row whose name the octets are.
fn row_named<'rows, R: NamedRow>(rows: &'rows [R], octets: &[u8]) -> Option<&'rows R>
    ensures exact { option_copied result ≡ find (λ row. is_same_name (R.named row).name octets.now) rows.now }
{
    rows.iter().find(|row| is_same_name(row.name(), octets))
}

// The object identifier of the first of these rows whose name the octets are.
#[tactic(auto, using(crate::proofs::attributes::TableLemmas::oid_among_map))]
pub(crate) fn oid_in<R: NamedRow>(rows: &[R], octets: &[u8]) -> Option<&'static str>
    ensures exact { option_map (λ oid. oid.now) result ≡ oid_among (map R.named rows.now) octets.now }
{
    match row_named(rows, octets) {
        Some(row) => Some(row.oid()),
        None => None,
    }
}
