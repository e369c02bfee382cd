//! Sets of grants and denials.

ghost use Rattle.std.specs.Prelude.{◌≡◌, ◌<◌, [], ◌∷◌, map, filter, length};
ghost use Rattle.std.specs.Prelude.{◌++◌, if◌then◌else◌, IfOk, OnOk, find, option_map, string_bytes};
ghost use Rattle.std.specs.List.{list_any};
ghost use Rattle.std.specs.Option.{option_copied};
ghost use Rattle.std.specs.Str.{bytes_eq};
ghost use Rattle.gser_tree.specs.Writing.{text_of, print_word, PutsMembers};
ghost use Rattle.aci_item.specs.Permission.{bit_place, all_bits, has_bit, in_order, put_bit, permissions_of, has_some};
ghost use Rattle.aci_item.specs.ItemPrinted.{bit_name, print_bits};
ghost use Rattle.aci_item.specs.Rows.{bit_of, named_bit, row_of};

use crate::permission::Permission;
use gser_tree::{put_end, put_separator};
use std::alloc::AllocError;
use std::marker::Model;

/// A set of grants and denials (X.501 18.4.2.4). Contracts see its members in rising order.
#[derive(Debug, Drop)]
pub struct Bits(u32);

impl Model for Bits {
    ghost use Rattle.std.specs.Prelude.{List};
    ghost use Rattle.aci_item.specs.Permission.{Bit, bits_of};

    ghost Value = { List Bit };

    ghost view = { λ bits. bits_of bits.0 };
}

// The place of a grant, or of a denial, among the bits.
fn bit_place(permission: Permission, grants: bool) -> u32
    ensures exact { result ≡ bit_place (record { permission = permission; grants = grants }) }
    ensures fits { result < 26 }
{
    if grants {
        2 * permission.place()
    } else {
        2 * permission.place() + 1
    }
}

impl Bits {
    /// No grant and no denial.
    pub fn none() -> Bits
        ensures exact { result ≡ [] }
    {
        Bits(0)
    }

    /// The set with a grant, or with a denial.
    pub fn with(self, permission: Permission, grants: bool) -> Bits
        ensures exact { result ≡ put_bit (record { permission = permission; grants = grants }) self }
    {
        Bits(self.0 | (1 << bit_place(permission, grants)))
    }

    /// Whether the permission is granted, or denied.
    pub fn has(&self, permission: Permission, grants: bool) -> bool
        ensures exact { result ≡ has_bit permission grants self.now }
    {
        self.0 & (1 << bit_place(permission, grants)) != 0
    }

    /// The same set.
    pub fn copy(&self) -> Bits
        ensures exact { result ≡ self.now }
    {
        Bits(self.0)
    }

    /// Whether any permission is granted, or denied.
    pub fn has_some(&self, grants: bool) -> bool
        ensures exact { result ≡ has_some (permissions_of grants self.now) }
    {
        self.has_any(Permission::all(), grants)
    }

    // The members stand in rising order, each once.
    fn stand_in_order(&self)
        ensures ordered { in_order self.now ≡ self.now }
    {
        let _ = &self.0;
    }

    // Whether any of the permissions is granted, or denied.
    fn has_any(&self, permissions: &[Permission], grants: bool) -> bool
        ensures exact { result ≡ list_any (λ permission. has_bit permission grants self.now) permissions.now }
    {
        permissions
            .iter()
            .any(|permission| self.has(*permission, grants))
    }
}

// The name of a bit.
struct Row {
    name: &'static str,
    permission: Permission,
    grants: bool,
}

// A row of the table.
macro_rules! row {
    ($name:literal, $permission:ident, $grants:literal) => {
        Row {
            name: $name,
            permission: Permission::$permission,
            grants: $grants,
        }
    };
}

// Each bit in rising order.
#[rattlefmt::skip]
static ROWS: [Row; 26] = [
    row!("grantAdd", Add, true),
    row!("denyAdd", Add, false),
    row!("grantDiscloseOnError", DiscloseOnError, true),
    row!("denyDiscloseOnError", DiscloseOnError, false),
    row!("grantRead", Read, true),
    row!("denyRead", Read, false),
    row!("grantRemove", Remove, true),
    row!("denyRemove", Remove, false),
    row!("grantBrowse", Browse, true),
    row!("denyBrowse", Browse, false),
    row!("grantExport", Export, true),
    row!("denyExport", Export, false),
    row!("grantImport", Import, true),
    row!("denyImport", Import, false),
    row!("grantModify", Modify, true),
    row!("denyModify", Modify, false),
    row!("grantRename", Rename, true),
    row!("denyRename", Rename, false),
    row!("grantReturnDN", ReturnDn, true),
    row!("denyReturnDN", ReturnDn, false),
    row!("grantCompare", Compare, true),
    row!("denyCompare", Compare, false),
    row!("grantFilterMatch", FilterMatch, true),
    row!("denyFilterMatch", FilterMatch, false),
    row!("grantInvoke", Invoke, true),
    row!("denyInvoke", Invoke, false),
];

// The whole table.
fn rows() -> &'static [Row]
    ensures exact { map row_of result.now ≡ map named_bit all_bits }
{
    &ROWS
}

// The first row of a name.
fn row_named<'rows>(rows: &'rows [Row], text: &str) -> Option<&'rows Row>
    ensures exact { option_copied result ≡ find (λ row. bytes_eq text.now row.name.now) rows.now }
{
    rows.iter().find(|row| text == row.name)
}

/// The permission that a bit of this name grants, or denies.
pub(crate) fn bit_named(text: &str) -> Option<(Permission, bool)>
    ensures exact { option_map bit_of result ≡ find (λ bit. bytes_eq text.now (bit_name bit)) all_bits }
{
    match row_named(rows(), text) {
        Some(row) => Some((row.permission, row.grants)),
        None => None,
    }
}

// Writes a word as a member, where it is there.
fn put_word(out: &mut String, first: bool, word: &str, here: bool) -> Result<bool, AllocError>
    ensures ok { IfOk result (λ next. PutsMembers (string_bytes out.old) (string_bytes out.new) first next
        (if here then print_word word.now ∷ [] else [])) }
{
    if !here {
        return Ok(first);
    }
    put_separator(out, first)?;
    out.push_str(word)?;
    Ok(false)
}

/// Writes the names of bits in braces.
pub(crate) fn put_bits(out: &mut String, bits: &Bits) -> Result<(), AllocError>
    ensures ok { OnOk result (string_bytes out.new ≡ string_bytes out.old ++ text_of (print_bits bits.now)) }
{
    bits.stand_in_order();
    let mut first = true;
    for row in rows() {
        first = put_word(out, first, row.name, bits.has(row.permission, row.grants))?;
    }
    put_end(out, first)?;
    Ok(())
}
