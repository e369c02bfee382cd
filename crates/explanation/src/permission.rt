//! For which permission.

ghost use Rattle.std.specs.Prelude.{◌≡◌};
ghost use Rattle.acdf_filters.specs.aci_item.ItemPrinted.{permission_name};
ghost use Rattle.explanation.specs.PermissionWords.{asked_permissions, permission_of};

use acdf_filters::aci_item::Permission;

static ASKED: [Permission; 12] = [
    Permission::Add,
    Permission::DiscloseOnError,
    Permission::Read,
    Permission::Remove,
    Permission::Browse,
    Permission::Export,
    Permission::Import,
    Permission::Modify,
    Permission::Rename,
    Permission::ReturnDn,
    Permission::Compare,
    Permission::FilterMatch,
];

/// The permissions that operations ask for (X.501 18.2.3 and 18.2.4), in the order of their type: all but Invoke.
pub fn asked_permissions() -> &'static [Permission]
    ensures exact { result.now ≡ asked_permissions }
{
    &ASKED
}

/// The name of a permission, as bits of access control items have it behind `grant`.
pub fn permission_name(permission: Permission) -> &'static str
    ensures exact { result.now ≡ permission_name permission }
{
    match permission {
        Permission::Add => "Add",
        Permission::DiscloseOnError => "DiscloseOnError",
        Permission::Read => "Read",
        Permission::Remove => "Remove",
        Permission::Browse => "Browse",
        Permission::Export => "Export",
        Permission::Import => "Import",
        Permission::Modify => "Modify",
        Permission::Rename => "Rename",
        Permission::ReturnDn => "ReturnDN",
        Permission::Compare => "Compare",
        Permission::FilterMatch => "FilterMatch",
        Permission::Invoke => "Invoke",
    }
}

/// The permission that operations ask for whose name the octets of a word are, letter for letter; None where there is none.
pub fn permission_named(word: &[u8]) -> Option<Permission>
    ensures exact { result ≡ permission_of word.now }
{
    asked_permissions().iter().copied().find(|permission| word
        == permission_name(*permission).as_bytes())
}
