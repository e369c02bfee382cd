//! Permissions.

ghost use Rattle.std.specs.Prelude.{◌≡◌, ◌<◌};
ghost use Rattle.aci_item.specs.Permission.{place_of, permissions};

/// What may be granted or denied (X.501 18.2.3 and 18.2.4), in the order of the bits of grantsAndDenials.
#[derive(Clone, Copy, PartialEq, Eq, Debug, Drop)]
pub enum Permission {
    Add,
    DiscloseOnError,
    Read,
    Remove,
    Browse,
    Export,
    Import,
    Modify,
    Rename,
    ReturnDn,
    Compare,
    FilterMatch,
    /// No operation asks for it.
    Invoke,
}

static PERMISSIONS: [Permission; 13] = [
    Permission::Add,
    Permission::DiscloseOnError,
    Permission::Read,
    Permission::Remove,
    Permission::Browse,
    Permission::Export,
    Permission::Import,
    Permission::Modify,
    Permission::Rename,
    Permission::ReturnDn,
    Permission::Compare,
    Permission::FilterMatch,
    Permission::Invoke,
];

impl Permission {
    /// Each permission, in their order.
    pub fn all() -> &'static [Permission]
        ensures exact { result.now ≡ permissions }
    {
        &PERMISSIONS
    }

    /// The place in their order, from 0.
    pub(crate) fn place(self) -> u32
        ensures exact { result ≡ place_of self }
        ensures fits { result < 13 }
    {
        match self {
            Permission::Add => 0,
            Permission::DiscloseOnError => 1,
            Permission::Read => 2,
            Permission::Remove => 3,
            Permission::Browse => 4,
            Permission::Export => 5,
            Permission::Import => 6,
            Permission::Modify => 7,
            Permission::Rename => 8,
            Permission::ReturnDn => 9,
            Permission::Compare => 10,
            Permission::FilterMatch => 11,
            Permission::Invoke => 12,
        }
    }
}
