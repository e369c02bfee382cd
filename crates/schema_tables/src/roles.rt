//! The table of roles of administrative points.
ghost use Rattle.std.specs.Prelude.{◌≡◌, map, option_map};
ghost use Rattle.schema_tables.specs.Oids.{oid_among};
ghost use Rattle.schema_tables.specs.roles.RoleRows.{named_of_row};
ghost use Rattle.schema_tables.specs.roles.Roles.{roles};

use crate::naming::{NamedRow, oid_in};

// A role's name and its object identifier in dotted form.
#[derive(Clone, Copy)]
pub(crate) struct RoleRow {
    name: &'static str,
    oid: &'static str,
}

#[rattlefmt::skip]
static ROLES: [RoleRow; 3] = [
    RoleRow { name: "autonomousArea", oid: "2.5.23.1" },
    RoleRow { name: "accessControlSpecificArea", oid: "2.5.23.2" },
    RoleRow { name: "accessControlInnerArea", oid: "2.5.23.3" },
];

impl NamedRow for RoleRow {
    ghost named = { named_of_row };

    fn name(&self) -> &'static str {
        self.name
    }

    fn oid(&self) -> &'static str {
        self.oid
    }
}

// The whole table.
#[tactic(auto, unfolding(crate::specs::roles::Roles::roles))]
fn rows() -> &'static [RoleRow]
    ensures exact { map named_of_row result.now ≡ roles }
{
    &ROLES
}

// The object identifier of the role whose name the octets are.
pub(crate) fn role_oid_named(octets: &[u8]) -> Option<&'static str>
    ensures exact { option_map (λ oid. oid.now) result ≡ oid_among roles octets.now }
{
    oid_in(rows(), octets)
}
