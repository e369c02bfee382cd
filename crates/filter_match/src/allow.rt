//! Permission to match.

ghost use Rattle.std.specs.Prelude.{◌≡◌, ℕ, Bool};
ghost use Rattle.filter_match.specs.Truth.{Permits};

use dir_tree::dn_names::Value;
use dir_tree::schema_tables::AttrId;

/// What the requester may match filters against, of one entry: the permission FilterMatch (X.501 18.2).
pub trait Allow {
    ghost permits: { Self → Permits };

    /// Whether FilterMatch is granted on the attribute type.
    fn kind(&self, kind: AttrId) -> bool
        ensures { result ≡ (permits self.now).kind kind.0 };

    /// Whether FilterMatch is granted on the value of the attribute type.
    fn value(&self, kind: AttrId, value: &Value) -> bool
        ensures { result ≡ (permits self.now).value kind.0 value.now };
}
