//! Whether a class is another one or a superclass of it.
ghost use Rattle.std.specs.Prelude.{◌≡◌, ◌==◌};
ghost use Rattle.std.specs.List.{list_any};
ghost use Rattle.schema_tables.specs.Superclasses.{with_superclasses};

use crate::classes::superior;
use crate::kinds::ClassId;

/// Whether the class is the other one, or a superclass of it.
pub fn is_or_above(class: ClassId, other: ClassId) -> bool
    ensures exact { result ≡ list_any (λ number. class.0 == number) (with_superclasses other.0) }
{
    if class == other {
        return true;
    }
    match superior(other) {
        Some(above) => is_or_above(class, above),
        None => false,
    }
}
