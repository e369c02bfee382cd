//! The filters of a list, as they come.

ghost use Rattle.std.specs.Prelude.{◌≡◌, ◌++◌, [], ◌∷◌, IfOk};

use ldap_filter::Filter;
use std::alloc::{AllocError, Global};
use std::marker::Model;

/// Filters in their order. Contracts see the list of them.
#[derive(Drop)]
pub(crate) struct Members {
    filters: Vec<Filter>,
}

impl Model for Members {
    ghost use Rattle.std.specs.Prelude.{List};
    ghost use Rattle.std.specs.Coded.{coded_list};
    ghost use Rattle.ldap_filter.specs.filter.Filters.{Filter};
    ghost use Rattle.ldap_filter.specs.filter.Codes.{coded_filter};

    ghost Value = { List Filter };

    ghost coded = { coded_list coded_filter };

    ghost view = { λ members. members.filters.items };
}

impl Members {
    /// None.
    pub fn new(alloc: Global) -> Members
        ensures exact { result ≡ [] }
    {
        Members {
            filters: Vec::new(alloc),
        }
    }

    /// These filters and one more; the error comes where memory is refused.
    pub fn and_last(self, filter: Filter) -> Result<Members, AllocError>
        ensures ok { IfOk result (λ members. members ≡ self ++ filter ∷ []) }
    {
        let Members { mut filters } = self;
        filters.push(filter)?;
        Ok(Members { filters })
    }

    /// The filters as a vector.
    pub fn into_vec(self) -> Vec<Filter>
        ensures exact { result.items ≡ self }
    {
        let Members { filters } = self;
        filters
    }
}
