//! The values that a filter needs.

ghost use Rattle.std.specs.Prelude.{◌≡◌, Some, false, length, slice_get, IfSome, IfNone};
ghost use Rattle.dir_tree.specs.Entry.{EntryInformation, values_of, has_key};
ghost use Rattle.ldap_filter.specs.filter.Filters.{Filter};
ghost use Rattle.filter_match.specs.Judging.{judged};
ghost use Rattle.filter_match.specs.Needs.{is_needed, without};
ghost use Rattle.filter_match.specs.Tests.Assertion.{HasKey};
ghost use Rattle.filter_match.specs.Tests.Test.{HasValue};
ghost use Rattle.filter_match.specs.Truth.{Permits, truth, is_true};
ghost use Rattle.filter_match.specs.walk.Walks.{tests_of};

use crate::asked::{Asks, Asserted, Test};
use crate::evaluating::judge;
use crate::prepared::Prepared;
use crate::question::Question;
use crate::without::Without;
use dir_tree::schema_tables::AttrId;

/// A value that is asked for: its type, and its key.
#[derive(Clone, Copy)]
pub struct Need<'a> {
    pub kind: AttrId,
    pub key: &'a [u8],
}

/// The value that the test asks for by equality. Of an objectClass it asks for a class, which entries of subclasses
/// have too.
fn asked(test: &Test) -> Option<Need<'_>>
    ensures found { IfSome result (λ need. test.now ≡ HasValue need.kind.0 (HasKey need.key.now)) }
    ensures none { IfNone result ((filter : Filter) → is_needed filter (Some test.now) ≡ false) }
{
    match &test.asks {
        Asks::HasValue(kind, Asserted::HasKey(value)) => Some(Need {
            kind: *kind,
            key: value.key(),
        }),
        Asks::HasValue(_, _) | Asks::Nothing | Asks::IsThere(_) => None,
    }
}

/// Whether the filter may be True of an entry that has no value of the type with the key.
fn may_be_true_without(filter: &Prepared<'_>, need: Need<'_>) -> bool
    ensures exact { result ≡ judged (without need.entry.kind.0 need.entry.key.now) Question.IsTrue filter.now }
{
    let without = Without {
        kind: need.kind,
        key: need.key,
    };
    judge(filter, Question::IsTrue, &without)
}

impl<'a> Prepared<'a> {
    /// How many items the filter has.
    pub fn items(&self) -> usize
        ensures exact { result ≡ length (tests_of self.now) }
    {
        self.tests().len()
    }

    /// The value that the item of the index asks for by equality, if the filter needs it: whatever is permitted, of an
    /// entry that has no value of the type with the key the filter isn't True. None where the item asks for no such
    /// value, where by its `and`, `or` and `not` the filter may be True without it, and for an index past the items. An
    /// objectClass is never needed. Each item is looked at once, and no memory is taken.
    pub fn need(&self, index: usize) -> Option<Need<'_>>
        ensures asked { IfSome result (λ need.
            slice_get (tests_of self.now) index ≡ Some (HasValue need.kind.0 (HasKey need.key.now))) }
        ensures needed { IfSome result (λ need. (permits : Permits) (entry : EntryInformation)
            → has_key need.key.now (values_of need.kind.0 entry.attributes) ≡ false
            → is_true (truth permits entry self.now) ≡ false) }
        ensures none { IfNone result (is_needed self.now (slice_get (tests_of self.now) index) ≡ false) }
    {
        let need = asked(self.tests().get(index)?)?;
        if may_be_true_without(self, need) {
            None
        } else {
            Some(need)
        }
    }
}
