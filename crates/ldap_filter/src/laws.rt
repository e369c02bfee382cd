//! Laws over the definitions: each function's clauses are the laws, and its body does nothing.

ghost use Rattle.std.specs.Prelude.{◌≡◌, ℕ, ◌≤◌, List, Some};
ghost use Rattle.ber_layout.specs.Layouts.{IsShort};
ghost use Rattle.ldap_filter.specs.filter.Filters.{Filter, depth};
ghost use Rattle.ldap_filter.specs.reading.FilterLayouts.{IsFilter, SaysFilter, most_deep};
ghost use Rattle.ldap_filter.specs.reading.FilterReading.{filter_of};
ghost use Rattle.ldap_filter.specs.FilterSpelling.{filter_content, filter_octets, HasParts};

/// What is computed of an element's tag and content is the filter that they say.
pub fn filters_are_read()
    ensures found { (filter : Filter) (element : ℕ × List ℕ) → filter_of element ≡ Some filter → IsFilter filter element }
    ensures only { (filter : Filter) (element : ℕ × List ℕ) → IsFilter filter element → filter_of element ≡ Some filter }
{}

/// A written filter says itself, and is read again where it is not too deep.
pub fn filters_are_read_again()
    ensures says { (filter : Filter) → HasParts filter → IsShort (filter_content filter) → SaysFilter filter (filter_octets filter) }
    ensures exact { (filter : Filter) → HasParts filter → IsShort (filter_content filter) → depth filter ≤ most_deep → filter_of (filter_octets filter) ≡ Some filter }
{}
