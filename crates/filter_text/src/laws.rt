//! The laws of filters' texts: each function's clauses are the laws, and its body does nothing.

ghost use Rattle.std.specs.Prelude.{◌≡◌, ◌≤◌, ◌↔◌, ℕ, List, Ok, Err};
ghost use Rattle.regular_text.specs.Place.{IsPlace};
ghost use Rattle.ldap_filter.specs.filter.Filters.{Filter, depth};
ghost use Rattle.ldap_filter.specs.reading.FilterLayouts.{most_deep};
ghost use Rattle.filter_text.specs.FilterText.{IsText, IsFilterText, HasText};
ghost use Rattle.filter_text.specs.Nesting.{IsTooDeep};
ghost use Rattle.filter_text.specs.Faults.{Text, TooDeep};
ghost use Rattle.filter_text.specs.Reading.{filter_in};
ghost use Rattle.filter_text.specs.Printing.{print_filter};

/// What is read of a text is the filter whose text it is, and each filter's text is read where the filter is not too
/// deep.
pub fn a_text_is_read_as_its_filter()
    ensures { (filter : Filter) (text : List ℕ)
        → (filter_in text ≡ Ok filter) ↔ (IsText filter text × (depth filter ≤ most_deep)) }
{}

/// Octets that are refused with a place are no filter's text, leave the grammar there, and have no front that is too
/// deep.
pub fn a_refused_text_leaves_the_grammar_at_its_place()
    ensures place { (text : List ℕ) (place : ℕ) → filter_in text ≡ Err (Text place) → IsPlace IsFilterText text place }
    ensures none { (text : List ℕ) (place : ℕ) → filter_in text ≡ Err (Text place) → IsFilterText text → ⊥ }
    ensures shallow { (text : List ℕ) (place : ℕ) → filter_in text ≡ Err (Text place) → IsTooDeep text → ⊥ }
{}

/// Octets are refused as too deep exactly where one of their fronts, with which some filter's text begins, is.
pub fn a_text_is_too_deep_where_a_front_is()
    ensures { (text : List ℕ) → (filter_in text ≡ Err TooDeep) ↔ IsTooDeep text }
{}

/// What is printed of a filter that has a text is read as the filter again, where it is not too deep.
pub fn a_printed_filter_is_read_again()
    ensures { (filter : Filter) → HasText filter → depth filter ≤ most_deep → filter_in (print_filter filter) ≡ Ok filter }
{}
