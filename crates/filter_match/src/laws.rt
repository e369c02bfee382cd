//! A law over the definitions: the function's clause is the law, and its body does nothing.

ghost use Rattle.std.specs.Prelude.{◌≡◌, ◌↔◌, ℕ, List, true};
ghost use Rattle.dir_tree.specs.match_rules.substrings.Substrings.{IsSubstring};
ghost use Rattle.filter_match.specs.Substrings.{is_substring};

/// The test by cuts is true exactly where the key has the parts (RFC 4511 4.5.1.7.2).
pub fn substrings_are_cuts()
    ensures exact { (key first last : List ℕ) (middle : List (List ℕ)) → (is_substring key first middle last ≡ true) ↔ IsSubstring key first middle last }
{}
