//! The laws of certificates: each function computes nothing, and what it ensures is a law.

ghost use Rattle.std.specs.Prelude.{◌≡◌, ◌&&◌, ℕ, true, List, Some, Ok, filter, map, nat_le};
ghost use Rattle.std.specs.List.{list_all};
ghost use Rattle.std.specs.Str.{is_utf8};
ghost use Rattle.dir_tree.specs.Entry.{EntryInformation};
ghost use Rattle.dir_tree.specs.tree.Trees.{named_in};
ghost use Rattle.acdf_filters.specs.admin_scope.InForce.{in_force};
ghost use Rattle.acdf_filters.specs.Asking.{Asked};
ghost use Rattle.acdf_filters.specs.users.Choices.{is_filled};
ghost use Rattle.acdf_filters.specs.Filters.{Placed, left_by_users, left_by_item, left_by_permission, left_by_precedence, left_by_class, left_by_explicit, decided};
ghost use Rattle.acdf_filters.specs.Granted.{granted};
ghost use Rattle.explanation.specs.Questions.{Question};
ghost use Rattle.explanation.specs.Reading.{question_of};
ghost use Rattle.certify.specs.Lines.{before};
ghost use Rattle.certify.specs.LastFilter.{last_filter, decisive_tuples};
ghost use Rattle.certify.specs.Certificate.{scope_word, scope_lines, says_in, text_proved};
ghost use Rattle.certify.specs.Verifying.{verified};
ghost use Rattle.certify.specs.Readable.{AreSaid, HaveGoodNames};

/// The number of a tuple is that of the last of the six filters that leaves it: each filter leaves those that have its number
/// or a greater one.
pub fn a_filter_leaves_those_of_its_number_or_more()
    ensures users { (asked : Asked) (xs : List Placed)
        → filter (λ x. nat_le 1 (last_filter asked xs x)) xs ≡ left_by_users asked xs }
    ensures item { (asked : Asked) (xs : List Placed)
        → filter (λ x. nat_le 2 (last_filter asked xs x)) xs ≡ left_by_item asked xs }
    ensures permission { (asked : Asked) (xs : List Placed)
        → filter (λ x. nat_le 3 (last_filter asked xs x)) xs ≡ left_by_permission asked xs }
    ensures precedence { (asked : Asked) (xs : List Placed)
        → filter (λ x. nat_le 4 (last_filter asked xs x)) xs ≡ left_by_precedence asked xs }
    ensures class { (asked : Asked) (xs : List Placed)
        → filter (λ x. nat_le 5 (last_filter asked xs x)) xs ≡ left_by_class asked xs }
    ensures explicit { (asked : Asked) (xs : List Placed)
        → filter (λ x. nat_le 6 (last_filter asked xs x)) xs ≡ left_by_explicit asked xs }
{}

/// Access is granted where a tuple has the last number, and each that has it grants.
pub fn the_tuples_of_the_last_number_decide()
    ensures exact { (asked : Asked) (xs : List Placed) → decided asked xs
        ≡ (is_filled (decisive_tuples asked xs) && list_all (λ x. x.listed.tuple.grants) (decisive_tuples asked xs)) }
{}

/// The subentries whose subtrees are said to hold the entry are those in force for it (X.501 18.3).
pub fn the_subentries_that_hold_the_entry_are_in_force()
    ensures exact { (entries : List EntryInformation) (entry : EntryInformation)
        → filter says_in (scope_lines entries entry)
        ≡ map (λ subentry. before (scope_word true) subentry.name) (in_force entries entry) }
{}

/// A text that is proved is accepted, as the certificate of what was decided: where the names of the entries are good, words
/// say who asks, on what and for which permission, and an entry has the name. Words that ask a question say it.
pub fn what_is_proved_is_accepted()
    ensures exact { (entries : List EntryInformation) (question : Question) (entry : EntryInformation)
        → HaveGoodNames entries → AreSaid question.who question.item question.permission
        → named_in question.target entries ≡ Some entry → verified entries (text_proved entries question)
        ≡ Ok (granted entries question.who entry question.item question.permission) }
    ensures said { (who target item permission : List ℕ) (question : Question) → is_utf8 item ≡ true
        → question_of who target item permission ≡ Some question
        → AreSaid question.who question.item question.permission }
{}
