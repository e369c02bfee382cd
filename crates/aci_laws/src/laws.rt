//! The laws of access control items: each function computes nothing, and what it ensures is a law.

ghost use Rattle.std.specs.Prelude.{◌≡◌, ◌<◌, ℕ, List, find, Err, Ok, None, Option, Some};
ghost use Rattle.std.specs.List.Sorted.{IsStrictlySortedBy};
ghost use Rattle.std.specs.Str.{bytes_eq};
ghost use Rattle.gser_tree.specs.looking.Shapes.{Shape, nest};
ghost use Rattle.gser_tree.specs.TextOf.{IsTextOf};
ghost use Rattle.gser_tree.specs.Writing.{text_of};
ghost use Rattle.dir_tree.specs.dn_names.name.Names.{RdnSequence, TypeAndValue};
ghost use Rattle.dir_tree.specs.dn_names.NameOrder.{name_cmp, is_same};
ghost use Rattle.subtree_spec.specs.declared.error.BadText.TheVariants.{Text};
ghost use Rattle.subtree_spec.specs.Subtrees.{Subtree};
ghost use Rattle.subtree_spec.specs.SubtreePrinted.{print_subtree};
ghost use Rattle.subtree_spec.specs.SubtreeText.{exclusions, subtree, judged, read_subtree};
ghost use Rattle.aci_item.specs.item.Items.{Item, ItemPermission, MaxValueCount, RestrictedValue, UserPermission};
ghost use Rattle.aci_item.specs.members.ItemParts.{bits, user, kind, kind_and_value, class_subtree};
ghost use Rattle.aci_item.specs.members.Limits.{max_value_count, restricted_value};
ghost use Rattle.aci_item.specs.ItemPrinted.{print_user, print_kind, print_value, print_max_value_count, print_restricted_value, print_item, print_item_permission, print_user_permission};
ghost use Rattle.aci_item.specs.Permission.{Bit, in_order, is_among};
ghost use Rattle.aci_item.specs.AciText.{AciText, aci_item, read_item, sorted_set, item_permission, user_permission};
ghost use Rattle.aci_laws.specs.GoodItems.{IsGoodItem};
ghost use Rattle.aci_laws.specs.MembersSorted.{bits_in_order, members_sorted, sorted};
ghost use Rattle.aci_laws.specs.Exclusions.{exclusions_sorted, names_sorted};
ghost use Rattle.aci_item.specs.Sets.{by_text};

/// A set that is read stands in the order of its members' printed texts, and no two texts are equal.
pub fn sets_are_in_order()
    ensures users { (shape : Shape) (bad next : Option ℕ) (names : List RdnSequence)
        → sorted_set print_user user shape bad ≡ Some (record { value = names; bad = next })
        → IsStrictlySortedBy (by_text (λ name. text_of (print_user name))) names }
    ensures kinds { (shape : Shape) (bad next : Option ℕ) (kinds : List ℕ)
        → sorted_set print_kind kind shape bad ≡ Some (record { value = kinds; bad = next })
        → IsStrictlySortedBy (by_text (λ kind. text_of (print_kind kind))) kinds }
    ensures values { (shape : Shape) (bad next : Option ℕ) (values : List TypeAndValue)
        → sorted_set print_value kind_and_value shape bad ≡ Some (record { value = values; bad = next })
        → IsStrictlySortedBy (by_text (λ value. text_of (print_value value))) values }
    ensures max_counts { (shape : Shape) (bad next : Option ℕ) (limits : List MaxValueCount)
        → sorted_set print_max_value_count max_value_count shape bad ≡ Some (record { value = limits; bad = next })
        → IsStrictlySortedBy (by_text (λ limit. text_of (print_max_value_count limit))) limits }
    ensures restricted { (shape : Shape) (bad next : Option ℕ) (limits : List RestrictedValue)
        → sorted_set print_restricted_value restricted_value shape bad ≡ Some (record { value = limits; bad = next })
        → IsStrictlySortedBy (by_text (λ limit. text_of (print_restricted_value limit))) limits }
    ensures subtrees { (shape : Shape) (bad next : Option ℕ) (subtrees : List Subtree)
        → sorted_set print_subtree class_subtree shape bad ≡ Some (record { value = subtrees; bad = next })
        → IsStrictlySortedBy (by_text (λ spec. text_of (print_subtree spec))) subtrees }
    ensures item_permissions { (shape : Shape) (bad next : Option ℕ) (permissions : List ItemPermission)
        → sorted_set print_item_permission item_permission shape bad ≡ Some (record { value = permissions; bad = next })
        → IsStrictlySortedBy (by_text (λ p. text_of (print_item_permission p))) permissions }
    ensures user_permissions { (shape : Shape) (bad next : Option ℕ) (permissions : List UserPermission)
        → sorted_set print_user_permission user_permission shape bad ≡ Some (record { value = permissions; bad = next })
        → IsStrictlySortedBy (by_text (λ p. text_of (print_user_permission p))) permissions }
{}

/// A set is its members in the order of the text, sorted by their printed texts: of equal texts the first stays.
pub fn sets_are_their_members_sorted()
    ensures users { (shape : Shape) (bad : Option ℕ) → sorted_set print_user user shape bad ≡ members_sorted print_user user shape bad }
    ensures kinds { (shape : Shape) (bad : Option ℕ) → sorted_set print_kind kind shape bad ≡ members_sorted print_kind kind shape bad }
    ensures values { (shape : Shape) (bad : Option ℕ) → sorted_set print_value kind_and_value shape bad
        ≡ members_sorted print_value kind_and_value shape bad }
    ensures max_counts { (shape : Shape) (bad : Option ℕ) → sorted_set print_max_value_count max_value_count shape bad
        ≡ members_sorted print_max_value_count max_value_count shape bad }
    ensures restricted { (shape : Shape) (bad : Option ℕ) → sorted_set print_restricted_value restricted_value shape bad
        ≡ members_sorted print_restricted_value restricted_value shape bad }
    ensures subtrees { (shape : Shape) (bad : Option ℕ) → sorted_set print_subtree class_subtree shape bad
        ≡ members_sorted print_subtree class_subtree shape bad }
    ensures item_permissions { (shape : Shape) (bad : Option ℕ) → sorted_set print_item_permission item_permission shape bad
        ≡ members_sorted print_item_permission item_permission shape bad }
    ensures user_permissions { (shape : Shape) (bad : Option ℕ) → sorted_set print_user_permission user_permission shape bad
        ≡ members_sorted print_user_permission user_permission shape bad }
{}

/// Members sorted by their texts, whatever these are, stand in the order of the texts, no two texts equal; no text is lost,
/// and of members with equal texts the first stays.
pub fn a_sorted_set_keeps_its_members<A>()
    ensures ordered { (text : A → List ℕ) (values : List A) → IsStrictlySortedBy (by_text text) (sorted text values) }
    ensures keeps { (text : A → List ℕ) (values : List A) (sought : List ℕ)
        → find (λ value. bytes_eq (text value) sought) (sorted text values)
        ≡ find (λ value. bytes_eq (text value) sought) values }
{}

/// The exclusions of a subtree are their names in the order of the text, those of each kind sorted: no two are the same,
/// no name is lost, and of names that are the same the first stays.
pub fn exclusions_are_their_names_sorted()
    ensures exact { (shape : Shape) (bad : Option ℕ) → exclusions shape bad ≡ exclusions_sorted shape bad }
    ensures ordered { (names : List RdnSequence) → IsStrictlySortedBy name_cmp (names_sorted names) }
    ensures keeps { (names : List RdnSequence) (sought : RdnSequence)
        → find (λ name. is_same name sought) (names_sorted names) ≡ find (λ name. is_same name sought) names }
{}

/// Grants and denials are their bits in the order of the text, put in rising order, each once; no bit is lost.
pub fn bits_are_their_members_in_order()
    ensures exact { (shape : Shape) (bad : Option ℕ) → bits shape bad ≡ bits_in_order shape bad }
    ensures keeps { (all : List Bit) (one : Bit) → is_among (in_order all) one ≡ is_among all one }
{}

/// A text is written for one value at most, and is read as it, however deep braces stand in it.
pub fn a_text_is_read_as_its_one_value()
    ensures one { (one other : Shape) (text : List ℕ) → IsTextOf one text → IsTextOf other text → one ≡ other }
    ensures subtrees { (shape : Shape) (text : List ℕ) → IsTextOf shape text
        → read_subtree text ≡ judged (subtree shape None) }
    ensures items { (shape : Shape) (text : List ℕ) → IsTextOf shape text → read_item text ≡ judged (aci_item shape None) }
{}

/// At most 65 braces stand in one another in a subtree specification, and at most 71 in an item: of a value with more
/// nothing is read, and its text is refused.
pub fn deep_texts_are_none()
    ensures subtrees { (shape : Shape) (bad : Option ℕ) → 65 < nest shape → subtree shape bad ≡ None }
    ensures items { (shape : Shape) (bad : Option ℕ) → 71 < nest shape → aci_item shape bad ≡ None }
    ensures subtree_texts { (shape : Shape) (text : List ℕ) → IsTextOf shape text → 65 < nest shape
        → read_subtree text ≡ Err Text }
    ensures item_texts { (shape : Shape) (text : List ℕ) → IsTextOf shape text → 71 < nest shape
        → read_item text ≡ Err Text }
{}

/// An item that some text gives is good, its printed form is a text that gives it, and is read as it.
pub fn a_printed_item_is_read_again()
    ensures good { (item : Item) (text : List ℕ) → AciText item text → IsGoodItem item }
    ensures printed { (item : Item) → IsGoodItem item → AciText item (text_of (print_item item)) }
    ensures exact { (item : Item) → IsGoodItem item → read_item (text_of (print_item item)) ≡ Ok item }
{}
