//! The laws of names: each function computes nothing, and what it ensures is a law.

ghost use Rattle.std.specs.Prelude.{◌≡◌, ℕ, ◌+◌, ◌<◌, ◌≤◌, ◌↔◌, ◌++◌, IsTrue, List, Ok, Err, length, drop};
ghost use Rattle.std.specs.Cmp.{IsTotalOrder};
ghost use Rattle.std.specs.declared.cmp.Ordering.TheVariants.{Less};
ghost use Rattle.dn_names.specs.Limits.{most_rdns};
ghost use Rattle.dn_names.specs.name.Names.{RdnSequence};
ghost use Rattle.dn_names.specs.NameGrammar.{IsNameText};
ghost use Rattle.dn_names.specs.Spelling.{WrittenPair, SpellsName};
ghost use Rattle.dn_names.specs.NameOrder.{name_cmp, is_same, is_prefix_of, types_and_keys};
ghost use Rattle.dn_names.specs.parsing.NameText.{NameText, RdnText, read_name, read_rdn};
ghost use Rattle.std.specs.List.{AllByRecursion};
ghost use Rattle.dn_names.specs.declared.error.BadName.{BadName};
ghost use Rattle.dn_names.specs.declared.error.BadName.TheVariants.{Part, TooMany};
ghost use Rattle.dn_names.specs.parsing.NameCause.{NameCause};
ghost use Rattle.dn_names.specs.Resolving.{resolve};
ghost use Rattle.dn_names.specs.GoodPlaces.{placed_pairs, IsGoodPlace, IsFirstBad};
ghost use Rattle.dn_names.specs.name.GoodNames.{IsGoodName};
ghost use Rattle.dn_names.specs.Printing.{print_name, name_key};
ghost use Rattle.dn_names.specs.path.PathKeys.{path_key};
ghost use Rattle.std.specs.Ordering.{nat_cmp};
ghost use Rattle.std.specs.Cmp.Lexicographic.{slice_cmp};

/// The outer grammar has exactly the texts that spell some pairs, each text one list of them; and a text is a
/// text of one name.
pub fn a_text_spells_one_name()
    ensures spelled { (written : List (List WrittenPair)) (text : List ℕ)
        → SpellsName written text → IsNameText text }
    ensures found { (text : List ℕ)
        → IsNameText text → (written : List (List WrittenPair)) × SpellsName written text }
    ensures only { (one other : List (List WrittenPair)) (text : List ℕ)
        → SpellsName one text → SpellsName other text → one ≡ other }
    ensures exact { (name : RdnSequence) (text : List ℕ) → NameText name text → read_name text ≡ Ok name }
    ensures rdn { (name : RdnSequence) (text : List ℕ) → RdnText name text → read_rdn text ≡ Ok name }
{}

/// A text is read as a name exactly where it is a text of the name, and is refused exactly for its cause; the same of
/// one RDN. So reading is what these relations say, whatever it computes.
pub fn a_text_is_read_as_its_name_or_refused_for_its_cause()
    ensures ok { (name : RdnSequence) (text : List ℕ) → (read_name text ≡ Ok name) ↔ NameText name text }
    ensures err { (text : List ℕ) (cause : BadName)
        → (read_name text ≡ Err cause) ↔ NameCause (λ count. count ≤ most_rdns) text cause }
    ensures rdn_ok { (name : RdnSequence) (text : List ℕ) → (read_rdn text ≡ Ok name) ↔ RdnText name text }
    ensures rdn_err { (text : List ℕ) (cause : BadName)
        → (read_rdn text ≡ Err cause) ↔ NameCause (λ count. count ≡ 1) text cause }
{}

/// A name that some text spells is spelled by its printed form, which is read as it.
pub fn a_printed_name_is_read_again()
    ensures good { (name : RdnSequence) (text : List ℕ) → NameText name text → IsGoodName name }
    ensures rdn { (name : RdnSequence) (text : List ℕ) → RdnText name text → IsGoodName name }
    ensures printed { (name : RdnSequence) → IsGoodName name → NameText name (print_name name) }
    ensures exact { (name : RdnSequence) → IsGoodName name → read_name (print_name name) ≡ Ok name }
{}

/// The order of names is total. Names are the same, and begin one another, by their types and keys alone, and a
/// proper prefix comes first.
pub fn names_are_in_a_total_order()
    ensures order { IsTotalOrder name_cmp }
    ensures same { (one other : RdnSequence)
        → IsTrue (is_same one other) ↔ (types_and_keys one ≡ types_and_keys other) }
    ensures prefix { (front name : RdnSequence) → IsTrue (is_prefix_of front name)
        ↔ ((rest : List (List (ℕ × List ℕ))) × (types_and_keys name ≡ types_and_keys front ++ rest)) }
    ensures first { (front name : RdnSequence)
        → IsTrue (is_prefix_of front name) → length front < length name → name_cmp front name ≡ Less }
{}

/// Path keys compare by their octets as the names compare, and one begins another exactly where the name does.
pub fn path_keys_compare_as_names()
    ensures order { (one other : RdnSequence)
        → slice_cmp nat_cmp (path_key one) (path_key other) ≡ name_cmp one other }
    ensures prefix { (front name : RdnSequence) → IsTrue (is_prefix_of front name)
        ↔ ((rest : List ℕ) × (path_key name ≡ path_key front ++ rest)) }
{}

/// What is cut off after a name was joined is there again, and what is joined after a name was cut is the name.
pub fn cutting_undoes_joining()
    ensures prefix { (superior below : RdnSequence) → IsTrue (is_prefix_of superior (superior ++ below)) }
    ensures local { (superior below : RdnSequence) → drop (length superior) (superior ++ below) ≡ below }
    ensures join { (superior below : RdnSequence) → IsTrue (is_prefix_of superior below)
        → IsTrue (is_same (superior ++ drop (length superior) below) below) }
    ensures good_join { (superior below : RdnSequence) → IsGoodName superior → IsGoodName below
        → length superior + length below ≤ most_rdns → IsGoodName (superior ++ below) }
    ensures good_local { (count : ℕ) (name : RdnSequence) → IsGoodName name → IsGoodName (drop count name) }
{}

/// Names are the same exactly where their keys are, so that the key of a value of Name syntax says which name it is.
pub fn a_name_has_one_key()
    ensures { (one other : RdnSequence) → IsGoodName one → IsGoodName other
        → IsTrue (is_same one other) ↔ (name_key one ≡ name_key other) }
{}

/// A name's meaning is refused as `TooMany` exactly where it has more than 64 RDNs, and as a `Part` at the first
/// pair that is not good; of a name that has a meaning each pair is good.
pub fn a_refused_part_is_the_first_bad_pair()
    ensures part { (written : List (List WrittenPair)) (index : ℕ)
        → resolve written ≡ Err (Part index) → IsFirstBad (placed_pairs written) index }
    ensures too_many { (written : List (List WrittenPair))
        → (resolve written ≡ Err TooMany) ↔ (most_rdns < length written) }
    ensures ok { (written : List (List WrittenPair)) (name : RdnSequence) → resolve written ≡ Ok name
        → (length written ≤ most_rdns) × AllByRecursion IsGoodPlace (placed_pairs written) }
{}
