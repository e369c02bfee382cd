//! What holds of the tables, and of the look-ups in them for every text. Each function is a theorem:
//! it has no parameters and does nothing, and its clauses hold.
ghost use Rattle.std.specs.Prelude.{◌≡◌, ℕ, ◌↔◌, ◌++◌, List, [], ◌∷◌, Some, IsTrue, drop, is_some};
ghost use Rattle.std.specs.List.{list_all};
ghost use Rattle.schema_tables.specs.Attributes.{attr_of, NamesAttribute};
ghost use Rattle.std.specs.Option.{option_map_or};
ghost use Rattle.schema_tables.specs.classes.Classes.{classes, class_of, superior_of, NamesClass};
ghost use Rattle.schema_tables.specs.Superclasses.{with_superclasses};
ghost use Rattle.schema_tables.specs.Naming.{are_distinct, is_keystring};
ghost use Rattle.schema_tables.specs.Oids.{names, is_dotted_oid, IsDottedOid, oid_of};

/// No two rows of the three tables can be named by one text; each name is a keystring, and each object
/// identifier a numericoid (RFC 4512 section 1.4).
pub fn rows_are_distinct()
    ensures only { IsTrue (are_distinct names) }
    ensures keystrings { IsTrue (list_all (λ row. is_keystring row.name) names) }
    ensures dotted { IsTrue (list_all (λ row. is_dotted_oid row.oid) names) }
{}

/// A text finds a number exactly where it names that row.
pub fn a_text_finds_the_row_that_it_names()
    ensures attributes { (text : List ℕ) (number : ℕ)
        → (attr_of text ≡ Some number) ↔ NamesAttribute text number }
    ensures classes { (text : List ℕ) (number : ℕ)
        → (class_of text ≡ Some number) ↔ NamesClass text number }
{}

/// The test of dotted object identifiers is their grammar.
pub fn the_dotted_form_is_its_grammar()
    ensures exact { (text : List ℕ) → IsTrue (is_dotted_oid text) ↔ IsDottedOid text }
{}

/// The dotted form of a text is dotted, and a dotted text is its own dotted form.
pub fn a_dotted_form_is_its_own()
    ensures dotted { (text : List ℕ) (oid : List ℕ) → oid_of text ≡ Some oid → IsDottedOid oid }
    ensures kept { (text : List ℕ) → IsDottedOid text → oid_of text ≡ Some text }
{}

/// Each attribute type that a class lists is in the table, and so is the superior of each class but the
/// first, `top`.
pub fn classes_are_complete()
    ensures attributes { IsTrue (list_all (λ row. list_all (λ name. is_some (attr_of name))
        (row.required ++ row.allowed)) classes) }
    ensures superiors { IsTrue (list_all (λ row. is_some (class_of row.superior)) (drop 1 classes)) }
{}

/// A class stands before its superior and the superclasses of that: the bound in the definition leaves none out.
pub fn a_class_stands_before_its_superclasses()
    ensures { (number : ℕ) → with_superclasses number
        ≡ number ∷ option_map_or with_superclasses (superior_of number) [] }
{}
