//! Subtree specifications as text.

ghost use Rattle.std.specs.Prelude.{◌≡◌, ◌++◌, None, Some, if◌then◌else◌, IfOk, OnOk, OnErr, codes, map, option_map, string_bytes};
ghost use Rattle.gser_tree.specs.Writing.{text_of, print_number, print_choice, print_braces, print_optional, print_filled, PutsMembers};
ghost use Rattle.subtree_spec.specs.Subtrees.{choice_of, gathered, subtree_of};
ghost use Rattle.subtree_spec.specs.SubtreePrinted.{print_dn, print_base, print_chops, print_exclusions, print_minimum, print_refinement, print_refinements, print_subtree};

use crate::spec::{Refinement, Spec};
use dn_names::Dn;
use gser_tree::{put_end, put_kind, put_name, put_number, put_separator, put_string};
use std::alloc::{AllocError, Global};

// Writes a name in a string.
fn put_dn(alloc: Global, out: &mut String, name: &Dn) -> Result<(), AllocError>
    ensures ok { OnOk result (string_bytes out.new ≡ string_bytes out.old ++ text_of (print_dn name.now)) }
{
    let mut text = String::new(alloc);
    dn_names::print(alloc, name, &mut text)?;
    put_string(out, text.as_str())
}

// Writes the base, where it is not empty.
fn put_base(alloc: Global, out: &mut String, first: bool, base: &Dn) -> Result<bool, AllocError>
    ensures ok { IfOk result (λ next. PutsMembers (string_bytes out.old) (string_bytes out.new) first next
        (print_optional (codes "base") (print_base base.now))) }
{
    if base.len() == 0 {
        return Ok(first);
    }
    put_name(out, first, "base")?;
    put_dn(alloc, out, base)?;
    Ok(false)
}

// Writes an exclusion.
fn put_chop(alloc: Global, out: &mut String, kind: &str, name: &Dn) -> Result<(), AllocError>
    ensures ok { OnOk result (string_bytes out.new ≡ string_bytes out.old ++ text_of (print_choice kind.now (print_dn name.now))) }
{
    put_kind(out, kind)?;
    put_dn(alloc, out, name)?;
    Ok(())
}

// Writes exclusions of a kind as members of a set.
fn put_chops(
    alloc: Global,
    out: &mut String,
    first: bool,
    kind: &str,
    names: &[Dn],
) -> Result<bool, AllocError>
    ensures ok { IfOk result (λ next. PutsMembers (string_bytes out.old) (string_bytes out.new) first next
        (print_chops kind.now names.now)) }
{
    let mut first = first;
    for name in names {
        put_separator(out, first)?;
        put_chop(alloc, out, kind, name)?;
        first = false;
    }
    Ok(first)
}

// Whether there are no exclusions.
fn has_none(spec: &Spec) -> bool
    ensures exact { print_filled (print_exclusions spec.now.before.items spec.now.after.items)
        ≡ (if result then None else Some (print_braces (print_exclusions spec.now.before.items spec.now.after.items))) }
{
    spec.before.is_empty() && spec.after.is_empty()
}

// Writes the exclusions as a set.
fn put_exclusions(alloc: Global, out: &mut String, spec: &Spec) -> Result<(), AllocError>
    ensures ok { OnOk result (string_bytes out.new
        ≡ string_bytes out.old ++ text_of (print_braces (print_exclusions spec.now.before.items spec.now.after.items))) }
{
    let first = put_chops(alloc, out, true, "chopBefore", &spec.before)?;
    let first = put_chops(alloc, out, first, "chopAfter", &spec.after)?;
    put_end(out, first)?;
    Ok(())
}

// Writes the exclusions, where there are some.
fn put_exclusions_of(
    alloc: Global,
    out: &mut String,
    first: bool,
    spec: &Spec,
) -> Result<bool, AllocError>
    ensures ok { IfOk result (λ next. PutsMembers (string_bytes out.old) (string_bytes out.new) first next
        (print_optional (codes "specificExclusions") (print_filled (print_exclusions spec.now.before.items spec.now.after.items)))) }
{
    if has_none(spec) {
        return Ok(first);
    }
    put_name(out, first, "specificExclusions")?;
    put_exclusions(alloc, out, spec)?;
    Ok(false)
}

// Writes the minimum, where it is not 0.
fn put_minimum(out: &mut String, first: bool, minimum: u32) -> Result<bool, AllocError>
    ensures ok { IfOk result (λ next. PutsMembers (string_bytes out.old) (string_bytes out.new) first next
        (print_optional (codes "minimum") (print_minimum minimum))) }
{
    if minimum == 0 {
        return Ok(first);
    }
    put_name(out, first, "minimum")?;
    put_number(out, minimum)?;
    Ok(false)
}

// Writes the maximum, where there is one.
fn put_maximum(out: &mut String, first: bool, maximum: Option<u32>) -> Result<bool, AllocError>
    ensures ok { IfOk result (λ next. PutsMembers (string_bytes out.old) (string_bytes out.new) first next
        (print_optional (codes "maximum") (option_map print_number maximum))) }
{
    match maximum {
        None => Ok(first),
        Some(maximum) => {
            put_name(out, first, "maximum")?;
            put_number(out, maximum)?;
            Ok(false)
        }
    }
}

// Writes a refinement.
#[tactic(auto, using(crate::proofs::printing::PrintedLemmas::put_choice))]
#[cycle(put_refinement)]
fn put_refinement(out: &mut String, refinement: &Refinement) -> Result<(), AllocError>
    ensures ok { OnOk result (string_bytes out.new ≡ string_bytes out.old ++ text_of (print_refinement (choice_of refinement.now))) }
{
    match refinement {
        Refinement::Item(oid) => {
            put_kind(out, "item")?;
            out.push_str(oid.as_str())?;
        }
        Refinement::And(members) => {
            put_kind(out, "and")?;
            put_refinements(out, members)?;
        }
        Refinement::Or(members) => {
            put_kind(out, "or")?;
            put_refinements(out, members)?;
        }
        Refinement::Not(member) => {
            put_kind(out, "not")?;
            put_refinement(out, member)?;
        }
    }
    Ok(())
}

// Writes the refinements of a set.
#[cycle(put_refinement)]
fn put_refinements(out: &mut String, members: &[Refinement]) -> Result<(), AllocError>
    ensures ok { OnOk result (string_bytes out.new
        ≡ string_bytes out.old ++ text_of (print_braces (print_refinements (gathered (map choice_of members.now))))) }
{
    let mut first = true;
    for member in members {
        put_separator(out, first)?;
        put_refinement(out, member)?;
        first = false;
    }
    put_end(out, first)?;
    Ok(())
}

// Writes the refinement, where there is one.
fn put_filter(
    out: &mut String,
    first: bool,
    filter: &Option<Refinement>,
) -> Result<bool, AllocError>
    ensures ok { IfOk result (λ next. PutsMembers (string_bytes out.old) (string_bytes out.new) first next
        (print_optional (codes "specificationFilter") (option_map print_refinement (option_map choice_of filter.now)))) }
{
    match filter {
        None => Ok(first),
        Some(refinement) => {
            put_name(out, first, "specificationFilter")?;
            put_refinement(out, refinement)?;
            Ok(false)
        }
    }
}

// Writes a specification.
fn put_spec(alloc: Global, out: &mut String, spec: &Spec) -> Result<(), AllocError>
    ensures ok { OnOk result (string_bytes out.new ≡ string_bytes out.old ++ text_of (print_subtree (subtree_of spec.now))) }
{
    let first = put_base(alloc, out, true, &spec.base)?;
    let first = put_exclusions_of(alloc, out, first, spec)?;
    let first = put_minimum(out, first, spec.minimum)?;
    let first = put_maximum(out, first, spec.maximum)?;
    let first = put_filter(out, first, &spec.filter)?;
    put_end(out, first)?;
    Ok(())
}

/// Appends the specification as text (RFC 3672 Appendix A, RFC 3641) in its one printed form. The error comes where
/// memory is refused; `out` is then as before.
pub fn print(alloc: Global, spec: &Spec, out: &mut String) -> Result<(), AllocError>
    ensures ok { OnOk result (string_bytes out.new ≡ string_bytes out.old ++ text_of (print_subtree (subtree_of spec.now))) }
    ensures err { OnErr result (string_bytes out.new ≡ string_bytes out.old) }
{
    let mut text = String::new(alloc);
    put_spec(alloc, &mut text, spec)?;
    out.push_str(text.as_str())
}
