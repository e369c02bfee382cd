//! Subtree specifications from their texts.

ghost use Rattle.std.specs.Prelude.{◌≡◌, ◌≤◌, None, Ok, Err, [], codes, map, option_map, IfOk};
ghost use Rattle.gser_tree.specs.looking.Shapes.{Shape, nest};
ghost use Rattle.gser_tree.specs.TextOf.{IsTextOf};
ghost use Rattle.subtree_spec.specs.declared.error.BadText.TheVariants.{Text};
ghost use Rattle.gser_tree.specs.Tree.{shape_of};
ghost use Rattle.gser_tree.specs.Reading.{Reads, optional};
ghost use Rattle.subtree_spec.specs.Parts.{name};
ghost use Rattle.subtree_spec.specs.SubtreeText.{no_chops, exclusions, distance, there, refinement, components, subtree, SubText, read_subtree, judged, fault_of};
ghost use Rattle.subtree_spec.specs.Excluding.{chops_of, behind};
ghost use Rattle.plain_values.specs.Answers.{Answers};
ghost use Rattle.subtree_spec.specs.Subtrees.{Subtree, choice_of, subtree_of};

use crate::error::BadText;
use crate::exclusions::{Chopped, exclusions};
use crate::parts::{name, no_name};
use crate::refinements::refinement;
use crate::spec::{Refinement, Spec};
use dn_names::Dn;
use gser_tree::{Bad, Stop, Tree, component, number, read_tree};
use std::alloc::Global;

const MOST: u32 = 2_147_483_647;

const DEEPEST: usize = 64;

fn base<'a>(alloc: Global, trees: &'a [Tree], bad: &mut Bad) -> Result<(Dn, &'a [Tree]), Stop>
    ensures read { Reads (behind (λ name. name)) result bad.new.first
        (optional (codes "base") [] name (map shape_of trees.now) bad.old.first) }
{
    match component("base", trees) {
        Some((value, rest)) => Ok((name(alloc, value, bad)?, rest)),
        None => Ok((no_name(alloc)?, trees)),
    }
}

fn chops<'a>(alloc: Global, trees: &'a [Tree], bad: &mut Bad) -> Result<(Chopped, &'a [Tree]), Stop>
    ensures read { Reads (behind chops_of) result bad.new.first
        (optional (codes "specificExclusions") no_chops exclusions (map shape_of trees.now) bad.old.first) }
{
    match component("specificExclusions", trees) {
        Some((value, rest)) => Ok((exclusions(alloc, value, bad)?, rest)),
        None => Ok((Chopped::new(alloc), trees)),
    }
}

fn minimum<'a>(trees: &'a [Tree], bad: &mut Bad) -> Result<(u32, &'a [Tree]), Stop>
    ensures read { Reads (behind (λ count. count)) result bad.new.first
        (optional (codes "minimum") 0 distance (map shape_of trees.now) bad.old.first) }
{
    match component("minimum", trees) {
        Some((value, rest)) => Ok((number(value, MOST, bad)?, rest)),
        None => Ok((0, trees)),
    }
}

fn maximum<'a>(trees: &'a [Tree], bad: &mut Bad) -> Result<(Option<u32>, &'a [Tree]), Stop>
    ensures read { Reads (behind (λ count. count)) result bad.new.first
        (optional (codes "maximum") None (there distance) (map shape_of trees.now) bad.old.first) }
{
    match component("maximum", trees) {
        Some((value, rest)) => Ok((Some(number(value, MOST, bad)?), rest)),
        None => Ok((None, trees)),
    }
}

fn filter<'a>(
    alloc: Global,
    trees: &'a [Tree],
    bad: &mut Bad,
) -> Result<(Option<Refinement>, &'a [Tree]), Stop>
    ensures read { Reads (behind (option_map choice_of)) result bad.new.first
        (optional (codes "specificationFilter") None (there (refinement 64)) (map shape_of trees.now) bad.old.first) }
{
    match component("specificationFilter", trees) {
        Some((value, rest)) => Ok((Some(refinement(alloc, value, DEEPEST, bad)?), rest)),
        None => Ok((None, trees)),
    }
}

// The components of a specification, and the members behind them.
#[tactic(auto, unfolding(crate::specs::SubtreeText::components))]
fn components<'a>(
    alloc: Global,
    trees: &'a [Tree],
    bad: &mut Bad,
) -> Result<(Spec, &'a [Tree]), Stop>
    ensures read { Reads (behind subtree_of) result bad.new.first (components (map shape_of trees.now) bad.old.first) }
{
    let (base, trees) = base(alloc, trees, bad)?;
    let (chops, trees) = chops(alloc, trees, bad)?;
    let (minimum, trees) = minimum(trees, bad)?;
    let (maximum, trees) = maximum(trees, bad)?;
    let (filter, trees) = filter(alloc, trees, bad)?;
    let Chopped { before, after } = chops;
    let spec = Spec {
        base,
        before,
        after,
        minimum,
        maximum,
        filter,
    };
    Ok((spec, trees))
}

/// The specification that a value is.
#[tactic(auto, unfolding(crate::specs::SubtreeText::subtree))]
pub fn subtree(alloc: Global, tree: &Tree, bad: &mut Bad) -> Result<Spec, Stop>
    ensures read { Reads subtree_of result bad.new.first (subtree (shape_of tree.now) bad.old.first) }
{
    let trees = tree.members().ok_or(Stop::Misfit)?;
    let (spec, trees) = components(alloc, trees, bad)?;
    match trees {
        [] => Ok(spec),
        [_, ..] => Err(Stop::Misfit),
    }
}

/// Reads a subtree specification (RFC 3672 Appendix A, RFC 3641).
///
/// `Text` comes for octets that are not in the grammar, else `Part` for the first part that breaks its rule: a name that
/// is none, a number above 2,147,483,647, an object identifier of no class. `NoMemory` may come in place of any answer.
pub fn read(alloc: Global, text: &[u8]) -> Result<Spec, BadText>
    ensures ok { IfOk result (λ spec. SubText (subtree_of spec) text.now) }
    ensures given { (spec : Subtree) → SubText spec text.now → Answers subtree_of fault_of result (Ok spec) }
    ensures only { (shape : Shape) → IsTextOf shape text.now → nest shape ≤ 100
        → Answers subtree_of fault_of result (judged (subtree shape None)) }
    ensures outside { ((shape : Shape) → IsTextOf shape text.now → ⊥)
        → Answers subtree_of fault_of result (Err Text) }
    ensures exact { Answers subtree_of fault_of result (read_subtree text.now) }
{
    read_all(alloc, text)
}

// As `read`, by the function of the text.
#[tactic(auto, unfolding(crate::specs::SubtreeText::read_subtree))]
fn read_all(alloc: Global, text: &[u8]) -> Result<Spec, BadText>
    ensures exact { Answers subtree_of fault_of result (read_subtree text.now) }
{
    let tree = match read_tree(alloc, text)? {
        Some(tree) => tree,
        None => return Err(BadText::Text),
    };
    let mut bad = Bad::none();
    match subtree(alloc, &tree, &mut bad) {
        Ok(spec) => match bad.first {
            Some(place) => Err(BadText::Part { place }),
            None => Ok(spec),
        },
        Err(Stop::Misfit) => Err(BadText::Text),
        Err(Stop::NoMemory) => Err(BadText::NoMemory),
    }
}
