//! The six filters.

ghost use Rattle.std.specs.Prelude.{◌≡◌, ◌==◌, filter, map, length, min};
ghost use Rattle.std.specs.List.{list_any, reduce};
ghost use Rattle.acdf_filters.specs.users.Choices.{greatest, highest, lowest, passing_or_all};
ghost use Rattle.explanation.specs.Candidates.{AreCounted, deciding};

use crate::candidates::Candidate;
use crate::steps::Counts;

// Leaves those that stay for the requester.
fn keep_staying(candidates: &mut Vec<Candidate>)
    ensures exact { candidates.new.items ≡ filter (λ one. one.facts.stays) candidates.old.items }
{
    candidates.retain(|one| one.facts.stays);
}

// Leaves those that cover the item.
fn keep_covering(candidates: &mut Vec<Candidate>)
    ensures exact { candidates.new.items ≡ filter (λ one. one.facts.covers) candidates.old.items }
{
    candidates.retain(|one| one.facts.covers);
}

// Leaves those with the permission that extend to what is added.
fn keep_permitted(candidates: &mut Vec<Candidate>)
    ensures exact { candidates.new.items ≡ filter (λ one. one.facts.permitted) candidates.old.items }
{
    candidates.retain(|one| one.facts.permitted);
}

// The highest precedence; 0 of none.
fn highest_precedence(candidates: &[Candidate]) -> u8
    ensures exact { result ≡ greatest (map (λ one. one.facts.precedence) candidates.now) }
{
    let mut precedence = 0;
    for one in candidates {
        precedence = one.facts.precedence.max(precedence);
    }
    precedence
}

// Leaves those of the highest precedence.
fn keep_foremost(candidates: &mut Vec<Candidate>)
    ensures exact { candidates.new.items ≡ highest (λ one. one.facts.precedence) candidates.old.items }
{
    let precedence = highest_precedence(candidates);
    candidates.retain(
        |one: &Candidate| -> bool
            ensures { result ≡ (one.now.facts.precedence == precedence) }
        { one.facts.precedence == precedence },
    );
}

// The rank of the most specific class, where there is one.
fn lowest_rank(candidates: &[Candidate]) -> Option<u8>
    ensures exact { result ≡ reduce min (map (λ one. one.facts.rank) candidates.now) }
{
    candidates.iter().map(|one| one.facts.rank).min()
}

// Leaves those of the most specific class.
fn keep_most_specific(candidates: &mut Vec<Candidate>)
    ensures exact { candidates.new.items ≡ lowest (λ one. one.facts.rank) candidates.old.items }
{
    if let Some(rank) = lowest_rank(candidates) {
        candidates.retain(
            |one: &Candidate| -> bool
                ensures { result ≡ (one.now.facts.rank == rank) }
            { one.facts.rank == rank },
        );
    }
}

// Whether one names the item explicitly.
fn is_any_explicit(candidates: &[Candidate]) -> bool
    ensures exact { result ≡ list_any (λ one. one.facts.explicit) candidates.now }
{
    candidates.iter().any(|one| one.facts.explicit)
}

// Leaves those that name the item explicitly, if any does.
fn keep_explicit(candidates: &mut Vec<Candidate>)
    ensures exact { candidates.new.items ≡ passing_or_all (λ one. one.facts.explicit) candidates.old.items }
{
    if is_any_explicit(candidates) {
        candidates.retain(|one| one.facts.explicit);
    }
}

/// Leaves those that decide, and counts what each filter leaves.
pub(crate) fn keep_deciding(candidates: &mut Vec<Candidate>) -> Counts
    ensures counts { AreCounted candidates.old.items result }
    ensures exact { candidates.new.items ≡ deciding (λ one. one.facts) candidates.old.items }
{
    let listed = candidates.len();
    keep_staying(candidates);
    let users = candidates.len();
    keep_covering(candidates);
    let item = candidates.len();
    keep_permitted(candidates);
    let permission = candidates.len();
    keep_foremost(candidates);
    let precedence = candidates.len();
    keep_most_specific(candidates);
    let class = candidates.len();
    keep_explicit(candidates);
    Counts {
        listed,
        users,
        item,
        permission,
        precedence,
        class,
        explicit: candidates.len(),
    }
}
