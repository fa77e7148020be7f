//! The kinds of the loops that `split` gives (OpenMP 6.0, 11.6).

ghost use Rattle.std.specs.Prelude.{◌≡◌, ◌-◌, ◌∷◌, map, Some, IfOk};
ghost use Rattle.c_semantics.specs.Loops.Transformations as transformations;
ghost use Rattle.c_semantics.specs.Structure.Parts as parts;
ghost use Rattle.canonical_nests.specs.Kinds as kinds;

use crate::part::{Part, push_kinds};
use crate::positions::copy_kind;
use c_tree::items::Items;
use canonical_nests::nest::CountKind;
use std::alloc::{AllocError, Global};

/// What is left of a number of turns beside the counts that are given.
#[tactic(auto, using(crate::proofs::Splits::splits))]
fn left_over(turns: u64, counts: &[Option<u64>]) -> u64
    ensures { result ≡ turns - transformations.known_counts counts.now }
{
    let mut left = turns;
    'each: for count in counts {
        if let Some(count) = *count {
            left = left.saturating_sub(count);
        }
    }
    left
}

/// The parts of a known number of turns, where `fill` stands for `omp_fill`.
#[tactic(auto, using(crate::proofs::Splits::splits))]
fn known_parts(
    alloc: Global,
    turns: u64,
    fill: u64,
    counts: &[Option<u64>],
) -> Result<Vec<CountKind>, AllocError>
    ensures { IfOk result (λ all. all.items ≡ map CountKind.Known (parts.clipped turns (map (transformations.filled fill) counts.now))) }
{
    let mut all = Vec::new(alloc);
    let mut left = turns;
    'each: for count in counts {
        let wanted = count.unwrap_or(fill);
        all.push(CountKind::Known(wanted.min(left)))?;
        left = left.saturating_sub(wanted);
    }
    Ok(all)
}

/// As many copies as there are counts.
#[tactic(auto, using(crate::proofs::Splits::splits))]
fn same_parts(
    alloc: Global,
    kind: &CountKind,
    counts: &[Option<u64>],
) -> Result<Vec<CountKind>, AllocError>
    ensures { IfOk result (λ all. all.items ≡ map (λ _. kind.now) counts.now) }
{
    let mut all = Vec::new(alloc);
    'each: for _count in counts {
        all.push(copy_kind(alloc, kind)?)?;
    }
    Ok(all)
}

/// The loop of each part that `split` makes of a loop.
#[tactic(auto, using(crate::proofs::Splits::splits))]
fn split_kinds(
    alloc: Global,
    kind: &CountKind,
    counts: &[Option<u64>],
) -> Result<Vec<CountKind>, AllocError>
    ensures { IfOk result (λ all. all.items ≡ kinds.split_kinds kind.now counts.now) }
{
    match kind {
        CountKind::Known(turns) => known_parts(alloc, *turns, left_over(*turns, counts), counts),
        _ => same_parts(alloc, kind, counts),
    }
}

fn with_first(alloc: Global, first: &CountKind, rest: &[CountKind]) -> Result<Part, AllocError>
    ensures { IfOk result (λ part. part ≡ first.now ∷ rest.now) }
{
    let mut all = Vec::new(alloc);
    all.push(copy_kind(alloc, first)?)?;
    push_kinds(alloc, &mut all, rest)?;
    Ok(Items::from_items(all))
}

/// Each loop with the others below it.
#[tactic(auto, using(crate::proofs::Splits::splits))]
fn with_rest(
    alloc: Global,
    firsts: &[CountKind],
    rest: &[CountKind],
) -> Result<Vec<Part>, AllocError>
    ensures { IfOk result (λ all. all.items ≡ map (λ first. first ∷ rest.now) firsts.now) }
{
    let mut all = Vec::new(alloc);
    'each: for first in firsts {
        all.push(with_first(alloc, first, rest)?)?;
    }
    Ok(all)
}

/// The parts that `split` makes of a loop with others below it.
pub fn split_parts(
    alloc: Global,
    kind: &CountKind,
    rest: &[CountKind],
    counts: &[Option<u64>],
) -> Result<Vec<Part>, AllocError>
    ensures { IfOk result (λ all. all.items ≡ map (λ first. first ∷ rest.now) (kinds.split_kinds kind.now counts.now)) }
{
    let firsts = split_kinds(alloc, kind, counts)?;
    with_rest(alloc, firsts.as_slice(), rest)
}
