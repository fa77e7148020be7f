//! How often a directive copies what stands in the loops that it takes: the product over it and all its items.

ghost use Rattle.std.specs.Prelude.{◌≡◌, map, IfOk};
ghost use Rattle.canonical_nests.specs.Kinds as kinds;
ghost use Rattle.canonical_nests.specs.Weight as weight;
ghost use Rattle.canonical_nests.specs.Weight.{capped_weight};
ghost use Rattle.canonical_nests.specs.LoopRules.PlacedPlans.{forget_plan, forget_items};
ghost use Rattle.canonical_nests.specs.Plans.{seen_transformation, seen_plan, seen_item, gather};

use crate::capped::{capped, times};
use canonical_nests::depths::sum;
use canonical_nests::nest::CountKind;
use canonical_nests::plan::{Applied, Plan, Transformation};
use loop_counts::part::{Part, beyond, part_at};
use loop_counts::plan_kinds::{place_of, placed_kinds};
use loop_counts::transformed::transformed_kinds;
use std::alloc::{AllocError, Global};

/// The count of the loop below so many others, and 1 where it isn't known.
#[tactic(auto, using(crate::proofs::Copies::counts))]
fn count_or_one(round: u64, part: &[CountKind]) -> u64
    ensures { result ≡ weight.count_or_one (kinds.kind_at part.now round) }
{
    if part.len() as u64 <= round {
        return 1;
    }
    match &part[round as usize] {
        CountKind::Known(count) => *count,
        CountKind::Entry | CountKind::Depends(_) => 1,
    }
}

/// How often a transformation copies what stands in the loop that it takes, up to the cap.
fn own_copies(c: &Transformation, round: u64, parts: &[Part]) -> u64
    ensures { result ≡ capped_weight (weight.own_copies (seen_transformation c.now) round parts.now) }
{
    match c {
        Transformation::UnrollFull => capped(count_or_one(round, part_at(parts, 0))),
        Transformation::UnrollPartial(factor) => capped(*factor),
        Transformation::Split(counts) => capped(counts.len() as u64),
        Transformation::Tile(_)
        | Transformation::Interchange(_)
        | Transformation::Reverse
        | Transformation::Fuse(_) => 1,
    }
}

/// The product over a directive and all its items, up to the cap.
#[tactic(auto, using(crate::proofs::Caps::products))]
#[cycle(copies)]
pub fn copies(alloc: Global, plan: &Plan, round: u64, parts: &[Part]) -> Result<u64, AllocError>
    ensures { IfOk result (λ n. n ≡ capped_weight (weight.copies (forget_plan (seen_plan plan.now)) round parts.now)) }
{
    let own = own_copies(&plan.transformation, round, parts);
    let given = transformed_kinds(alloc, &plan.transformation, round, parts)?;
    let items = applied_copies(
        alloc,
        &plan.transformation,
        plan.items.as_slice(),
        round,
        given,
    )?;
    Ok(times(own, items))
}

#[tactic(auto, using(crate::proofs::Copies::applied))]
#[cycle(copies)]
fn applied_copies(
    alloc: Global,
    c: &Transformation,
    items: &[Applied],
    round: u64,
    given: Vec<Part>,
) -> Result<u64, AllocError>
    ensures { IfOk result (λ n. n ≡ capped_weight (weight.applied_copies (seen_transformation c.now) (forget_items (gather (map seen_item items.now))) round given.items)) }
{
    let mut parts = given;
    let mut all = 1;
    'each: for item in items {
        let place = place_of(c, item.position);
        let inside = sum(round, place.below)?;
        let here = copies(
            alloc,
            &item.plan,
            inside,
            beyond(parts.as_slice(), place.part),
        )?;
        all = times(all, here);
        parts = placed_kinds(alloc, &item.plan, place, round, parts.as_slice())?;
    }
    Ok(all)
}
