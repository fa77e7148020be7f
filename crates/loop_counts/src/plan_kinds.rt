//! The parts that a directive gives with the items of its `apply` clauses, and the kind of each count.

ghost use Rattle.std.specs.Prelude.{◌≡◌, ◌+◌, map, IfOk};
ghost use Rattle.canonical_nests.specs.Kinds as kinds;
ghost use Rattle.canonical_nests.specs.LoopRules.PlacedPlans.{forget_plan, forget_items};
ghost use Rattle.canonical_nests.specs.Plans.{seen_transformation, seen_plan, seen_item, gather, part_of, loops_above};

use crate::moves::settled;
use crate::part::{Part, beyond, copy_part, one_part, push_parts, up_to};
use crate::transformed::transformed_kinds;
use canonical_nests::depths::sum;
use canonical_nests::nest::CountKind;
use canonical_nests::plan::{Applied, Plan, Transformation};
use std::alloc::{AllocError, Global};

/// Where an item stands: the part, from 0, and how many of its loops stand round the item.
#[derive(Clone, Copy)]
pub struct Place {
    pub part: u64,
    pub below: u64,
}

/// Where a position of what a transformation gives is.
pub fn place_of(c: &Transformation, position: u64) -> Place
    ensures part { result.part ≡ part_of (seen_transformation c.now) position }
    ensures below { result.below ≡ loops_above (seen_transformation c.now) position }
{
    let before = position.saturating_sub(1);
    match c {
        Transformation::Split(_) => Place {
            part: before,
            below: 0,
        },
        Transformation::Fuse(Some((first, _))) => Place {
            part: first.saturating_sub(1),
            below: before,
        },
        Transformation::Tile(_)
        | Transformation::Interchange(_)
        | Transformation::Reverse
        | Transformation::Fuse(None)
        | Transformation::UnrollFull
        | Transformation::UnrollPartial(_) => Place {
            part: 0,
            below: before,
        },
    }
}

/// What an item gives below so many loops of a part: one part stands as it is, several end it.
fn as_one_part(
    alloc: Global,
    round: u64,
    part: &[CountKind],
    given: Vec<Part>,
) -> Result<Vec<Part>, AllocError>
    ensures { IfOk result (λ parts. parts.items ≡ kinds.as_one_part round part.now given.items) }
{
    if let [_only] = given.as_slice() {
        return Ok(given);
    }
    one_part(alloc, settled(alloc, up_to(part, round))?)
}

/// The parts that a directive gives below so many loops, its items from the last position to the first.
#[cycle(plan_kinds)]
pub fn plan_kinds(
    alloc: Global,
    plan: &Plan,
    round: u64,
    parts: &[Part],
) -> Result<Vec<Part>, AllocError>
    ensures { IfOk result (λ given. given.items ≡ kinds.plan_kinds (forget_plan (seen_plan plan.now)) round parts.now) }
{
    let given = transformed_kinds(alloc, &plan.transformation, round, parts)?;
    applied_kinds(
        alloc,
        &plan.transformation,
        plan.items.as_slice(),
        round,
        given,
    )
}

#[tactic(auto, using(crate::proofs::Applied::applied))]
#[cycle(plan_kinds)]
fn applied_kinds(
    alloc: Global,
    c: &Transformation,
    items: &[Applied],
    round: u64,
    given: Vec<Part>,
) -> Result<Vec<Part>, AllocError>
    ensures { IfOk result (λ left. left.items ≡ kinds.applied_kinds (seen_transformation c.now) (forget_items (gather (map seen_item items.now))) round given.items) }
{
    let mut parts = given;
    'each: for item in items {
        let place = place_of(c, item.position);
        parts = placed_kinds(alloc, &item.plan, place, round, parts.as_slice())?;
    }
    Ok(parts)
}

/// The parts with the one at an item's place replaced by what the item gives for it.
#[tactic(auto, using(crate::proofs::Replaced::replacements))]
#[cycle(plan_kinds)]
pub fn placed_kinds(
    alloc: Global,
    plan: &Plan,
    place: Place,
    round: u64,
    parts: &[Part],
) -> Result<Vec<Part>, AllocError>
    ensures { IfOk result (λ given. given.items ≡ kinds.at_part place.part (kinds.below_loops place.below round (kinds.plan_kinds (forget_plan (seen_plan plan.now)))) parts.now) }
{
    let mut all = Vec::new(alloc);
    if parts.len() as u64 <= place.part {
        push_parts(alloc, &mut all, parts)?;
        return Ok(all);
    }
    let part = parts[place.part as usize].as_slice();
    let given = item_kinds(alloc, plan, place.below, round, part)?;
    push_parts(alloc, &mut all, up_to(parts, place.part))?;
    push_parts(alloc, &mut all, given.as_slice())?;
    push_parts(alloc, &mut all, beyond(parts, place.part + 1))?;
    Ok(all)
}

/// What an item gives for a part, below so many of its loops more.
#[tactic(auto, using(crate::proofs::Replaced::nested))]
#[cycle(plan_kinds)]
fn item_kinds(
    alloc: Global,
    plan: &Plan,
    below: u64,
    round: u64,
    part: &[CountKind],
) -> Result<Vec<Part>, AllocError>
    ensures { IfOk result (λ given. given.items ≡ kinds.below_loops below round (kinds.plan_kinds (forget_plan (seen_plan plan.now))) part.now) }
{
    let all = sum(round, below)?;
    let mut only = Vec::new(alloc);
    only.push(copy_part(alloc, part)?)?;
    let given = plan_kinds(alloc, plan, all, only.as_slice())?;
    if below == 0 {
        return Ok(given);
    }
    as_one_part(alloc, all, part, given)
}
