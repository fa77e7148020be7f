//! The depths of the nests that a directive gives, over nests of given depths, and how many loops it needs of its body.

ghost use Rattle.std.specs.Prelude.{◌≡◌, ◌+◌, ◌-◌, ◌<◌, [], ◌∷◌, ◌++◌, length, map, get_or, take, drop, IfOk};
ghost use Rattle.std.specs.Option.{option_map};
ghost use Rattle.c_semantics.specs.Loops.Need as need;
ghost use Rattle.canonical_nests.specs.LoopRules.PlacedPlans.{forget_plan, forget_items};
ghost use Rattle.canonical_nests.specs.LoopRules.Structure as structure;
ghost use Rattle.canonical_nests.specs.Plans.{seen_transformation, seen_plan, seen_item, gather, part_of, loops_above};

use crate::plan::{Applied, Plan, Transformation};
use std::alloc::{AllocError, Global};

/// The loops that a transformation takes; `fuse` takes one of each part.
pub fn takes(c: &Transformation) -> u64
    ensures { result ≡ need.takes (seen_transformation c.now) }
{
    match c {
        Transformation::Tile(sizes) => sizes.len() as u64,
        Transformation::Interchange(permutation) => permutation.len() as u64,
        Transformation::Reverse
        | Transformation::Split(_)
        | Transformation::Fuse(_)
        | Transformation::UnrollFull
        | Transformation::UnrollPartial(_) => 1,
    }
}

/// Whether each depth is at least this one.
#[tactic(auto, using(crate::proofs::DepthLists::depth_lists))]
pub fn all_at_least(least: u64, depths: &[u64]) -> bool
    ensures { result ≡ need.all_at_least least depths.now }
{
    'each: for depth in depths {
        if *depth < least {
            return false;
        }
    }
    true
}

#[tactic(auto, using(crate::proofs::DepthLists::depth_lists))]
fn first_depth(depths: &[u64]) -> u64
    ensures { result ≡ get_or depths.now 0 0 }
{
    if depths.is_empty() { 0 } else { depths[0] }
}

/// The sum. One past 64 bits counts as want of memory: no text that a memory holds asks for as many loops.
pub fn sum(a: u64, b: u64) -> Result<u64, AllocError>
    ensures { IfOk result (λ c. c ≡ a + b) }
{
    match a.checked_add(b) {
        None => Err(AllocError),
        Some(c) => Ok(c),
    }
}

/// A list of one depth.
pub fn only(alloc: Global, depth: u64) -> Result<Vec<u64>, AllocError>
    ensures { IfOk result (λ depths. depths.items ≡ depth ∷ []) }
{
    let mut depths = Vec::new(alloc);
    depths.push(depth)?;
    Ok(depths)
}

/// The first so many.
#[tactic(auto, using(crate::proofs::DepthLists::depth_lists))]
fn up_to(depths: &[u64], count: u64) -> &[u64]
    ensures { result.now ≡ take count depths.now }
{
    if count < depths.len() as u64 {
        &depths[..count as usize]
    } else {
        depths
    }
}

/// All but the first so many.
#[tactic(auto, using(crate::proofs::DepthLists::depth_lists))]
fn beyond(depths: &[u64], count: u64) -> &[u64]
    ensures { result.now ≡ drop count depths.now }
{
    if count < depths.len() as u64 {
        &depths[count as usize..]
    } else {
        &depths[depths.len()..]
    }
}

/// The depths with those of the selected parts replaced by 1: `first` from 1.
#[tactic(auto, using(crate::proofs::DepthLists::depth_lists))]
fn fused_depths(
    alloc: Global,
    first: u64,
    count: u64,
    depths: &[u64],
) -> Result<Vec<u64>, AllocError>
    ensures { IfOk result (λ fused. fused.items ≡ take (first - 1) depths.now ++ 1 ∷ drop (first - 1 + count) depths.now) }
{
    let before = first.saturating_sub(1);
    let mut fused = Vec::from_slice(alloc, up_to(depths, before))?;
    fused.push(1)?;
    fused.extend_from_slice(beyond(depths, before.saturating_add(count)))?;
    Ok(fused)
}

/// The depths of the parts that a transformation gives, before its items.
#[tactic(auto, using(crate::proofs::DepthLists::depth_lists))]
pub fn transformed_depths(
    alloc: Global,
    c: &Transformation,
    depths: &[u64],
) -> Result<Vec<u64>, AllocError>
    ensures { IfOk result (λ given. given.items ≡ need.transformed_depths (seen_transformation c.now) depths.now) }
{
    match c {
        Transformation::Tile(sizes) => only(alloc, sum(first_depth(depths), sizes.len() as u64)?),
        Transformation::Split(counts) => {
            let mut given = Vec::new(alloc);
            given.resize(counts.len(), first_depth(depths))?;
            Ok(given)
        }
        Transformation::Fuse(Some((first, count))) => fused_depths(alloc, *first, *count, depths),
        Transformation::Fuse(None) | Transformation::UnrollPartial(_) => only(alloc, 1),
        Transformation::UnrollFull => only(alloc, 0),
        Transformation::Interchange(_) | Transformation::Reverse => {
            Vec::from_slice(alloc, up_to(depths, 1))
        }
    }
}

/// Where an item stands: the part, from 0, and how many of its loops stand round the item.
#[derive(Clone, Copy)]
pub(crate) struct Place {
    pub(crate) part: u64,
    pub(crate) below: u64,
}

pub(crate) fn place_of(c: &Transformation, position: u64) -> Place
    ensures part { result.part ≡ part_of (seen_transformation c.now) position }
    ensures below { result.below ≡ loops_above (seen_transformation c.now) position }
{
    let before = position.saturating_sub(1);
    match c {
        Transformation::Split(_) => Place {
            part: before,
            below: 0,
        },
        Transformation::Fuse(Some((first, _))) => Place {
            part: first.saturating_sub(1),
            below: before,
        },
        Transformation::Tile(_)
        | Transformation::Interchange(_)
        | Transformation::Reverse
        | Transformation::Fuse(None)
        | Transformation::UnrollFull
        | Transformation::UnrollPartial(_) => Place {
            part: 0,
            below: before,
        },
    }
}

/// What an item gives below so many loops: one part goes on the nest, several end it.
fn nested(alloc: Global, below: u64, given: Vec<u64>) -> Result<Vec<u64>, AllocError>
    ensures { IfOk result (λ depths. depths.items ≡ need.nested_depths below given.items) }
{
    if below == 0 {
        return Ok(given);
    }
    match given.as_slice() {
        [depth] => only(alloc, sum(below, *depth)?),
        _ => only(alloc, below),
    }
}

/// The depths of the parts that a directive gives, over parts of these depths; `None` exactly where the directive or an
/// item doesn't find the loops that it takes.
#[cycle(depths)]
pub fn depths(alloc: Global, plan: &Plan, over: &[u64]) -> Result<Option<Vec<u64>>, AllocError>
    ensures { IfOk result (λ given. option_map (λ v. v.items) given ≡ need.depths (forget_plan (seen_plan plan.now)) over.now) }
{
    if !all_at_least(takes(&plan.transformation), over) {
        return Ok(None);
    }
    let given = transformed_depths(alloc, &plan.transformation, over)?;
    applied_depths(alloc, &plan.transformation, plan.items.as_slice(), given)
}

#[tactic(auto, using(crate::proofs::Applied::applied))]
#[cycle(depths)]
fn applied_depths(
    alloc: Global,
    c: &Transformation,
    items: &[Applied],
    given: Vec<u64>,
) -> Result<Option<Vec<u64>>, AllocError>
    ensures { IfOk result (λ left. option_map (λ v. v.items) left ≡ need.applied_depths (seen_transformation c.now) (forget_items (gather (map seen_item items.now))) given.items) }
{
    let mut depths = given;
    'each: for item in items {
        let place = place_of(c, item.position);
        match part_depths(alloc, &item.plan, place, depths.as_slice())? {
            None => return Ok(None),
            Some(next) => depths = next,
        }
    }
    Ok(Some(depths))
}

/// The depths with that of a part replaced by the given ones.
#[tactic(auto, using(crate::proofs::DepthLists::depth_lists))]
fn replaced(alloc: Global, depths: &[u64], part: u64, given: &[u64]) -> Result<Vec<u64>, AllocError>
    requires { part < length depths.now }
    ensures { IfOk result (λ all. all.items ≡ take part depths.now ++ (given.now ++ drop (part + 1) depths.now)) }
{
    let mut all = Vec::from_slice(alloc, up_to(depths, part))?;
    all.extend_from_slice(given)?;
    all.extend_from_slice(beyond(depths, part + 1))?;
    Ok(all)
}

/// The depths with that of a part replaced by those that an item gives for it.
#[tactic(auto, using(crate::proofs::DepthLists::depth_lists))]
#[cycle(depths)]
fn part_depths(
    alloc: Global,
    plan: &Plan,
    place: Place,
    depths: &[u64],
) -> Result<Option<Vec<u64>>, AllocError>
    ensures { IfOk result (λ left. option_map (λ v. v.items) left ≡ need.part_depths place.part (need.below_depths place.below (need.depths (forget_plan (seen_plan plan.now)))) depths.now) }
{
    if place.part >= depths.len() as u64 {
        return Ok(None);
    }
    let depth = depths[place.part as usize];
    match item_depths(alloc, plan, place.below, depth)? {
        None => Ok(None),
        Some(given) => Ok(Some(replaced(alloc, depths, place.part, given.as_slice())?)),
    }
}

#[cycle(depths)]
fn item_depths(
    alloc: Global,
    plan: &Plan,
    below: u64,
    depth: u64,
) -> Result<Option<Vec<u64>>, AllocError>
    ensures { IfOk result (λ left. option_map (λ v. v.items) left ≡ need.below_depths below (need.depths (forget_plan (seen_plan plan.now))) depth) }
{
    if depth < below {
        return Ok(None);
    }
    let over = only(alloc, depth - below)?;
    match depths(alloc, plan, over.as_slice())? {
        None => Ok(None),
        Some(given) => Ok(Some(nested(alloc, below, given)?)),
    }
}

/// The depth of the part at an item's position, below the loops that stand round the item, and 0 where there is no such
/// part.
#[tactic(auto, using(crate::proofs::Positioned::positioned))]
pub fn depth_at(c: &Transformation, position: u64, depths: &[u64]) -> u64
    ensures { result ≡ structure.depth_at (seen_transformation c.now) position depths.now }
{
    let place = place_of(c, position);
    if place.part < depths.len() as u64 {
        depths[place.part as usize].saturating_sub(place.below)
    } else {
        0
    }
}

/// The depths with that of the part at a position replaced by those that an item gives for it, and no depth where the
/// item doesn't find its loops.
#[tactic(auto, using(crate::proofs::Positioned::positioned))]
pub fn after_item(
    alloc: Global,
    c: &Transformation,
    position: u64,
    plan: &Plan,
    depths: &[u64],
) -> Result<Vec<u64>, AllocError>
    ensures { IfOk result (λ left. left.items ≡ structure.after_item (seen_transformation c.now) position (seen_plan plan.now) depths.now) }
{
    match part_depths(alloc, plan, place_of(c, position), depths)? {
        None => Ok(Vec::new(alloc)),
        Some(left) => Ok(left),
    }
}
