//! The depths of the parts that a directive gives, where the number of its body's loops is left open: each follows that
//! number, or is fixed.

ghost use Rattle.std.specs.Prelude.{◌≡◌, ◌+◌, ◌-◌, ◌<◌, ◌&&◌, ℕ, [], ◌∷◌, ◌++◌, length, map, get_or, take, drop, nat_le, IfOk};
ghost use Rattle.c_semantics.specs.Loops.Need as need;
ghost use Rattle.canonical_nests.specs.LoopRules.PlacedPlans.{forget_plan, forget_items};
ghost use Rattle.canonical_nests.specs.Plans.{seen_transformation, seen_plan, seen_item, gather};
ghost use Rattle.canonical_nests.specs.BodyDepths.{depth_over, depths_over, holds_from, parts_over};
ghost use Rattle.canonical_nests.specs.declared.body_depths.Depth.TheVariants.{Fixed};

use crate::depths::{Place, place_of, sum, takes};
use crate::plan::{Applied, Plan, Transformation};
use std::alloc::{AllocError, Global};

/// The depth of a part.
#[derive(Clone, Copy, Debug, Drop)]
enum Depth {
    /// The body's loops without the first `less`, if there are so many, and `more`.
    Follows { less: u64, more: u64 },
    Fixed(u64),
}

/// The parts that are given where the body has at least so many loops; with fewer, loops are not found.
#[derive(Debug, Drop)]
struct Parts {
    least: u64,
    depths: Vec<Depth>,
}

/// The depth with so many loops more.
fn deeper(depth: Depth, loops: u64) -> Result<Depth, AllocError>
    ensures { IfOk result (λ d. (k : ℕ) → depth_over k d ≡ depth_over k depth + loops) }
{
    match depth {
        Depth::Follows { less, more } => Ok(Depth::Follows {
            less,
            more: sum(more, loops)?,
        }),
        Depth::Fixed(n) => Ok(Depth::Fixed(sum(n, loops)?)),
    }
}

/// The depth without so many loops, if there are so many.
fn shallower(depth: Depth, loops: u64) -> Result<Depth, AllocError>
    ensures { IfOk result (λ d. (k : ℕ) → depth_over k d ≡ depth_over k depth - loops) }
{
    match depth {
        Depth::Follows { less, more } => Ok(Depth::Follows {
            less: sum(less, loops.saturating_sub(more))?,
            more: more.saturating_sub(loops),
        }),
        Depth::Fixed(n) => Ok(Depth::Fixed(n.saturating_sub(loops))),
    }
}

/// The least number of body loops with which the depth is at least this one; `None` where no number is enough.
fn least_with(wanted: u64, depth: Depth) -> Result<Option<u64>, AllocError>
    ensures { IfOk result (λ least. (k : ℕ) → holds_from least k ≡ nat_le wanted (depth_over k depth)) }
{
    match depth {
        Depth::Follows { less, more } => {
            if wanted <= more {
                Ok(Some(0))
            } else {
                Ok(Some(sum(less, wanted - more)?))
            }
        }
        Depth::Fixed(n) => { if wanted <= n { Ok(Some(0)) } else { Ok(None) } }
    }
}

/// The least number with which both hold.
fn both(a: Option<u64>, b: Option<u64>) -> Option<u64>
    ensures { (k : ℕ) → holds_from result k ≡ (holds_from a k && holds_from b k) }
{
    match (a, b) {
        (Some(a), Some(b)) => Some(a.max(b)),
        (None, _) | (_, None) => None,
    }
}

/// The least number of body loops with which each depth is at least this one.
fn least_with_all(wanted: u64, depths: &[Depth]) -> Result<Option<u64>, AllocError>
    ensures { IfOk result (λ least. (k : ℕ) → holds_from least k ≡ need.all_at_least wanted (depths_over k depths.now)) }
{
    let mut least = Some(0);
    'each: for depth in depths {
        least = both(least, least_with(wanted, *depth)?);
    }
    Ok(least)
}

/// The first depth, 0 where there is none.
fn first_depth(depths: &[Depth]) -> Depth
    ensures { (k : ℕ) → depth_over k result ≡ get_or (depths_over k depths.now) 0 0 }
{
    match depths.first() {
        None => Depth::Fixed(0),
        Some(depth) => *depth,
    }
}

fn only(alloc: Global, depth: Depth) -> Result<Vec<Depth>, AllocError>
    ensures { IfOk result (λ depths. depths.items ≡ depth ∷ []) }
{
    let mut depths = Vec::new(alloc);
    depths.push(depth)?;
    Ok(depths)
}

/// The first so many.
#[tactic(auto, using(crate::proofs::BodyDepths::cuts))]
fn up_to(depths: &[Depth], count: u64) -> &[Depth]
    ensures { result.now ≡ take count depths.now }
{
    if count < depths.len() as u64 {
        &depths[..count as usize]
    } else {
        depths
    }
}

/// All but the first so many.
#[tactic(auto, using(crate::proofs::BodyDepths::cuts))]
fn beyond(depths: &[Depth], count: u64) -> &[Depth]
    ensures { result.now ≡ drop count depths.now }
{
    if count < depths.len() as u64 {
        &depths[count as usize..]
    } else {
        &depths[depths.len()..]
    }
}

/// The depths with those of the selected parts replaced by 1: `first` from 1.
#[tactic(auto, using(crate::proofs::BodyDepths::cuts))]
fn fused_depths(
    alloc: Global,
    first: u64,
    count: u64,
    depths: &[Depth],
) -> Result<Vec<Depth>, AllocError>
    ensures { IfOk result (λ fused. fused.items ≡ take (first - 1) depths.now ++ Fixed 1 ∷ drop (first - 1 + count) depths.now) }
{
    let before = first.saturating_sub(1);
    let mut fused = Vec::from_slice(alloc, up_to(depths, before))?;
    fused.push(Depth::Fixed(1))?;
    fused.extend_from_slice(beyond(depths, before.saturating_add(count)))?;
    Ok(fused)
}

/// The depths of the parts that a transformation gives, before its items.
#[tactic(auto, using(crate::proofs::BodyDepths::maps))]
fn transformed_depths(
    alloc: Global,
    c: &Transformation,
    depths: &[Depth],
) -> Result<Vec<Depth>, AllocError>
    ensures { IfOk result (λ given. (k : ℕ) → depths_over k given.items ≡ need.transformed_depths (seen_transformation c.now) (depths_over k depths.now)) }
{
    match c {
        Transformation::Tile(sizes) => only(
            alloc,
            deeper(first_depth(depths), sizes.len() as u64)?,
        ),
        Transformation::Split(counts) => {
            let mut given = Vec::new(alloc);
            given.resize(counts.len(), first_depth(depths))?;
            Ok(given)
        }
        Transformation::Fuse(Some((first, count))) => {
            let fused = fused_depths(alloc, *first, *count, depths)?;
            Ok(fused)
        }
        Transformation::Fuse(None) | Transformation::UnrollPartial(_) => {
            only(alloc, Depth::Fixed(1))
        }
        Transformation::UnrollFull => only(alloc, Depth::Fixed(0)),
        Transformation::Interchange(_) | Transformation::Reverse => {
            Vec::from_slice(alloc, up_to(depths, 1))
        }
    }
}

/// What an item gives below so many loops: one part goes on the nest, several end it.
fn nested(alloc: Global, below: u64, given: Vec<Depth>) -> Result<Vec<Depth>, AllocError>
    ensures { IfOk result (λ depths. (k : ℕ) → depths_over k depths.items ≡ need.nested_depths below (depths_over k given.items)) }
{
    if below == 0 {
        return Ok(given);
    }
    match given.as_slice() {
        [depth] => only(alloc, deeper(*depth, below)?),
        _ => only(alloc, Depth::Fixed(below)),
    }
}

/// The depths with that of a part replaced by the given ones.
#[tactic(auto, using(crate::proofs::BodyDepths::cuts))]
fn replaced(
    alloc: Global,
    depths: &[Depth],
    part: u64,
    given: &[Depth],
) -> Result<Vec<Depth>, AllocError>
    requires { part < length depths.now }
    ensures { IfOk result (λ all. all.items ≡ take part depths.now ++ (given.now ++ drop (part + 1) depths.now)) }
{
    let mut all = Vec::from_slice(alloc, up_to(depths, part))?;
    all.extend_from_slice(given)?;
    all.extend_from_slice(beyond(depths, part + 1))?;
    Ok(all)
}

/// The parts that a directive gives, over parts of these depths; `None` where it never finds the loops that it takes.
#[cycle(body_depths)]
fn depths(alloc: Global, plan: &Plan, over: &[Depth]) -> Result<Option<Parts>, AllocError>
    ensures { IfOk result (λ given. (k : ℕ) → parts_over k given ≡ need.depths (forget_plan (seen_plan plan.now)) (depths_over k over.now)) }
{
    match least_with_all(takes(&plan.transformation), over)? {
        None => Ok(None),
        Some(least) => {
            let given = Parts {
                least,
                depths: transformed_depths(alloc, &plan.transformation, over)?,
            };
            let items = plan.items.as_slice();
            let left = applied_depths(alloc, &plan.transformation, items, given)?;
            Ok(left)
        }
    }
}

/// What the items make of parts.
#[cycle(body_depths)]
fn applied_depths(
    alloc: Global,
    c: &Transformation,
    items: &[Applied],
    given: Parts,
) -> Result<Option<Parts>, AllocError>
    ensures { IfOk result (λ left. (k : ℕ) → parts_over k left ≡ need.if_some (parts_over k (Some given)) (need.applied_depths (seen_transformation c.now) (forget_items (gather (map seen_item items.now))))) }
{
    let mut parts = given;
    'each: for item in items {
        let place = place_of(c, item.position);
        match part_depths(alloc, &item.plan, place, &parts)? {
            None => return Ok(None),
            Some(next) => parts = next,
        }
    }
    Ok(Some(parts))
}

/// The parts with one replaced by those that an item gives for it.
#[cycle(body_depths)]
fn part_depths(
    alloc: Global,
    plan: &Plan,
    place: Place,
    parts: &Parts,
) -> Result<Option<Parts>, AllocError>
    ensures { IfOk result (λ left. (k : ℕ) → parts_over k left ≡ need.if_some (parts_over k (Some parts.now)) (need.part_depths place.part (need.below_depths place.below (need.depths (forget_plan (seen_plan plan.now)))))) }
{
    let all = parts.depths.as_slice();
    if place.part >= all.len() as u64 {
        return Ok(None);
    }
    let depth = all[place.part as usize];
    match item_depths(alloc, plan, place.below, depth)? {
        None => Ok(None),
        Some(given) => Ok(Some(Parts {
            least: parts.least.max(given.least),
            depths: replaced(alloc, all, place.part, given.depths.as_slice())?,
        })),
    }
}

/// What an item gives below so many loops of a part.
#[cycle(body_depths)]
fn item_depths(
    alloc: Global,
    plan: &Plan,
    below: u64,
    depth: Depth,
) -> Result<Option<Parts>, AllocError>
    ensures { IfOk result (λ left. (k : ℕ) → parts_over k left ≡ need.below_depths below (need.depths (forget_plan (seen_plan plan.now))) (depth_over k depth)) }
{
    match least_with(below, depth)? {
        None => Ok(None),
        Some(least) => {
            let over = only(alloc, shallower(depth, below)?)?;
            match depths(alloc, plan, over.as_slice())? {
                None => Ok(None),
                Some(given) => Ok(Some(Parts {
                    least: least.max(given.least),
                    depths: nested(alloc, below, given.depths)?,
                })),
            }
        }
    }
}

/// The least number of body loops that serves: each item finds its loops, and each part has the wanted depth at least;
/// `None` where no number serves.
pub(crate) fn least_that_serves(
    alloc: Global,
    plan: &Plan,
    wanted: u64,
) -> Result<Option<u64>, AllocError>
    ensures { IfOk result (λ least. (k : ℕ) → holds_from least k ≡ need.serves (forget_plan (seen_plan plan.now)) wanted k) }
{
    let body = only(alloc, Depth::Follows { less: 0, more: 0 })?;
    match depths(alloc, plan, body.as_slice())? {
        None => Ok(None),
        Some(parts) => {
            let deep = least_with_all(wanted, parts.depths.as_slice())?;
            Ok(both(Some(parts.least), deep))
        }
    }
}
