//! How many loops a directive needs of its body.

ghost use Rattle.std.specs.Prelude.{◌≡◌, IfOk};
ghost use Rattle.c_semantics.specs.Loops.Need as need;
ghost use Rattle.canonical_nests.specs.LoopRules.PlacedPlans.{forget_plan};
ghost use Rattle.canonical_nests.specs.Plans.{seen_plan, seen_transformation};
ghost use Rattle.canonical_nests.specs.BodyDepths.{least_tried_from};

use crate::body_depths::least_that_serves;
use crate::depths::takes;
use crate::plan::{Plan, Transformation};
use std::alloc::{AllocError, Global};

/// The loops that a directive needs of its body where each of its parts is wanted to have a depth of at least `wanted`:
/// the least number, no less than it takes, with which each item finds its loops and each part is as deep as is wanted;
/// `fuse` takes one loop of each part and no more. `None` exactly where no number serves. A number past 64 bits counts as
/// want of memory.
pub fn need(alloc: Global, plan: &Plan, wanted: u64) -> Result<Option<u64>, AllocError>
    ensures { IfOk result (λ n. n ≡ need.need (forget_plan (seen_plan plan.now)) wanted) }
{
    let least = least_that_serves(alloc, plan, wanted)?;
    Ok(least_tried(&plan.transformation, least))
}

/// The least number of body loops that a directive tries, where the numbers from `least` on serve.
fn least_tried(c: &Transformation, least: Option<u64>) -> Option<u64>
    ensures { result ≡ least_tried_from (seen_transformation c.now) least }
{
    let least = least?;
    match c {
        Transformation::Fuse(_) => { if least <= 1 { Some(1) } else { None } }
        Transformation::Tile(_)
        | Transformation::Interchange(_)
        | Transformation::Reverse
        | Transformation::Split(_)
        | Transformation::UnrollFull
        | Transformation::UnrollPartial(_) => Some(takes(c).max(least)),
    }
}

/// What a directive asks of its body: its need, or as many loops as it takes where no number serves.
pub fn loops_asked(alloc: Global, plan: &Plan, wanted: u64) -> Result<u64, AllocError>
    ensures { IfOk result (λ n. n ≡ need.loops_asked (forget_plan (seen_plan plan.now)) wanted) }
{
    match need(alloc, plan, wanted)? {
        Some(loops) => Ok(loops),
        None => Ok(takes(&plan.transformation)),
    }
}
