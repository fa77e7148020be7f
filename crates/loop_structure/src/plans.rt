//! Whether a directive and its items find the loops that they take.

ghost use Rattle.std.specs.Prelude.{◌≡◌, map, IfOk};
ghost use Rattle.canonical_nests.specs.LoopRules.BreachSets.{least};
ghost use Rattle.canonical_nests.specs.LoopRules.Structure as structure;
ghost use Rattle.canonical_nests.specs.Plans.{seen_transformation, seen_plan, seen_item, gather};

use canonical_nests::depths::{after_item, depth_at, only, takes, transformed_depths};
use canonical_nests::least::breach_if;
use canonical_nests::plan::{Applied, Plan, Transformation};
use canonical_nests::rules::{LoopBreach, LoopRule};
use std::alloc::{AllocError, Global};

/// The breach where a part has no loop (L22), or fewer than are taken (L7).
#[tactic(auto, using(crate::proofs::PlanSteps::plan_steps))]
fn depth_breach(c: &Transformation, place: u64, depth: u64) -> Option<LoopBreach>
    ensures { result ≡ least (structure.depth_breaches (seen_transformation c.now) place depth) }
{
    if depth == 0 {
        breach_if(true, LoopRule::L22, place)
    } else {
        breach_if(depth < takes(c), LoopRule::L7, place)
    }
}

/// The least breach of a directive over a part of this depth, or else of its items, from the last position to the
/// first (L7, L22); `None` exactly where there is none.
#[tactic(auto, using(crate::proofs::PlanSteps::plan_steps))]
#[cycle(plan_breach)]
pub fn plan_breach(alloc: Global, plan: &Plan, depth: u64) -> Result<Option<LoopBreach>, AllocError>
    ensures { IfOk result (λ b. b ≡ least (structure.plan_breaches (seen_plan plan.now) depth)) }
{
    if let Some(breach) = depth_breach(&plan.transformation, plan.place, depth) {
        return Ok(Some(breach));
    }
    let over = only(alloc, depth)?;
    let given = transformed_depths(alloc, &plan.transformation, over.as_slice())?;
    let below = items_breach(alloc, &plan.transformation, plan.items.as_slice(), given)?;
    Ok(below)
}

/// The least breach of the first item that breaks a rule, over parts of these depths.
#[tactic(auto, using(crate::proofs::PlanSteps::plan_steps))]
#[cycle(plan_breach)]
pub fn items_breach(
    alloc: Global,
    c: &Transformation,
    items: &[Applied],
    given: Vec<u64>,
) -> Result<Option<LoopBreach>, AllocError>
    ensures { IfOk result (λ b. b ≡ least (structure.items_breaches (seen_transformation c.now) (gather (map seen_item items.now)) given.items)) }
{
    let mut depths = given;
    'each: for item in items {
        let depth = depth_at(c, item.position, depths.as_slice());
        if let Some(breach) = plan_breach(alloc, &item.plan, depth)? {
            return Ok(Some(breach));
        }
        depths = after_item(alloc, c, item.position, &item.plan, depths.as_slice())?;
    }
    Ok(None)
}
