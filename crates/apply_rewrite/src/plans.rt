//! What directives make of the code of a loop, by their plans.

ghost use Rattle.std.specs.Prelude.{◌≡◌, IfOk, OnOk, map};
ghost use Rattle.canonical_nests.specs.LoopRules.PlacedPlans.{forget_items, forget_plan};
ghost use Rattle.canonical_nests.specs.Plans.{gather, seen_item, seen_plan, seen_transformation};
ghost use Rattle.loop_normal.specs.GenOf.{bare_gen};
ghost use Rattle.carried_out.specs.CarriedOut as c;

use canonical_nests::plan::{Applied, Plan, Transformation};
use loop_normal::fresh::Fresh;
use loop_normal::generated::Gen;
use permute_reverse::reversal::reverse;
use std::alloc::{AllocError, Global};

fn transformed(
    alloc: Global,
    transformation: &Transformation,
    code: Gen,
    fresh: &mut Fresh,
) -> Result<Gen, AllocError>
    ensures tree { IfOk result (λ made. bare_gen made ≡ (c.transformed (seen_transformation transformation.now) (record { tree = bare_gen code; left = fresh.old })).tree) }
    ensures left { OnOk result (fresh.new ≡ (c.transformed (seen_transformation transformation.now) (record { tree = bare_gen code; left = fresh.old })).left) }
{
    match transformation {
        Transformation::Reverse => reverse(alloc, code, fresh),
        Transformation::Tile(_)
        | Transformation::Interchange(_)
        | Transformation::Split(_)
        | Transformation::Fuse(_)
        | Transformation::UnrollFull
        | Transformation::UnrollPartial(_) => Ok(code),
    }
}

/// The code of a loop under a plan: its transformation acts first, then its items.
#[tactic(auto, using(crate::proofs::PlanWalks::made))]
#[cycle(planned)]
pub(crate) fn planned(
    alloc: Global,
    plan: &Plan,
    code: Gen,
    fresh: &mut Fresh,
) -> Result<Gen, AllocError>
    ensures tree { IfOk result (λ made. bare_gen made ≡ (c.planned (forget_plan (seen_plan plan.now)) (record { tree = bare_gen code; left = fresh.old })).tree) }
    ensures left { OnOk result (fresh.new ≡ (c.planned (forget_plan (seen_plan plan.now)) (record { tree = bare_gen code; left = fresh.old })).left) }
{
    let code = transformed(alloc, &plan.transformation, code, fresh)?;
    items_applied(alloc, plan.items.as_slice(), code, fresh)
}

#[tactic(auto, using(crate::proofs::PlanWalks::applied))]
#[cycle(planned)]
fn items_applied(
    alloc: Global,
    items: &[Applied],
    code: Gen,
    fresh: &mut Fresh,
) -> Result<Gen, AllocError>
    ensures tree { IfOk result (λ made. bare_gen made ≡ (c.items_applied (forget_items (gather (map seen_item items.now))) (record { tree = bare_gen code; left = fresh.old })).tree) }
    ensures left { OnOk result (fresh.new ≡ (c.items_applied (forget_items (gather (map seen_item items.now))) (record { tree = bare_gen code; left = fresh.old })).left) }
{
    let mut code = code;
    'each: for item in items {
        code = planned(alloc, &item.plan, code, fresh)?;
    }
    Ok(code)
}
