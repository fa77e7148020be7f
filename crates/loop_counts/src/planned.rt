//! The plan of a directive at a place.

ghost use Rattle.std.specs.Prelude.{◌≡◌, IfOk};
ghost use Rattle.c_tree.specs.BareOf.{bare_directive};
ghost use Rattle.c_tree.specs.PlacedOf.{placed_directive};
ghost use Rattle.c_tree.specs.WellFormed.{WellFormedDirective};
ghost use Rattle.c_semantics.specs.Loops.Directives.{plan_of};
ghost use Rattle.canonical_nests.specs.LoopRules.PlacedPlans.{placed_plan, forget_plan};
ghost use Rattle.canonical_nests.specs.Plans.{seen_plan};

use crate::scope::Scope;
use c_tree::tree::Directive;
use canonical_nests::directive_plan::plan_of;
use canonical_nests::plan::Plan;
use std::alloc::{AllocError, Global};

/// The plan of a directive, by the defines that are visible.
#[tactic(auto, using(crate::proofs::PlannedDirectives::planned_directives))]
pub fn planned(alloc: Global, scope: &Scope, directive: &Directive) -> Result<Plan, AllocError>
    requires { WellFormedDirective (bare_directive directive.now) }
    ensures placed { IfOk result (λ plan. seen_plan plan ≡ placed_plan scope.now.defines (placed_directive directive.now)) }
    ensures bare { IfOk result (λ plan. forget_plan (seen_plan plan) ≡ plan_of scope.now.defines (bare_directive directive.now)) }
{
    let plan = plan_of(alloc, scope, directive)?;
    Ok(plan)
}
