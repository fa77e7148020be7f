//! The weight of a program, and the rule that bounds it.

ghost use Rattle.std.specs.Prelude.{◌≡◌, [], map, IfOk, OnOk};
ghost use Rattle.c_tree.specs.BareOf.{bare_param, bare_stmts, bare_top, bare_program};
ghost use Rattle.c_tree.specs.PlacedOf.{placed_program};
ghost use Rattle.c_tree.specs.WellFormed.{WellFormedStmts, WellFormedTop, WellFormedTops};
ghost use Rattle.c_semantics.specs.Meaning.State.{with_frame};
ghost use Rattle.c_semantics.specs.Structure.Skeleton.{params_frame};
ghost use Rattle.canonical_nests.specs.Weight as weight;
ghost use Rattle.canonical_nests.specs.Weight.{capped_weight};
ghost use Rattle.canonical_nests.specs.LoopRules.BreachSets.{least};
ghost use Rattle.canonical_nests.specs.LoopRules.Programs as programs;

use crate::capped::{CAP, plus};
use crate::expressions::{exprs_weight, option_weight};
use crate::statements::stmts_weight;
use c_tree::tree::{Item, Param, Program, Stmt};
use canonical_nests::first_directive::first_directive;
use canonical_nests::rules::{LoopBreach, LoopRule};
use loop_counts::scope::Scope;
use std::alloc::{AllocError, Global};

/// The weight of a function's body, where no variable but those of the file is visible round it.
#[tactic(auto, using(loop_counts::proofs::Parameters::functions))]
fn function_weight(
    alloc: Global,
    params: &[Param],
    body: &[Stmt],
    scope: &mut Scope,
) -> Result<u64, AllocError>
    requires body { WellFormedStmts (bare_stmts body.now) }
    requires outside { scope.old.state.frame ≡ [] }
    ensures weight { IfOk result (λ n. n ≡ capped_weight (weight.stmts_weight scope.old.defines (with_frame (params_frame (map bare_param params.now)) scope.old.state) 0 (bare_stmts body.now))) }
    ensures scope { OnOk result (scope.new ≡ scope.old) }
{
    scope.declare_params(params)?;
    let weight = stmts_weight(alloc, body, 0, scope)?;
    scope.keep(0);
    Ok(weight)
}

/// The weight of an item, up to the cap.
#[tactic(auto, using(crate::proofs::Caps::sums))]
fn item_weight(alloc: Global, item: &Item, scope: &mut Scope) -> Result<u64, AllocError>
    requires well_formed { WellFormedTop (bare_top item.now) }
    requires outside { scope.old.state.frame ≡ [] }
    ensures weight { IfOk result (λ n. n ≡ capped_weight (weight.top_weight scope.old.defines scope.old.state (bare_top item.now))) }
    ensures scope { OnOk result (scope.new ≡ scope.old) }
{
    match item {
        Item::Global { dims, init, .. } => {
            Ok(plus(plus(1, exprs_weight(dims.as_slice())), option_weight(init)))
        }
        Item::Function { params, body, .. } => Ok(plus(
            1,
            function_weight(alloc, params.as_slice(), body.as_slice(), scope)?,
        )),
        Item::Main { body, .. } => Ok(plus(1, stmts_weight(alloc, body.as_slice(), 0, scope)?)),
        Item::Define { .. } | Item::Extern { .. } => Ok(1),
    }
}

/// The weight of items, up to the cap, where no variable but those of the file is visible round them.
#[tactic(auto, using(crate::proofs::Items::items, crate::proofs::Caps::sums))]
fn items_weight(alloc: Global, items: &[Item], scope: &mut Scope) -> Result<u64, AllocError>
    requires well_formed { WellFormedTops (map bare_top items.now) }
    requires outside { scope.old.state.frame ≡ [] }
    ensures { IfOk result (λ n. n ≡ capped_weight (weight.weight_from scope.old.defines scope.old.state (map bare_top items.now))) }
{
    let mut all = 0;
    'each: for item in items {
        all = plus(all, item_weight(alloc, item, scope)?);
        scope.add_item(item)?;
    }
    Ok(all)
}

/// The weight of a program, and 2^20 + 1 for any greater one: the expressions and statements in it, where each directive
/// multiplies what it copies, and adds for the loops that it and its items generate. A well-formed program.
pub fn weight(alloc: Global, program: &Program) -> Result<u64, AllocError>
    requires { WellFormedTops (bare_program program.now) }
    ensures { IfOk result (λ n. n ≡ capped_weight (weight.weight (bare_program program.now))) }
{
    let mut scope = Scope::new(alloc);
    items_weight(alloc, program.items.as_slice(), &mut scope)
}

/// The breach of L27, at the first directive's name: the weight is above 2^20. `None` exactly where there is no
/// directive or the weight is within the bound.
#[tactic(auto, using(crate::proofs::Breaches::breaches))]
pub fn weight_breach(alloc: Global, program: &Program) -> Result<Option<LoopBreach>, AllocError>
    requires { WellFormedTops (bare_program program.now) }
    ensures { IfOk result (λ breach. breach ≡ least (programs.weight_breaches (programs.first_directive (placed_program program.now)) (placed_program program.now))) }
{
    match first_directive(program) {
        None => Ok(None),
        Some(place) => {
            if weight(alloc, program)? == CAP {
                Ok(Some(LoopBreach {
                    place,
                    rule: LoopRule::L27,
                }))
            } else {
                Ok(None)
            }
        }
    }
}
