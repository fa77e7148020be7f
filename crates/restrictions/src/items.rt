//! The loop rules of the constructs in an item of a program.

ghost use Rattle.std.specs.Prelude.{◌≡◌, [], map, IfOk, OnOk};
ghost use Rattle.c_tree.specs.BareOf.{bare_param, bare_stmts, bare_top};
ghost use Rattle.c_tree.specs.PlacedOf.{placed_stmts, placed_top};
ghost use Rattle.c_tree.specs.WellFormed.{WellFormedStmts, WellFormedTop};
ghost use Rattle.c_semantics.specs.Meaning.State.{with_frame};
ghost use Rattle.c_semantics.specs.Structure.Skeleton.{params_frame};
ghost use Rattle.canonical_nests.specs.LoopRules.BreachSets.{least};
ghost use Rattle.canonical_nests.specs.LoopRules.Programs as programs;

use crate::statements::stmts_breach;
use c_tree::tree::{Item, Param, Stmt};
use canonical_nests::rules::LoopBreach;
use loop_counts::scope::Scope;
use loop_heads::functions::Functions;
use std::alloc::{AllocError, Global};

/// The least breach in a function's body, where no variable but those of the file is visible round it.
#[tactic(auto, using(loop_counts::proofs::Parameters::functions))]
fn function_breach(
    alloc: Global,
    params: &[Param],
    body: &[Stmt],
    functions: &Functions,
    scope: &mut Scope,
) -> Result<Option<LoopBreach>, AllocError>
    requires body { WellFormedStmts (bare_stmts body.now) }
    requires outside { scope.old.state.frame ≡ [] }
    ensures breach { IfOk result (λ b. b ≡ least (programs.stmts_breaches scope.old.defines functions.now (with_frame (params_frame (map bare_param params.now)) scope.old.state) 0 (placed_stmts body.now))) }
    ensures scope { OnOk result (scope.new ≡ scope.old) }
{
    scope.declare_params(params)?;
    let found = stmts_breach(alloc, body, functions, 0, scope)?;
    scope.keep(0);
    Ok(found)
}

/// The least breach of the constructs in an item, each by the first tier of rules that it breaks. `None` exactly where
/// there is none. No variable but those of the file is visible round it, and afterwards the same is visible as before.
#[tactic(auto, using(crate::proofs::Parameters::items))]
pub fn item_breach(
    alloc: Global,
    item: &Item,
    functions: &Functions,
    scope: &mut Scope,
) -> Result<Option<LoopBreach>, AllocError>
    requires well_formed { WellFormedTop (bare_top item.now) }
    requires outside { scope.old.state.frame ≡ [] }
    ensures breach { IfOk result (λ b. b ≡ least (programs.top_breaches scope.old.defines functions.now scope.old.state (placed_top item.now))) }
    ensures scope { OnOk result (scope.new ≡ scope.old) }
{
    match item {
        Item::Function { params, body, .. } => {
            let found = function_breach(
                alloc,
                params.as_slice(),
                body.as_slice(),
                functions,
                scope,
            )?;
            Ok(found)
        }
        Item::Main { body, .. } => {
            let found = stmts_breach(alloc, body.as_slice(), functions, 0, scope)?;
            Ok(found)
        }
        Item::Define { .. } | Item::Extern { .. } | Item::Global { .. } => Ok(None),
    }
}
