//! The loop rules of one construct: the first tier of rules that it breaks.

ghost use Rattle.std.specs.Prelude.{◌≡◌, IfOk, OnOk};
ghost use Rattle.c_tree.specs.BareOf.{bare_directive, bare_stmts};
ghost use Rattle.c_tree.specs.PlacedOf.{placed_directive, placed_stmts};
ghost use Rattle.c_tree.specs.WellFormed.{WellFormedDirective, WellFormedStmts};
ghost use Rattle.canonical_nests.specs.LoopRules.BreachSets.{least, or_else};
ghost use Rattle.canonical_nests.specs.LoopRules.Structure as structure;
ghost use Rattle.canonical_nests.specs.LoopRules.Heads as rules;
ghost use Rattle.canonical_nests.specs.LoopRules.Counts as counts;
ghost use Rattle.canonical_nests.specs.LoopRules.Programs as programs;

use c_tree::tree::{Directive, Stmt};
use canonical_nests::rules::LoopBreach;
use loop_counts::scope::Scope;
use loop_heads::functions::Functions;
use std::alloc::{AllocError, Global};

/// The least breach of the rules of heads, else of those of counts.
#[tactic(auto, using(crate::proofs::Tiers::tiers))]
fn late_breach(
    alloc: Global,
    functions: &Functions,
    body: &[Stmt],
    directive: &Directive,
    scope: &mut Scope,
) -> Result<Option<LoopBreach>, AllocError>
    requires body { WellFormedStmts (bare_stmts body.now) }
    requires directive { WellFormedDirective (bare_directive directive.now) }
    ensures breach { IfOk result (λ b. b ≡ least (or_else (rules.construct_breaches scope.old.defines functions.now scope.old.state (placed_directive directive.now) (placed_stmts body.now))
        (counts.construct_breaches scope.old.defines scope.old.state (placed_directive directive.now) (placed_stmts body.now)))) }
    ensures scope { OnOk result (scope.new ≡ scope.old) }
{
    match loop_heads::construct::construct_breach(alloc, functions, scope, directive, body)? {
        Some(breach) => Ok(Some(breach)),
        None => {
            let below = loop_counts::construct::construct_breach(alloc, body, directive, 0, scope)?;
            Ok(below)
        }
    }
}

/// The least breach of the rules of structure, else of those of heads and counts.
#[tactic(auto, using(crate::proofs::Tiers::tiers))]
fn structure_breach(
    alloc: Global,
    functions: &Functions,
    body: &[Stmt],
    directive: &Directive,
    scope: &mut Scope,
) -> Result<Option<LoopBreach>, AllocError>
    requires body { WellFormedStmts (bare_stmts body.now) }
    requires directive { WellFormedDirective (bare_directive directive.now) }
    ensures breach { IfOk result (λ b. b ≡ least (or_else (structure.construct_breaches scope.old.defines (placed_directive directive.now) (placed_stmts body.now))
        (or_else (rules.construct_breaches scope.old.defines functions.now scope.old.state (placed_directive directive.now) (placed_stmts body.now))
        (counts.construct_breaches scope.old.defines scope.old.state (placed_directive directive.now) (placed_stmts body.now))))) }
    ensures scope { OnOk result (scope.new ≡ scope.old) }
{
    match loop_structure::construct::construct_breach(alloc, &*scope, directive, body)? {
        Some(breach) => Ok(Some(breach)),
        None => {
            let below = late_breach(alloc, functions, body, directive, scope)?;
            Ok(below)
        }
    }
}

/// The least breach of the first tier of rules that a construct breaks: of clauses, of structure, of heads, of counts.
/// `None` exactly where it breaks none. Other constructs in its body are not looked at, and afterwards the same is
/// visible as before.
#[tactic(auto, using(crate::proofs::Tiers::tiers))]
pub fn construct_breach(
    alloc: Global,
    functions: &Functions,
    body: &[Stmt],
    directive: &Directive,
    scope: &mut Scope,
) -> Result<Option<LoopBreach>, AllocError>
    requires body { WellFormedStmts (bare_stmts body.now) }
    requires directive { WellFormedDirective (bare_directive directive.now) }
    ensures breach { IfOk result (λ b. b ≡ least (programs.construct_breaches scope.old.defines functions.now scope.old.state (placed_directive directive.now) (placed_stmts body.now))) }
    ensures scope { OnOk result (scope.new ≡ scope.old) }
{
    match loop_clauses::construct::construct_breach(alloc, &*scope, directive, body)? {
        Some(breach) => Ok(Some(breach)),
        None => {
            let below = structure_breach(alloc, functions, body, directive, scope)?;
            Ok(below)
        }
    }
}
