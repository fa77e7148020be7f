//! The rules of counts of a construct (OpenMP 6.0, 11): L8 of the loops that its directives take, and L16.

ghost use Rattle.std.specs.Prelude.{◌≡◌, ◌<◌, ◌-◌, IfOk, OnOk};
ghost use Rattle.c_tree.specs.BareOf.{bare_directive, bare_head, bare_stmt, bare_stmts};
ghost use Rattle.c_tree.specs.PlacedOf.{placed_directive, placed_stmt, placed_stmts};
ghost use Rattle.c_tree.specs.WellFormed.{WellFormedDirective, WellFormedStmt, WellFormedStmts};
ghost use Rattle.canonical_nests.specs.LoopRules.BreachSets.{least};
ghost use Rattle.canonical_nests.specs.LoopRules.Counts as rules;
ghost use Rattle.loop_counts.specs.Wanted.{in_head};
ghost use Rattle.loop_counts.specs.WantedBreaches.{construct_at, wanted_breaches};

use crate::planned::planned;
use crate::rules::plan_breach;
use crate::scope::Scope;
use crate::shapes::{body_kinds, enter};
use c_tree::tree::{Directive, ForHead, Stmt};
use canonical_nests::least::lesser;
use canonical_nests::need::loops_asked;
use canonical_nests::rules::LoopBreach;
use std::alloc::{AllocError, Global};

/// The least breach in a statement of which a directive round it wants so many loops. Afterwards the same is visible as
/// before.
#[tactic(auto, using(crate::proofs::ConstructBreaches::wanted))]
#[cycle(stmt_breach)]
fn stmt_breach(
    alloc: Global,
    stmt: &Stmt,
    wanted: u64,
    scope: &mut Scope,
) -> Result<Option<LoopBreach>, AllocError>
    requires { WellFormedStmt (bare_stmt stmt.now) }
    ensures breach { IfOk result (λ breach. breach ≡ least (rules.stmt_breaches scope.old.defines scope.old.state wanted (placed_stmt stmt.now))) }
    ensures scope { OnOk result (scope.new ≡ scope.old) }
{
    if wanted == 0 {
        return Ok(None);
    }
    some_breach(alloc, stmt, wanted, scope)
}

/// The same where at least one is wanted.
#[tactic(auto, using(crate::proofs::ConstructBreaches::heads))]
#[cycle(stmt_breach)]
fn some_breach(
    alloc: Global,
    stmt: &Stmt,
    wanted: u64,
    scope: &mut Scope,
) -> Result<Option<LoopBreach>, AllocError>
    requires well_formed { WellFormedStmt (bare_stmt stmt.now) }
    requires wanted { 0 < wanted }
    ensures breach { IfOk result (λ breach. breach ≡ least (wanted_breaches scope.old.defines scope.old.state wanted (placed_stmt stmt.now))) }
    ensures scope { OnOk result (scope.new ≡ scope.old) }
{
    match stmt {
        Stmt::For { head, body, .. } => body_breach(
            alloc,
            body.as_slice(),
            head,
            wanted - 1,
            scope,
        ),
        Stmt::Block { body, .. } => stmts_breach(alloc, body.as_slice(), wanted, scope),
        Stmt::Omp {
            directive,
            body,
            ..
        } => construct_breach(alloc, body.as_slice(), directive, wanted, scope),
        Stmt::Decl { .. }
        | Stmt::Set { .. }
        | Stmt::Step { .. }
        | Stmt::Print { .. }
        | Stmt::Input { .. }
        | Stmt::If { no: None, .. }
        | Stmt::If { no: Some(_), .. }
        | Stmt::While { .. }
        | Stmt::Do { .. }
        | Stmt::Break { .. }
        | Stmt::Continue { .. }
        | Stmt::Empty { .. }
        | Stmt::Call { .. } => Ok(None),
    }
}

/// The least breach in the body of a loop.
#[tactic(auto, using(crate::proofs::WantedKinds::left))]
#[cycle(stmt_breach)]
fn body_breach(
    alloc: Global,
    body: &[Stmt],
    head: &ForHead,
    wanted: u64,
    scope: &mut Scope,
) -> Result<Option<LoopBreach>, AllocError>
    requires { WellFormedStmts (bare_stmts body.now) }
    ensures breach { IfOk result (λ breach. breach ≡ least (rules.stmts_breaches scope.old.defines (in_head (bare_head head.now) scope.old.state) wanted (placed_stmts body.now))) }
    ensures scope { OnOk result (scope.new ≡ scope.old) }
{
    let len = scope.len();
    enter(scope, head)?;
    let breach = stmts_breach(alloc, body, wanted, scope)?;
    scope.keep(len);
    Ok(breach)
}

#[tactic(auto, using(crate::proofs::ConstructBreaches::stmts, canonical_nests::proofs::HeldTrees::held_trees))]
#[cycle(stmt_breach)]
fn stmts_breach(
    alloc: Global,
    stmts: &[Stmt],
    wanted: u64,
    scope: &mut Scope,
) -> Result<Option<LoopBreach>, AllocError>
    requires { WellFormedStmts (bare_stmts stmts.now) }
    ensures breach { IfOk result (λ breach. breach ≡ least (rules.stmts_breaches scope.old.defines scope.old.state wanted (placed_stmts stmts.now))) }
    ensures scope { OnOk result (scope.new ≡ scope.old) }
{
    let mut found = None;
    'each: for stmt in stmts {
        let here = stmt_breach(alloc, stmt, wanted, scope)?;
        found = lesser(found, here);
    }
    Ok(found)
}

/// The least breach of the rules of counts of a construct of which a directive round it wants so many loops, 0 where none
/// does: of L8 of the loops that its directives take, and L16. `None` exactly where there is none. Afterwards the same is
/// visible as before.
#[cycle(stmt_breach)]
pub fn construct_breach(
    alloc: Global,
    body: &[Stmt],
    directive: &Directive,
    wanted: u64,
    scope: &mut Scope,
) -> Result<Option<LoopBreach>, AllocError>
    requires body { WellFormedStmts (bare_stmts body.now) }
    requires directive { WellFormedDirective (bare_directive directive.now) }
    ensures breach { IfOk result (λ breach. breach ≡ least (construct_at scope.old.defines scope.old.state wanted (placed_directive directive.now) (placed_stmts body.now))) }
    ensures scope { OnOk result (scope.new ≡ scope.old) }
{
    let plan = planned(alloc, scope, directive)?;
    let asked = loops_asked(alloc, &plan, wanted)?;
    let found = body_kinds(alloc, body, directive.kind, asked, scope)?;
    let own = plan_breach(alloc, &plan, 0, found.as_slice())?;
    let inner = stmts_breach(alloc, body, asked, scope)?;
    Ok(lesser(own, inner))
}
