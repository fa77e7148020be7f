//! The loop rules of the constructs in statements.

ghost use Rattle.std.specs.Prelude.{◌≡◌, ◌-◌, IfOk, OnOk};
ghost use Rattle.c_tree.specs.BareOf.{bare_directive, bare_head, bare_stmt, bare_stmts};
ghost use Rattle.c_tree.specs.PlacedOf.{placed_directive, placed_head, placed_stmt, placed_stmts};
ghost use Rattle.c_tree.specs.Forget.{forget_directive};
ghost use Rattle.c_tree.specs.WellFormed.{WellFormedDirective, WellFormedHead, WellFormedStmt, WellFormedStmts};
ghost use Rattle.c_semantics.specs.Loops.Directives as directives;
ghost use Rattle.c_semantics.specs.Loops.Need as need;
ghost use Rattle.canonical_nests.specs.LoopRules.BreachSets as sets;
ghost use Rattle.canonical_nests.specs.LoopRules.BreachSets.{least};
ghost use Rattle.canonical_nests.specs.LoopRules.Programs as programs;
ghost use Rattle.restrictions.specs.Walks.{for_state, own_breaches};

use crate::constructs::construct_breach;
use crate::scopes::enter_loop;
use c_tree::tree::{Directive, ForHead, Stmt};
use canonical_nests::directive_plan::loops_asked_by;
use canonical_nests::least::lesser;
use canonical_nests::rules::LoopBreach;
use loop_counts::scope::Scope;
use loop_counts::shapes::declare;
use loop_heads::functions::Functions;
use std::alloc::{AllocError, Global};

/// The least breach of a construct, unless a directive round it takes it.
#[tactic(auto, using(crate::proofs::Walks::own))]
fn own_breach(
    alloc: Global,
    functions: &Functions,
    body: &[Stmt],
    directive: &Directive,
    wanted: u64,
    scope: &mut Scope,
) -> Result<Option<LoopBreach>, AllocError>
    requires body { WellFormedStmts (bare_stmts body.now) }
    requires directive { WellFormedDirective (bare_directive directive.now) }
    ensures breach { IfOk result (λ b. b ≡ least (own_breaches scope.old.defines functions.now scope.old.state wanted (placed_directive directive.now) (placed_stmts body.now))) }
    ensures scope { OnOk result (scope.new ≡ scope.old) }
{
    if wanted != 0 {
        return Ok(None);
    }
    let own = construct_breach(alloc, functions, body, directive, scope)?;
    Ok(own)
}

/// The least breach of the constructs in a statement of which a directive round it wants so many loops, 0 where none
/// does. Afterwards the same is visible as before.
#[tactic(auto, using(crate::proofs::Walks::kinds))]
#[cycle(stmt_breach)]
fn stmt_breach(
    alloc: Global,
    stmt: &Stmt,
    functions: &Functions,
    wanted: u64,
    scope: &mut Scope,
) -> Result<Option<LoopBreach>, AllocError>
    requires { WellFormedStmt (bare_stmt stmt.now) }
    ensures breach { IfOk result (λ b. b ≡ least (programs.stmt_breaches scope.old.defines functions.now scope.old.state wanted (placed_stmt stmt.now))) }
    ensures scope { OnOk result (scope.new ≡ scope.old) }
{
    match stmt {
        Stmt::If { yes, no, .. } => {
            let first = stmts_breach(alloc, yes.as_slice(), functions, 0, scope)?;
            match no {
                None => Ok(first),
                Some(no) => {
                    let second = stmts_breach(alloc, no.as_slice(), functions, 0, scope)?;
                    Ok(lesser(first, second))
                }
            }
        }
        Stmt::While { body, .. } => {
            let below = stmts_breach(alloc, body.as_slice(), functions, 0, scope)?;
            Ok(below)
        }
        Stmt::Do { body, .. } => {
            let below = stmts_breach(alloc, body.as_slice(), functions, 0, scope)?;
            Ok(below)
        }
        Stmt::For { head, body, .. } => {
            let below = loop_breach(alloc, body.as_slice(), functions, head, wanted, scope)?;
            Ok(below)
        }
        Stmt::Block { body, .. } => {
            let below = stmts_breach(alloc, body.as_slice(), functions, wanted, scope)?;
            Ok(below)
        }
        Stmt::Omp {
            directive,
            body,
            ..
        } => {
            let found = omp_breach(alloc, body.as_slice(), functions, directive, wanted, scope)?;
            Ok(found)
        }
        Stmt::Decl { .. }
        | Stmt::Set { .. }
        | Stmt::Step { .. }
        | Stmt::Print { .. }
        | Stmt::Input { .. }
        | Stmt::Break { .. }
        | Stmt::Continue { .. }
        | Stmt::Empty { .. }
        | Stmt::Call { .. } => Ok(None),
    }
}

/// The least breach in the body of a loop.
#[tactic(auto, using(crate::proofs::Visibility::left))]
#[cycle(stmt_breach)]
fn loop_breach(
    alloc: Global,
    body: &[Stmt],
    functions: &Functions,
    head: &ForHead,
    wanted: u64,
    scope: &mut Scope,
) -> Result<Option<LoopBreach>, AllocError>
    requires body { WellFormedStmts (bare_stmts body.now) }
    requires head { WellFormedHead (bare_head head.now) }
    ensures breach { IfOk result (λ b. b ≡ least (programs.stmts_breaches scope.old.defines functions.now (for_state scope.old.defines scope.old.state wanted (placed_head head.now)) (wanted - 1) (placed_stmts body.now))) }
    ensures scope { OnOk result (scope.new ≡ scope.old) }
{
    let round = scope.len();
    enter_loop(scope, head, wanted)?;
    let below = stmts_breach(alloc, body, functions, wanted.saturating_sub(1), scope)?;
    scope.keep(round);
    Ok(below)
}

/// The least breach of a construct, where no directive round it takes it, and of those in its body.
#[cycle(stmt_breach)]
fn omp_breach(
    alloc: Global,
    body: &[Stmt],
    functions: &Functions,
    directive: &Directive,
    wanted: u64,
    scope: &mut Scope,
) -> Result<Option<LoopBreach>, AllocError>
    requires body { WellFormedStmts (bare_stmts body.now) }
    requires directive { WellFormedDirective (bare_directive directive.now) }
    ensures breach { IfOk result (λ b. b ≡ sets.lesser (least (own_breaches scope.old.defines functions.now scope.old.state wanted (placed_directive directive.now) (placed_stmts body.now)))
        (least (programs.stmts_breaches scope.old.defines functions.now scope.old.state (need.loops_asked (directives.plan_of scope.old.defines (forget_directive (placed_directive directive.now))) wanted) (placed_stmts body.now)))) }
    ensures scope { OnOk result (scope.new ≡ scope.old) }
{
    let own = own_breach(alloc, functions, body, directive, wanted, scope)?;
    let asked = loops_asked_by(alloc, &*scope, directive, wanted)?;
    let below = stmts_breach(alloc, body, functions, asked, scope)?;
    Ok(lesser(own, below))
}

/// The least breach of the constructs in statements one after another, of each of which a directive round them wants so
/// many loops. Afterwards the same is visible as before.
#[tactic(auto, using(crate::proofs::Walks::lists))]
#[cycle(stmt_breach)]
pub fn stmts_breach(
    alloc: Global,
    stmts: &[Stmt],
    functions: &Functions,
    wanted: u64,
    scope: &mut Scope,
) -> Result<Option<LoopBreach>, AllocError>
    requires { WellFormedStmts (bare_stmts stmts.now) }
    ensures breach { IfOk result (λ b. b ≡ least (programs.stmts_breaches scope.old.defines functions.now scope.old.state wanted (placed_stmts stmts.now))) }
    ensures scope { OnOk result (scope.new ≡ scope.old) }
{
    let round = scope.len();
    let mut found = None;
    'each: for stmt in stmts {
        let here = stmt_breach(alloc, stmt, functions, wanted, scope)?;
        declare(scope, stmt)?;
        found = lesser(found, here);
    }
    scope.keep(round);
    Ok(found)
}
