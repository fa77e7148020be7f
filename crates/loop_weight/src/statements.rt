//! The weights of statements: 1 and the weights of the expressions and statements in them, where a directive multiplies
//! what it copies, and adds for the loops that it generates.

ghost use Rattle.std.specs.Prelude.{◌≡◌, ◌-◌, ◌+◌, IfOk, OnOk};
ghost use Rattle.std.specs.Option.{option_map};
ghost use Rattle.c_tree.specs.BareOf.{bare_directive, bare_expr, bare_head, bare_stmt, bare_stmts, maybe_stmt};
ghost use Rattle.c_tree.specs.WellFormed.{WellFormedDirective, WellFormedHead, WellFormedPart, WellFormedStmt, WellFormedStmts};
ghost use Rattle.canonical_nests.specs.Weight as weight;
ghost use Rattle.canonical_nests.specs.Weight.{capped_weight};
ghost use Rattle.loop_counts.specs.Wanted.{in_head};
ghost use Rattle.loop_weight.specs.Constructs.{construct_weight, head_weight, plain_weight};

use crate::capped::{plus, times};
use crate::copying::copies;
use crate::directives::added_weight;
use crate::expressions::{expr_weight, exprs_weight, option_weight, target_weight};
use c_tree::boxed::Boxed;
use c_tree::tree::{Directive, Expr, ForHead, Stmt};
use canonical_nests::need::loops_asked;
use loop_counts::planned::planned;
use loop_counts::scope::Scope;
use loop_counts::shapes::{body_kinds, declare, enter};
use std::alloc::{AllocError, Global};

/// The weight of a statement in which no other stands.
#[tactic(auto, using(crate::proofs::Caps::sums))]
fn plain_weight(stmt: &Stmt) -> u64
    ensures { result ≡ capped_weight (plain_weight (bare_stmt stmt.now)) }
{
    match stmt {
        Stmt::Decl { init, .. } => plus(1, option_weight(init)),
        Stmt::Set { target, value, .. } => {
            plus(plus(1, target_weight(target)), expr_weight(value))
        }
        Stmt::Step { target, .. } | Stmt::Input { target, .. } => plus(1, target_weight(target)),
        Stmt::Print { value, .. } => plus(1, expr_weight(value)),
        Stmt::Call { args, .. } => plus(1, exprs_weight(args.as_slice())),
        Stmt::If { no: None, .. }
        | Stmt::If { no: Some(_), .. }
        | Stmt::While { .. }
        | Stmt::Do { .. }
        | Stmt::For { .. }
        | Stmt::Block { .. }
        | Stmt::Omp { .. }
        | Stmt::Break { .. }
        | Stmt::Continue { .. }
        | Stmt::Empty { .. } => 1,
    }
}

/// The weight of a statement of which a directive round it wants so many loops, up to the cap. Afterwards the same is
/// visible as before.
#[tactic(auto, using(crate::proofs::Caps::sums, crate::proofs::Scopes::loops))]
#[cycle(stmt_weight)]
pub fn stmt_weight(
    alloc: Global,
    stmt: &Stmt,
    wanted: u64,
    scope: &mut Scope,
) -> Result<u64, AllocError>
    requires { WellFormedStmt (bare_stmt stmt.now) }
    ensures weight { IfOk result (λ n. n ≡ capped_weight (weight.stmt_weight scope.old.defines scope.old.state wanted (bare_stmt stmt.now))) }
    ensures scope { OnOk result (scope.new ≡ scope.old) }
{
    match stmt {
        Stmt::If { test, yes, no, .. } => {
            let both = tested_weight(alloc, yes.as_slice(), test, scope)?;
            match no {
                None => Ok(both),
                Some(no) => Ok(plus(both, stmts_weight(alloc, no.as_slice(), 0, scope)?)),
            }
        }
        Stmt::While { test, body, .. } | Stmt::Do { body, test, .. } => {
            tested_weight(alloc, body.as_slice(), test, scope)
        }
        Stmt::For { head, body, .. } => {
            let head_weight = head_weight(alloc, head, scope)?;
            let body = body_weight(alloc, body.as_slice(), head, wanted, scope)?;
            Ok(plus(head_weight, body))
        }
        Stmt::Block { body, .. } => Ok(plus(
            1,
            stmts_weight(alloc, body.as_slice(), wanted, scope)?,
        )),
        Stmt::Omp {
            directive,
            body,
            ..
        } => omp_weight(alloc, body.as_slice(), directive, wanted, scope),
        Stmt::Decl { .. }
        | Stmt::Set { .. }
        | Stmt::Step { .. }
        | Stmt::Print { .. }
        | Stmt::Input { .. }
        | Stmt::Call { .. }
        | Stmt::Break { .. }
        | Stmt::Continue { .. }
        | Stmt::Empty { .. } => Ok(plain_weight(stmt)),
    }
}

/// The weight of a test, and of the statements that it lets run.
#[tactic(auto, using(crate::proofs::Caps::sums))]
#[cycle(stmt_weight)]
fn tested_weight(
    alloc: Global,
    body: &[Stmt],
    test: &Expr,
    scope: &mut Scope,
) -> Result<u64, AllocError>
    requires { WellFormedStmts (bare_stmts body.now) }
    ensures weight { IfOk result (λ n. n ≡ capped_weight (1 + weight.expr_weight (bare_expr test.now) + weight.stmts_weight scope.old.defines scope.old.state 0 (bare_stmts body.now))) }
    ensures scope { OnOk result (scope.new ≡ scope.old) }
{
    let body = stmts_weight(alloc, body, 0, scope)?;
    Ok(plus(plus(1, expr_weight(test)), body))
}

/// The weight of a `for` without its body.
#[tactic(auto, using(loop_counts::proofs::HeadParts::heads, crate::proofs::Caps::sums))]
#[cycle(stmt_weight)]
fn head_weight(alloc: Global, head: &ForHead, scope: &mut Scope) -> Result<u64, AllocError>
    requires { WellFormedHead (bare_head head.now) }
    ensures weight { IfOk result (λ n. n ≡ capped_weight (head_weight scope.old.defines scope.old.state (bare_head head.now))) }
    ensures scope { OnOk result (scope.new ≡ scope.old) }
{
    let init = part_weight(alloc, &head.init, scope)?;
    let next = part_weight(alloc, &head.step, scope)?;
    Ok(plus(plus(plus(1, init), option_weight(&head.test)), next))
}

#[cycle(stmt_weight)]
fn part_weight(
    alloc: Global,
    part: &Option<Boxed<Stmt>>,
    scope: &mut Scope,
) -> Result<u64, AllocError>
    requires { WellFormedPart (maybe_stmt (option_map bare_stmt part.now)) }
    ensures weight { IfOk result (λ n. n ≡ capped_weight (weight.part_weight scope.old.defines scope.old.state (maybe_stmt (option_map bare_stmt part.now)))) }
    ensures scope { OnOk result (scope.new ≡ scope.old) }
{
    match part {
        None => Ok(0),
        Some(stmt) => stmt_weight(alloc, stmt.get(), 0, scope),
    }
}

/// The weight of a loop's body.
#[tactic(auto, using(loop_counts::proofs::WantedKinds::left, crate::proofs::Scopes::asked))]
#[cycle(stmt_weight)]
fn body_weight(
    alloc: Global,
    body: &[Stmt],
    head: &ForHead,
    wanted: u64,
    scope: &mut Scope,
) -> Result<u64, AllocError>
    requires { WellFormedStmts (bare_stmts body.now) }
    ensures weight { IfOk result (λ n. n ≡ capped_weight (weight.stmts_weight scope.old.defines (in_head (bare_head head.now) scope.old.state) (weight.asked_below wanted) (bare_stmts body.now))) }
    ensures scope { OnOk result (scope.new ≡ scope.old) }
{
    let len = scope.len();
    enter(scope, head)?;
    let weight = stmts_weight(alloc, body, wanted.saturating_sub(1), scope)?;
    scope.keep(len);
    Ok(weight)
}

/// The weight of a construct.
#[tactic(auto, using(crate::proofs::Caps::products))]
#[cycle(stmt_weight)]
fn omp_weight(
    alloc: Global,
    body: &[Stmt],
    directive: &Directive,
    wanted: u64,
    scope: &mut Scope,
) -> Result<u64, AllocError>
    requires body { WellFormedStmts (bare_stmts body.now) }
    requires directive { WellFormedDirective (bare_directive directive.now) }
    ensures weight { IfOk result (λ n. n ≡ capped_weight (construct_weight scope.old.defines scope.old.state wanted (bare_directive directive.now) (bare_stmts body.now))) }
    ensures scope { OnOk result (scope.new ≡ scope.old) }
{
    let plan = planned(alloc, scope, directive)?;
    let asked = loops_asked(alloc, &plan, wanted)?;
    let found = body_kinds(alloc, body, directive.kind, asked, scope)?;
    let times_copied = copies(alloc, &plan, 0, found.as_slice())?;
    let inner = stmts_weight(alloc, body, asked, scope)?;
    Ok(times(times_copied, plus(inner, added_weight(directive))))
}

/// The weight of a list of statements, up to the cap.
#[tactic(auto, using(crate::proofs::Scopes::stmts, crate::proofs::Caps::sums, canonical_nests::proofs::HeldTrees::held_trees))]
#[cycle(stmt_weight)]
pub fn stmts_weight(
    alloc: Global,
    stmts: &[Stmt],
    wanted: u64,
    scope: &mut Scope,
) -> Result<u64, AllocError>
    requires { WellFormedStmts (bare_stmts stmts.now) }
    ensures weight { IfOk result (λ n. n ≡ capped_weight (weight.stmts_weight scope.old.defines scope.old.state wanted (bare_stmts stmts.now))) }
    ensures scope { OnOk result (scope.new ≡ scope.old) }
{
    let len = scope.len();
    let mut all = 0;
    'each: for stmt in stmts {
        all = plus(all, stmt_weight(alloc, stmt, wanted, scope)?);
        declare(scope, stmt)?;
    }
    scope.keep(len);
    Ok(all)
}
