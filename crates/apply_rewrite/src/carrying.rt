//! Reverse constructs carried out, inner ones first: each becomes a block. Bodies are moved. Afterwards the same is visible
//! as before.

ghost use Rattle.std.specs.Prelude.{◌≡◌, ◌≢◌, ◌∷◌, [], IfOk, MatchOption, OnOk, length};
ghost use Rattle.std.specs.Option.{option_map};
ghost use Rattle.c_tree.specs.Bare as b;
ghost use Rattle.c_tree.specs.BareOf.{bare_directive, bare_head, bare_stmt, bare_stmts};
ghost use Rattle.c_tree.specs.WellFormed.{WellFormedStmt, WellFormedStmts};
ghost use Rattle.loop_normal.specs.Gens as g;
ghost use Rattle.loop_normal.specs.GenOf.{bare_gen};
ghost use Rattle.loop_normal.specs.SourceOf.{source_of};
ghost use Rattle.carried_out.specs.CarriedOut as c;

use crate::entering::enter_loop;
use crate::heads::typed_head;
use crate::plans::planned;
use c_tree::tree::{Directive, ForHead, Stmt, StmtList};
use loop_counts::scope::Scope;
use loop_counts::shapes::{declare, enter};
use loop_normal::fresh::Fresh;
use loop_normal::generated::Gen;
use loop_normal::normal::{OwnedLoop, normal_leaf};
use loop_normal::pieces::{block, no_parts, no_stmts};
use loop_normal::statements::statements;
use std::alloc::{AllocError, Global};

/// Code without a loop.
fn no_code(alloc: Global) -> Gen
    ensures { bare_gen result ≡ record { front = b.no_stmts; parts = g.no_parts } }
{
    Gen {
        front: no_stmts(alloc),
        parts: no_parts(alloc),
    }
}

/// The normal form of a loop, where there is one.
fn leaf(
    alloc: Global,
    head: Option<OwnedLoop>,
    body: StmtList,
    fresh: &mut Fresh,
) -> Result<Gen, AllocError>
    ensures tree { IfOk result (λ code. bare_gen code ≡ (c.made_leaf (option_map source_of head) (record { tree = bare_stmts body; left = fresh.old })).tree) }
    ensures left { OnOk result (fresh.new ≡ (c.made_leaf (option_map source_of head) (record { tree = bare_stmts body; left = fresh.old })).left) }
{
    match head {
        None => Ok(no_code(alloc)),
        Some(head) => normal_leaf(alloc, head, body, fresh),
    }
}

/// The statement of a list of one, and `None` for any other list.
#[tactic(auto, using(crate::proofs::StatementMore::lone))]
fn alone(stmts: StmtList) -> Option<Stmt>
    ensures { MatchOption result (length stmts ≢ 1) (λ stmt. stmts ≡ stmt ∷ []) }
{
    let mut items = stmts.into_items();
    if items.len() == 1 {
        Some(items.remove(0))
    } else {
        None
    }
}

/// A statement with its constructs carried out.
#[cycle(carrying)]
fn carried(
    alloc: Global,
    scope: &mut Scope,
    stmt: Stmt,
    fresh: &mut Fresh,
) -> Result<Stmt, AllocError>
    requires { WellFormedStmt (bare_stmt stmt) }
    ensures tree { IfOk result (λ answer. bare_stmt answer ≡ (c.carried scope.old.defines scope.old.state (bare_stmt stmt) fresh.old).tree) }
    ensures left { OnOk result (fresh.new ≡ (c.carried scope.old.defines scope.old.state (bare_stmt stmt) fresh.old).left) }
    ensures scope { OnOk result (scope.new ≡ scope.old) }
{
    match stmt {
        Stmt::If {
            test,
            yes,
            no,
            span,
        } => {
            let yes = carried_all(alloc, scope, yes, fresh)?;
            let no = match no {
                None => None,
                Some(no) => Some(carried_all(alloc, scope, no, fresh)?),
            };
            Ok(Stmt::If {
                test,
                yes,
                no,
                span,
            })
        }
        Stmt::While { test, body, span } => {
            let body = carried_all(alloc, scope, body, fresh)?;
            Ok(Stmt::While { test, body, span })
        }
        Stmt::Do { body, test, span } => {
            let body = carried_all(alloc, scope, body, fresh)?;
            Ok(Stmt::Do { body, test, span })
        }
        Stmt::For { head, body, span } => {
            let body = carried_in_head(alloc, scope, body, &head, fresh)?;
            Ok(Stmt::For { head, body, span })
        }
        Stmt::Block { body, span } => {
            let body = carried_all(alloc, scope, body, fresh)?;
            Ok(Stmt::Block { body, span })
        }
        Stmt::Omp {
            directive,
            body,
            span: _span,
        } => {
            let code = construct(alloc, scope, body, &directive, fresh)?;
            Ok(block(statements(alloc, code)?))
        }
        other => Ok(other),
    }
}

/// A list with the constructs in it carried out.
#[cycle(carrying)]
pub(crate) fn carried_all(
    alloc: Global,
    scope: &mut Scope,
    stmts: StmtList,
    fresh: &mut Fresh,
) -> Result<StmtList, AllocError>
    requires { WellFormedStmts (bare_stmts stmts) }
    ensures tree { IfOk result (λ answer. bare_stmts answer ≡ (c.carried_all scope.old.defines scope.old.state (bare_stmts stmts) fresh.old).tree) }
    ensures left { OnOk result (fresh.new ≡ (c.carried_all scope.old.defines scope.old.state (bare_stmts stmts) fresh.old).left) }
    ensures scope { OnOk result (scope.new ≡ scope.old) }
{
    let len = scope.len();
    let mut done = StmtList::new(alloc);
    'each: for stmt in stmts.into_items() {
        let stmt = carried(alloc, scope, stmt, fresh)?;
        declare(scope, &stmt)?;
        done.push(stmt)?;
    }
    scope.keep(len);
    Ok(done)
}

/// The body of a loop with this head, carried out where what the head declares is visible.
#[tactic(auto, using(loop_counts::proofs::WantedKinds::left))]
#[cycle(carrying)]
fn carried_in_head(
    alloc: Global,
    scope: &mut Scope,
    body: StmtList,
    head: &ForHead,
    fresh: &mut Fresh,
) -> Result<StmtList, AllocError>
    requires { WellFormedStmts (bare_stmts body) }
    ensures tree { IfOk result (λ answer. bare_stmts answer ≡ (c.carried_all scope.old.defines (c.in_head (bare_head head.now) scope.old.state) (bare_stmts body) fresh.old).tree) }
    ensures left { OnOk result (fresh.new ≡ (c.carried_all scope.old.defines (c.in_head (bare_head head.now) scope.old.state) (bare_stmts body) fresh.old).left) }
    ensures scope { OnOk result (scope.new ≡ scope.old) }
{
    let len = scope.len();
    enter(scope, head)?;
    let body = carried_all(alloc, scope, body, fresh)?;
    scope.keep(len);
    Ok(body)
}

/// The body of a loop that a construct takes, carried out where the loop's variable is visible.
#[tactic(auto, using(crate::proofs::Scopes::leaving))]
#[cycle(carrying)]
fn carried_in_loop(
    alloc: Global,
    scope: &mut Scope,
    body: StmtList,
    found: &Option<OwnedLoop>,
    fresh: &mut Fresh,
) -> Result<StmtList, AllocError>
    requires { WellFormedStmts (bare_stmts body) }
    ensures tree { IfOk result (λ answer. bare_stmts answer ≡ (c.carried_all scope.old.defines (c.scope_below scope.old.state (option_map source_of found.now)) (bare_stmts body) fresh.old).tree) }
    ensures left { OnOk result (fresh.new ≡ (c.carried_all scope.old.defines (c.scope_below scope.old.state (option_map source_of found.now)) (bare_stmts body) fresh.old).left) }
    ensures scope { OnOk result (scope.new ≡ scope.old) }
{
    let len = scope.len();
    enter_loop(scope, found)?;
    let body = carried_all(alloc, scope, body, fresh)?;
    scope.keep(len);
    Ok(body)
}

/// The code of a directive's loop under its plan.
#[cycle(carrying)]
fn construct(
    alloc: Global,
    scope: &mut Scope,
    body: StmtList,
    directive: &Directive,
    fresh: &mut Fresh,
) -> Result<Gen, AllocError>
    requires { WellFormedStmt (b.omp (bare_directive directive.now) (bare_stmts body)) }
    ensures tree { IfOk result (λ code. bare_gen code ≡ (c.nest_in scope.old.defines scope.old.state (b.omp (bare_directive directive.now) (bare_stmts body)) fresh.old).tree) }
    ensures left { OnOk result (fresh.new ≡ (c.nest_in scope.old.defines scope.old.state (b.omp (bare_directive directive.now) (bare_stmts body)) fresh.old).left) }
    ensures scope { OnOk result (scope.new ≡ scope.old) }
{
    let plan = loop_counts::planned::planned(alloc, &*scope, directive)?;
    let code = nest(alloc, scope, body, fresh)?;
    planned(alloc, &plan, code, fresh)
}

/// The code of the loop that a list leads to, through braces and further directives, and none where it leads to none.
#[cycle(carrying)]
fn nest(
    alloc: Global,
    scope: &mut Scope,
    stmts: StmtList,
    fresh: &mut Fresh,
) -> Result<Gen, AllocError>
    requires { WellFormedStmts (bare_stmts stmts) }
    ensures tree { IfOk result (λ code. bare_gen code ≡ (c.nest scope.old.defines scope.old.state (bare_stmts stmts) fresh.old).tree) }
    ensures left { OnOk result (fresh.new ≡ (c.nest scope.old.defines scope.old.state (bare_stmts stmts) fresh.old).left) }
    ensures scope { OnOk result (scope.new ≡ scope.old) }
{
    match alone(stmts) {
        None => Ok(no_code(alloc)),
        Some(stmt) => nest_in(alloc, scope, stmt, fresh),
    }
}

#[cycle(carrying)]
fn nest_in(
    alloc: Global,
    scope: &mut Scope,
    stmt: Stmt,
    fresh: &mut Fresh,
) -> Result<Gen, AllocError>
    requires { WellFormedStmt (bare_stmt stmt) }
    ensures tree { IfOk result (λ code. bare_gen code ≡ (c.nest_in scope.old.defines scope.old.state (bare_stmt stmt) fresh.old).tree) }
    ensures left { OnOk result (fresh.new ≡ (c.nest_in scope.old.defines scope.old.state (bare_stmt stmt) fresh.old).left) }
    ensures scope { OnOk result (scope.new ≡ scope.old) }
{
    match stmt {
        Stmt::For {
            head,
            body,
            span: _span,
        } => {
            let found = typed_head(alloc, &*scope, &head)?;
            let body = carried_in_loop(alloc, scope, body, &found, fresh)?;
            leaf(alloc, found, body, fresh)
        }
        Stmt::Block { body, span: _span } => nest(alloc, scope, body, fresh),
        Stmt::Omp {
            directive,
            body,
            span: _span,
        } => construct(alloc, scope, body, &directive, fresh),
        other => {
            drop(other);
            Ok(no_code(alloc))
        }
    }
}
