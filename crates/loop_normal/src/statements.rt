//! Generated code as statements.

ghost use Rattle.std.specs.Prelude.{◌≡◌, IfOk, Some, true};
ghost use Rattle.c_tree.specs.Bare.{a_stmt, head, no_exprs, step, target};
ghost use Rattle.c_tree.specs.BareOf.{bare_expr, bare_head, bare_stmt, bare_stmts};
ghost use Rattle.loop_normal.specs.Gens as g;
ghost use Rattle.loop_normal.specs.GenOf.{bare_body, bare_gen, bare_loop, bare_part, bare_parts};

use crate::generated::{Gen, GenBody, GenLoop, GenPart, PartList};
use crate::pieces::{binary, declaration, no_stmts, read, stmt_before, stmts_joined};
use c_tree::boxed::Boxed;
use c_tree::name::Name;
use c_tree::tree::{BinOp, Expr, ExprList, ForHead, Span, Stmt, StmtList, Target, Ty};
use std::alloc::{AllocError, Global};

const NOWHERE: Span = Span { start: 0, end: 0 };

/// `name++`
fn step_up(alloc: Global, name: Name) -> Stmt
    ensures { bare_stmt result ≡ step (target name no_exprs) true }
{
    let target = Target {
        name,
        subs: ExprList::new(alloc),
        span: NOWHERE,
    };
    Stmt::Step {
        target,
        up: true,
        span: NOWHERE,
    }
}

/// `init; test; step`
fn whole_head(init: Boxed<Stmt>, test: Expr, step: Boxed<Stmt>) -> ForHead
    ensures { bare_head result ≡ head (a_stmt (bare_stmt init)) (Some (bare_expr test)) (a_stmt (bare_stmt step)) }
{
    ForHead {
        init: Some(init),
        init_at: 0,
        test: Some(test),
        test_at: 0,
        step: Some(step),
        step_at: 0,
    }
}

/// `for (long long counter = from; counter < to; counter++)` round a list.
fn counter_loop(
    alloc: Global,
    counter: Name,
    from: Expr,
    to: Expr,
    body: StmtList,
) -> Result<Stmt, AllocError>
    ensures { IfOk result (λ stmt. bare_stmt stmt ≡ g.counter_loop counter (bare_expr from) (bare_expr to) (bare_stmts body)) }
{
    let test = binary(alloc, BinOp::Lt, read(alloc, &counter)?, to)?;
    let step = Boxed::new(alloc, step_up(alloc, counter.copy(alloc)?))?;
    let init = Boxed::new(alloc, declaration(Ty::Long, counter, from))?;
    Ok(Stmt::For {
        head: whole_head(init, test, step),
        body,
        span: NOWHERE,
    })
}

#[cycle(statements)]
fn loop_stmts(alloc: Global, looped: GenLoop) -> Result<StmtList, AllocError>
    ensures { IfOk result (λ list. bare_stmts list ≡ g.loop_stmts (bare_loop looped)) }
{
    let GenLoop {
        lets,
        counter,
        from,
        to,
        inner,
    } = looped;
    let body = inner_stmts(alloc, inner)?;
    let stmt = counter_loop(alloc, counter, from, to, body)?;
    let list = stmt_before(stmt, no_stmts(alloc))?;
    stmts_joined(lets, list)
}

#[cycle(statements)]
fn inner_stmts(alloc: Global, inner: GenBody) -> Result<StmtList, AllocError>
    ensures { IfOk result (λ list. bare_stmts list ≡ g.inner_stmts (bare_body inner)) }
{
    match inner {
        GenBody::Nest(looped) => loop_stmts(alloc, looped.into_inner()),
        GenBody::Seq(parts) => parts_stmts(alloc, parts),
    }
}

#[cycle(statements)]
fn part_stmts(alloc: Global, part: GenPart) -> Result<StmtList, AllocError>
    ensures { IfOk result (λ list. bare_stmts list ≡ g.part_stmts (bare_part part)) }
{
    match part {
        GenPart::Loop(looped) => loop_stmts(alloc, looped.into_inner()),
        GenPart::Plain(list) => Ok(list),
    }
}

#[tactic(auto, using(crate::proofs::Parts::parts))]
#[cycle(statements)]
fn parts_stmts(alloc: Global, parts: PartList) -> Result<StmtList, AllocError>
    ensures { IfOk result (λ list. bare_stmts list ≡ g.parts_stmts (bare_parts parts)) }
{
    let mut list = no_stmts(alloc);
    'each: for part in parts.into_items() {
        list = stmts_joined(list, part_stmts(alloc, part)?)?;
    }
    Ok(list)
}

/// The list of a construct's block: its front, then its parts, with the bodies moved.
pub fn statements(alloc: Global, code: Gen) -> Result<StmtList, AllocError>
    ensures { IfOk result (λ list. bare_stmts list ≡ g.emit (bare_gen code)) }
{
    let Gen { front, parts } = code;
    stmts_joined(front, parts_stmts(alloc, parts)?)
}
