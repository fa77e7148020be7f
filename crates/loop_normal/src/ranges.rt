//! Loops that are brought to another range.

ghost use Rattle.std.specs.Prelude.{◌≡◌, IfOk, OnOk};
ghost use Rattle.c_tree.specs.Bare as b;
ghost use Rattle.c_tree.specs.BareOf.{bare_expr, bare_stmt, bare_stmts};
ghost use Rattle.c_tree.specs.declared.tree.BinOp.TheVariants.{Add, Sub};
ghost use Rattle.loop_normal.specs.Gens as g;
ghost use Rattle.loop_normal.specs.Gens.{Nest, let_stmt};
ghost use Rattle.loop_normal.specs.GenOf.{bare_body, bare_gen, bare_loop, bare_parts};
ghost use Rattle.loop_normal.specs.FromZero.{after_from_zero, from_zero};
ghost use Rattle.loop_normal.specs.Templates as t;

use crate::fresh::Fresh;
use crate::generated::{Gen, GenBody, GenLoop, GenPart, PartList};
use crate::pieces::{
    binary, declaration, literal, no_parts, no_stmts, part_before, read, split_first, stmt_before,
    stmts_joined,
};
use c_tree::boxed::Boxed;
use c_tree::name::Name;
use c_tree::tree::{BinOp, Expr, Stmt, StmtList, Ty};
use std::alloc::{AllocError, Global};

/// A declaration before what is below a loop.
pub fn with_let(alloc: Global, stmt: Stmt, inner: GenBody) -> Result<GenBody, AllocError>
    ensures { IfOk result (λ body. bare_body body ≡ t.put_let (bare_stmt stmt) (bare_body inner)) }
{
    match inner {
        GenBody::Nest(looped) => {
            let looped = with_first_let(stmt, looped.into_inner())?;
            Ok(GenBody::Nest(Boxed::new(alloc, looped)?))
        }
        GenBody::Seq(parts) => {
            let list = stmt_before(stmt, no_stmts(alloc))?;
            Ok(GenBody::Seq(part_before(GenPart::Plain(list), parts)?))
        }
    }
}

/// A declaration before those of a loop.
fn with_first_let(stmt: Stmt, looped: GenLoop) -> Result<GenLoop, AllocError>
    ensures { IfOk result (λ answer. Nest (bare_loop answer) ≡ t.put_let (bare_stmt stmt) (Nest (bare_loop looped))) }
{
    let GenLoop {
        lets,
        counter,
        from,
        to,
        inner,
    } = looped;
    let lets = stmt_before(stmt, lets)?;
    Ok(GenLoop {
        lets,
        counter,
        from,
        to,
        inner,
    })
}

/// Whether an expression is the literal 0 of the type `long long`, written in any way.
pub fn is_zero_literal(e: &Expr) -> bool
    ensures { result ≡ t.is_zero_literal (bare_expr e.now) }
{
    match e {
        Expr::Num { value, ty, .. } => match ty {
            Ty::Long => *value == 0,
            Ty::Int => false,
        },
        _ => false,
    }
}

/// Whether the first part is no loop, or a loop from the literal 0.
fn begins_at_zero(parts: &[GenPart]) -> bool
    ensures { result ≡ t.begins_at_zero (bare_parts parts.now) }
{
    match parts {
        [] => true,
        [first, ..] => match first {
            GenPart::Loop(looped) => is_zero_literal(&looped.get().from),
            GenPart::Plain(_) => true,
        },
    }
}

/// `long long name = start + counter;`
fn offset(alloc: Global, name: Name, start: &Name, counter: &Name) -> Result<Stmt, AllocError>
    ensures { IfOk result (λ stmt. bare_stmt stmt ≡ let_stmt name (b.bin Add (b.read start.now) (b.read counter.now))) }
{
    let sum = binary(
        alloc,
        BinOp::Add,
        read(alloc, start)?,
        read(alloc, counter)?,
    )?;
    Ok(declaration(Ty::Long, name, sum))
}

/// `long long size = to - start;`
fn width(alloc: Global, size: Name, to: Expr, start: &Name) -> Result<Stmt, AllocError>
    ensures { IfOk result (λ stmt. bare_stmt stmt ≡ let_stmt size (b.bin Sub (bare_expr to) (b.read start.now))) }
{
    let count = binary(alloc, BinOp::Sub, to, read(alloc, start)?)?;
    Ok(declaration(Ty::Long, size, count))
}

/// Two declarations after others.
fn with_two(
    alloc: Global,
    lets: StmtList,
    first: Stmt,
    second: Stmt,
) -> Result<StmtList, AllocError>
    ensures { IfOk result (λ list. bare_stmts list ≡ g.join (bare_stmts lets) (b.more_stmts (bare_stmt first) (t.only (bare_stmt second)))) }
{
    let more = stmt_before(second, no_stmts(alloc))?;
    let more = stmt_before(first, more)?;
    stmts_joined(lets, more)
}

/// The loop counted from 0: `start` is what it began at, `size` is its count, and the old counter is their sum.
fn rebased(
    alloc: Global,
    looped: GenLoop,
    start: Name,
    size: Name,
    counter: Name,
) -> Result<GenLoop, AllocError>
    ensures { IfOk result (λ answer. bare_loop answer ≡ t.rebased start size counter (bare_loop looped)) }
{
    let GenLoop {
        lets,
        counter: old,
        from,
        to,
        inner,
    } = looped;
    let inner = with_let(alloc, offset(alloc, old, &start, &counter)?, inner)?;
    let end = read(alloc, &size)?;
    let second = width(alloc, size, to, &start)?;
    let lets = with_two(alloc, lets, declaration(Ty::Long, start, from), second)?;
    Ok(GenLoop {
        lets,
        counter,
        from: literal(0),
        to: end,
        inner,
    })
}

fn rebased_first(
    alloc: Global,
    parts: PartList,
    start: Name,
    size: Name,
    counter: Name,
) -> Result<PartList, AllocError>
    ensures { IfOk result (λ answer. bare_parts answer ≡ t.on_first (t.rebased start size counter) (bare_parts parts)) }
{
    let (first, rest) = match split_first(parts) {
        None => return Ok(no_parts(alloc)),
        Some(split) => split,
    };
    match first {
        GenPart::Loop(looped) => {
            let looped = rebased(alloc, looped.into_inner(), start, size, counter)?;
            part_before(GenPart::Loop(Boxed::new(alloc, looped)?), rest)
        }
        GenPart::Plain(list) => part_before(GenPart::Plain(list), rest),
    }
}

/// The Gen with the loop of its first part brought to begin at 0. It draws no name where that loop begins at the literal 0,
/// and else three: for what it began at, for its count, and for its counter.
pub fn rebase(alloc: Global, nest: Gen, fresh: &mut Fresh) -> Result<Gen, AllocError>
    ensures template { IfOk result (λ gen. bare_gen gen ≡ from_zero fresh.old (bare_gen nest)) }
    ensures drawn { OnOk result (fresh.new ≡ after_from_zero fresh.old (bare_gen nest)) }
{
    if begins_at_zero(nest.parts.as_slice()) {
        return Ok(nest);
    }
    let start = fresh.next()?;
    let size = fresh.next()?;
    let counter = fresh.next()?;
    let Gen { front, parts } = nest;
    let parts = rebased_first(alloc, parts, start, size, counter)?;
    Ok(Gen { front, parts })
}
