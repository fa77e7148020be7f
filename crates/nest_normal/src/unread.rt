//! A nest without the declarations that nothing reads.

ghost use Rattle.std.specs.Prelude.{◌≡◌, IfOk};
ghost use Rattle.c_tree.specs.BareOf.{bare_stmt, bare_stmts};
ghost use Rattle.loop_normal.specs.GenOf.{bare_loop};
ghost use Rattle.nest_normal.specs.Spelled as s;

use crate::spelled::in_loop;
use c_tree::boxed::Boxed;
use c_tree::tree::{Stmt, StmtList};
use loop_normal::generated::{GenBody, GenLoop};
use loop_normal::pieces::{no_stmts, split_first, stmt_before};
use std::alloc::{AllocError, Global};

fn is_unread(stmt: &Stmt, looped: &GenLoop) -> bool
    ensures { result ≡ s.is_unread (bare_stmt stmt.now) (bare_loop looped.now) }
{
    match stmt {
        Stmt::Decl { name, .. } => !in_loop(name, looped),
        _ => false,
    }
}

/// A statement before a loop, unless it declares what nothing in it reads.
fn before_if_read(stmt: Stmt, looped: GenLoop) -> Result<GenLoop, AllocError>
    ensures { IfOk result (λ answer. bare_loop answer ≡ s.before_if_read (bare_stmt stmt) (bare_loop looped)) }
{
    if is_unread(&stmt, &looped) {
        return Ok(looped);
    }
    let GenLoop {
        lets,
        counter,
        from,
        to,
        inner,
    } = looped;
    Ok(GenLoop {
        lets: stmt_before(stmt, lets)?,
        counter,
        from,
        to,
        inner,
    })
}

fn all_if_read(stmts: StmtList, looped: GenLoop) -> Result<GenLoop, AllocError>
    ensures { IfOk result (λ answer. bare_loop answer ≡ s.all_if_read (bare_stmts stmts) (bare_loop looped)) }
{
    match split_first(stmts) {
        None => Ok(looped),
        Some((first, rest)) => before_if_read(first, all_if_read(rest, looped)?),
    }
}

/// The nest without the declarations before its loops that nothing after them spells.
pub(crate) fn without_unread(alloc: Global, looped: GenLoop) -> Result<GenLoop, AllocError>
    ensures { IfOk result (λ answer. bare_loop answer ≡ s.without_unread (bare_loop looped)) }
{
    let GenLoop {
        lets,
        counter,
        from,
        to,
        inner,
    } = looped;
    let inner = match inner {
        GenBody::Nest(next) => {
            GenBody::Nest(Boxed::new(alloc, without_unread(alloc, next.into_inner())?)?)
        }
        GenBody::Seq(parts) => GenBody::Seq(parts),
    };
    let bare = GenLoop {
        lets: no_stmts(alloc),
        counter,
        from,
        to,
        inner,
    };
    all_if_read(lets, bare)
}
