//! Declarations below the innermost loop of a nest.

ghost use Rattle.std.specs.Prelude.{◌≡◌, IfOk};
ghost use Rattle.c_tree.specs.BareOf.{bare_stmt, bare_stmts};
ghost use Rattle.loop_normal.specs.Denotes.{lets_of};
ghost use Rattle.loop_normal.specs.Gens.{parts_stmts};
ghost use Rattle.loop_normal.specs.GenOf.{bare_body, bare_loop, bare_part, bare_parts};
ghost use Rattle.nest_normal.specs.NestTexts as t;

use c_tree::boxed::Boxed;
use c_tree::name::Name;
use c_tree::tree::Stmt;
use loop_normal::generated::{GenBody, GenLoop, GenPart, PartList};
use loop_normal::pieces::{no_stmts, part_before, stmt_before};
use std::alloc::{AllocError, Global};

fn declares_name(stmt: &Stmt, name: &Name) -> bool
    ensures { result ≡ t.declares_name name.now (bare_stmt stmt.now) }
{
    match stmt {
        Stmt::Decl { name: other, .. } => name == other,
        _ => false,
    }
}

/// Whether the list declares the name, not only in a block of it.
#[tactic(auto, using(crate::proofs::Lists::declaring))]
fn declares(stmts: &[Stmt], name: &Name) -> bool
    ensures { result ≡ t.declares name.now (bare_stmts stmts.now) }
{
    'each: for stmt in stmts {
        if declares_name(stmt, name) {
            return true;
        }
    }
    false
}

#[tactic(auto, using(loop_normal::proofs::LoopFields::fields))]
fn lets_declare(looped: &GenLoop, name: &Name) -> bool
    ensures { result ≡ t.declares name.now (lets_of (bare_loop looped.now)) }
{
    declares(looped.lets.as_slice(), name)
}

fn part_declares(part: &GenPart, name: &Name) -> bool
    ensures { result ≡ t.part_declares name.now (bare_part part.now) }
{
    match part {
        GenPart::Loop(looped) => lets_declare(looped.get(), name),
        GenPart::Plain(list) => declares(list.as_slice(), name),
    }
}

#[tactic(auto, using(crate::proofs::Lists::declaring))]
fn parts_declare(parts: &[GenPart], name: &Name) -> bool
    ensures { result ≡ t.declares name.now (parts_stmts (bare_parts parts.now)) }
{
    'each: for part in parts {
        if part_declares(part, name) {
            return true;
        }
    }
    false
}

/// Whether the statement declares a name that the parts declare too.
fn is_hidden(stmt: &Stmt, parts: &[GenPart]) -> bool
    ensures { result ≡ t.is_hidden (bare_stmt stmt.now) (parts_stmts (bare_parts parts.now)) }
{
    match stmt {
        Stmt::Decl { name, .. } => parts_declare(parts, name),
        _ => false,
    }
}

/// A declaration before parts, unless it is hidden there.
fn put_visible(alloc: Global, stmt: Stmt, parts: PartList) -> Result<PartList, AllocError>
    ensures { IfOk result (λ answer. bare_parts answer ≡ t.put_visible (bare_stmt stmt) (bare_parts parts)) }
{
    if is_hidden(&stmt, parts.as_slice()) {
        return Ok(parts);
    }
    let list = stmt_before(stmt, no_stmts(alloc))?;
    part_before(GenPart::Plain(list), parts)
}

/// A declaration below the innermost loop of a nest, unless it is hidden there.
#[cycle(declaring)]
pub(crate) fn declare_in(alloc: Global, looped: GenLoop, stmt: Stmt) -> Result<GenLoop, AllocError>
    ensures { IfOk result (λ answer. bare_loop answer ≡ t.declare_in (bare_stmt stmt) (bare_loop looped)) }
{
    let GenLoop {
        lets,
        counter,
        from,
        to,
        inner,
    } = looped;
    let inner = declare_below(alloc, inner, stmt)?;
    Ok(GenLoop {
        lets,
        counter,
        from,
        to,
        inner,
    })
}

#[cycle(declaring)]
fn declare_below(alloc: Global, inner: GenBody, stmt: Stmt) -> Result<GenBody, AllocError>
    ensures { IfOk result (λ answer. bare_body answer ≡ t.declare_below (bare_stmt stmt) (bare_body inner)) }
{
    match inner {
        GenBody::Nest(looped) => {
            let looped = declare_in(alloc, looped.into_inner(), stmt)?;
            Ok(GenBody::Nest(Boxed::new(alloc, looped)?))
        }
        GenBody::Seq(parts) => Ok(GenBody::Seq(put_visible(alloc, stmt, parts)?)),
    }
}
