//! The normal form of a loop round a nest.

ghost use Rattle.std.specs.Prelude.{◌≡◌, IfOk, OnOk, Some};
ghost use Rattle.c_tree.specs.Bare.{decl};
ghost use Rattle.c_tree.specs.BareOf.{bare_stmt};
ghost use Rattle.loop_normal.specs.DrawnNames as names;
ghost use Rattle.loop_normal.specs.GenOf.{bare_gen, bare_loop, bare_part, bare_parts};
ghost use Rattle.loop_normal.specs.SourceOf.{source_of};
ghost use Rattle.loop_normal.specs.Templates.{on_first, value_expr};
ghost use Rattle.nest_normal.specs.NestTexts.{counted_round, nest_round, on_loop};

use crate::variables::declare_in;
use c_tree::boxed::Boxed;
use c_tree::name::Name;
use c_tree::tree::{Stmt, Ty};
use loop_normal::fresh::Fresh;
use loop_normal::generated::{Gen, GenBody, GenLoop, GenPart, PartList};
use loop_normal::normal::{
    LoopNames, OwnedLoop, SourceRange, bounds_front, draw_names, turn_value,
};
use loop_normal::pieces::{
    declaration, literal, no_parts, no_stmts, part_before, read, split_first,
};
use std::alloc::{AllocError, Global};

/// The loop round a nest, with its variable declared below the innermost loop.
fn loop_round(
    alloc: Global,
    names: &LoopNames,
    nest: GenLoop,
    variable: Stmt,
) -> Result<GenLoop, AllocError>
    ensures { IfOk result (λ answer. bare_loop answer ≡ counted_round names.now.counter names.now.count (bare_stmt variable) (bare_loop nest)) }
{
    let nest = declare_in(alloc, nest, variable)?;
    Ok(GenLoop {
        lets: no_stmts(alloc),
        counter: names.counter.copy(alloc)?,
        from: literal(0),
        to: read(alloc, &names.count)?,
        inner: GenBody::Nest(Boxed::new(alloc, nest)?),
    })
}

/// The loop round a part, where that is a nest.
fn part_round(
    alloc: Global,
    names: &LoopNames,
    part: GenPart,
    variable: Stmt,
) -> Result<GenPart, AllocError>
    ensures { IfOk result (λ answer. bare_part answer ≡ on_loop (counted_round names.now.counter names.now.count (bare_stmt variable)) (bare_part part)) }
{
    match part {
        GenPart::Loop(nest) => {
            let looped = loop_round(alloc, names, nest.into_inner(), variable)?;
            Ok(GenPart::Loop(Boxed::new(alloc, looped)?))
        }
        GenPart::Plain(list) => Ok(GenPart::Plain(list)),
    }
}

/// The loop round the first part, where that is a nest.
#[tactic(auto, using(crate::proofs::FirstParts::changed))]
fn first_round(
    alloc: Global,
    names: &LoopNames,
    parts: PartList,
    variable: Stmt,
) -> Result<PartList, AllocError>
    ensures { IfOk result (λ answer. bare_parts answer ≡ on_first (counted_round names.now.counter names.now.count (bare_stmt variable)) (bare_parts parts)) }
{
    match split_first(parts) {
        None => Ok(no_parts(alloc)),
        Some((first, rest)) => {
            let first = part_round(alloc, names, first, variable)?;
            part_before(first, rest)
        }
    }
}

/// The loop round the first part, with the value of its variable in each turn.
fn parts_round(
    alloc: Global,
    names: &LoopNames,
    ty: Ty,
    var: Name,
    step: i64,
    parts: PartList,
) -> Result<PartList, AllocError>
    ensures { IfOk result (λ answer. bare_parts answer ≡ on_first (counted_round names.now.counter names.now.count (decl ty var (Some (value_expr ty step names.now.begin names.now.counter)))) (bare_parts parts)) }
{
    let value = turn_value(alloc, ty, step, &names.begin, &names.counter)?;
    first_round(alloc, names, parts, declaration(ty, var, value))
}

/// The normal form of a canonical loop round a nest, given the loop's head and the normal form `inner` of the nest (OpenMP
/// 6.0, 6.4.1: a canonical loop nest). Its bounds and its count come before those of the nest, its counter runs round the
/// nest, and its variable is declared below the innermost loop, before the variables of the nest, unless one of these hides
/// it. Four names are drawn, as for a loop alone. Bodies are moved.
///
/// The answer does what the nest of both does where the step fits the test, no bound of the nest reads the loop's variable,
/// `inner` is one part, and it holds no name that is still to be drawn. Of several parts the loop is put round the first.
///
/// At want of memory the head and the nest are dropped, and any of the four names may have been drawn.
pub fn normal_round(
    alloc: Global,
    head: OwnedLoop,
    inner: Gen,
    fresh: &mut Fresh,
) -> Result<Gen, AllocError>
    ensures template { IfOk result (λ gen. bare_gen gen ≡ nest_round (names.loop_names fresh.old) (source_of head) (bare_gen inner)) }
    ensures drawn { OnOk result (fresh.new ≡ names.after_draws 4 fresh.old) }
{
    let OwnedLoop {
        var,
        ty,
        lb,
        ub,
        test,
        step,
    } = head;
    let drawn = draw_names(fresh)?;
    let Gen { front, parts } = inner;
    let parts = parts_round(alloc, &drawn, ty, var, step, parts)?;
    let range = SourceRange {
        ty,
        lb,
        ub,
        test,
        step,
    };
    let front = bounds_front(alloc, &drawn, range, front)?;
    Ok(Gen { front, parts })
}
