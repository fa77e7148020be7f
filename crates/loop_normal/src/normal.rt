//! The normal form of a loop: counted from 0, with its bounds fixed before it.

ghost use Rattle.std.specs.Prelude.{◌≡◌, IfOk, OnOk, Some, nat_abs};
ghost use Rattle.c_tree.specs.Bare as b;
ghost use Rattle.c_tree.specs.BareOf.{bare_expr, bare_stmts};
ghost use Rattle.loop_normal.specs.Gens as g;
ghost use Rattle.loop_normal.specs.Gens.{Looped, gen_loop, no_parts, more_parts};
ghost use Rattle.loop_normal.specs.GenOf.{bare_gen, bare_body, bare_parts};
ghost use Rattle.loop_normal.specs.SourceOf.{source_of};
ghost use Rattle.loop_normal.specs.DrawnNames as names;
ghost use Rattle.loop_normal.specs.Templates as t;

use crate::fresh::Fresh;
use crate::generated::{Gen, GenBody, GenLoop, GenPart, PartList};
use crate::pieces::{
    binary, block, cast, choice, declaration, literal, negated, no_parts, no_stmts, part_before,
    read, stmt_before,
};
use c_tree::boxed::Boxed;
use c_tree::name::Name;
use c_tree::tree::{BinOp, Expr, StmtList, Ty};
use std::alloc::{AllocError, Global};

/// A canonical loop without its body: the variable with its type, the bounds, the test, which is a comparison, and the
/// signed step.
#[derive(Debug, Drop)]
pub struct OwnedLoop {
    pub var: Name,
    pub ty: Ty,
    pub lb: Expr,
    pub ub: Expr,
    pub test: BinOp,
    pub step: i64,
}

/// What a canonical loop runs through: its values have the type `ty`, `test` is a comparison, and `step` is signed.
#[derive(Debug, Drop)]
pub struct SourceRange {
    pub ty: Ty,
    pub lb: Expr,
    pub ub: Expr,
    pub test: BinOp,
    pub step: i64,
}

/// The fresh names of a normal form: of its bounds, of its trip count and of the loop's counter.
#[derive(Debug, Drop)]
pub struct LoopNames {
    pub begin: Name,
    pub end: Name,
    pub count: Name,
    pub counter: Name,
}

/// Draws the four names of a normal form, in the order of their fields. At want of memory any of them may have been drawn.
pub fn draw_names(fresh: &mut Fresh) -> Result<LoopNames, AllocError>
    ensures begin { IfOk result (λ drawn. drawn.begin ≡ (names.loop_names fresh.old).begin) }
    ensures end { IfOk result (λ drawn. drawn.end ≡ (names.loop_names fresh.old).end) }
    ensures count { IfOk result (λ drawn. drawn.count ≡ (names.loop_names fresh.old).count) }
    ensures counter { IfOk result (λ drawn. drawn.counter ≡ (names.loop_names fresh.old).counter) }
    ensures drawn { OnOk result (fresh.new ≡ names.after_draws 4 fresh.old) }
{
    let begin = fresh.next()?;
    let end = fresh.next()?;
    let count = fresh.next()?;
    let counter = fresh.next()?;
    Ok(LoopNames {
        begin,
        end,
        count,
        counter,
    })
}

/// `(long long)to - (long long)from`.
fn gap(alloc: Global, from: &Name, to: &Name) -> Result<Expr, AllocError>
    ensures { IfOk result (λ e. bare_expr e ≡ t.gap from.now to.now) }
{
    let end = cast(alloc, Ty::Long, read(alloc, to)?)?;
    let begin = cast(alloc, Ty::Long, read(alloc, from)?)?;
    binary(alloc, BinOp::Sub, end, begin)
}

/// `begin op end ? (distance - 1LL) / size + 1LL : 0LL`.
fn strict_count(
    alloc: Global,
    op: BinOp,
    distance: Expr,
    size: u64,
    begin: &Name,
    end: &Name,
) -> Result<Expr, AllocError>
    ensures { IfOk result (λ e. bare_expr e ≡ t.strict_count op (bare_expr distance) size begin.now end.now) }
{
    let test = binary(alloc, op, read(alloc, begin)?, read(alloc, end)?)?;
    let less = binary(alloc, BinOp::Sub, distance, literal(1))?;
    let steps = binary(alloc, BinOp::Div, less, literal(size))?;
    let count = binary(alloc, BinOp::Add, steps, literal(1))?;
    choice(alloc, test, count, literal(0))
}

/// `begin op end ? distance / size + 1LL : 0LL`.
fn weak_count(
    alloc: Global,
    op: BinOp,
    distance: Expr,
    size: u64,
    begin: &Name,
    end: &Name,
) -> Result<Expr, AllocError>
    ensures { IfOk result (λ e. bare_expr e ≡ t.weak_count op (bare_expr distance) size begin.now end.now) }
{
    let test = binary(alloc, op, read(alloc, begin)?, read(alloc, end)?)?;
    let steps = binary(alloc, BinOp::Div, distance, literal(size))?;
    let count = binary(alloc, BinOp::Add, steps, literal(1))?;
    choice(alloc, test, count, literal(0))
}

fn is_up(step: i64) -> bool
    ensures { result ≡ t.is_up step }
{
    step >= 0
}

fn size_of(step: i64) -> u64
    ensures { result ≡ nat_abs step }
{
    step.unsigned_abs()
}

/// The trip count, 0 where the step doesn't fit the test.
fn trip_count(
    alloc: Global,
    test: BinOp,
    step: i64,
    begin: &Name,
    end: &Name,
) -> Result<Expr, AllocError>
    ensures { IfOk result (λ e. bare_expr e ≡ t.count_expr test step begin.now end.now) }
{
    let size = size_of(step);
    if is_up(step) {
        match test {
            BinOp::Lt | BinOp::Ne => {
                strict_count(alloc, BinOp::Lt, gap(alloc, begin, end)?, size, begin, end)
            }
            BinOp::Le => weak_count(alloc, BinOp::Le, gap(alloc, begin, end)?, size, begin, end),
            _ => Ok(literal(0)),
        }
    } else {
        match test {
            BinOp::Gt | BinOp::Ne => {
                strict_count(alloc, BinOp::Gt, gap(alloc, end, begin)?, size, begin, end)
            }
            BinOp::Ge => weak_count(alloc, BinOp::Ge, gap(alloc, end, begin)?, size, begin, end),
            _ => Ok(literal(0)),
        }
    }
}

fn step_literal(alloc: Global, step: i64) -> Result<Expr, AllocError>
    ensures { IfOk result (λ e. bare_expr e ≡ t.step_expr step) }
{
    let size = literal(size_of(step));
    if is_up(step) {
        Ok(size)
    } else {
        negated(alloc, size)
    }
}

/// `(ty)((long long)begin + counter * step)`, the value of a loop's variable in the turn that its counter says.
pub fn turn_value(
    alloc: Global,
    ty: Ty,
    step: i64,
    begin: &Name,
    counter: &Name,
) -> Result<Expr, AllocError>
    ensures { IfOk result (λ e. bare_expr e ≡ t.value_expr ty step begin.now counter.now) }
{
    let from = cast(alloc, Ty::Long, read(alloc, begin)?)?;
    let way = binary(
        alloc,
        BinOp::Mul,
        read(alloc, counter)?,
        step_literal(alloc, step)?,
    )?;
    cast(alloc, ty, binary(alloc, BinOp::Add, from, way)?)
}

/// The declarations that fix the bounds and the trip count of a loop, before others. The count is 0 where the step doesn't fit
/// the test.
pub fn bounds_front(
    alloc: Global,
    names: &LoopNames,
    range: SourceRange,
    rest: StmtList,
) -> Result<StmtList, AllocError>
    ensures { IfOk result (λ front. bare_stmts front ≡ t.front_of (record { begin = names.now.begin; end = names.now.end; count = names.now.count; counter = names.now.counter }) range.ty (bare_expr range.lb) (bare_expr range.ub) range.test range.step (bare_stmts rest)) }
{
    let SourceRange {
        ty,
        lb,
        ub,
        test,
        step,
    } = range;
    let count = trip_count(alloc, test, step, &names.begin, &names.end)?;
    let rest = stmt_before(declaration(Ty::Long, names.count.copy(alloc)?, count), rest)?;
    let rest = stmt_before(declaration(ty, names.end.copy(alloc)?, ub), rest)?;
    stmt_before(declaration(ty, names.begin.copy(alloc)?, lb), rest)
}

/// One part: a loop whose counter runs from 0 to below the count.
fn counted_loop(alloc: Global, names: &LoopNames, inner: GenBody) -> Result<PartList, AllocError>
    ensures { IfOk result (λ parts. bare_parts parts ≡ more_parts (Looped (gen_loop b.no_stmts names.now.counter (t.ll 0) (b.read names.now.count) (bare_body inner))) no_parts) }
{
    let counted = GenLoop {
        lets: no_stmts(alloc),
        counter: names.counter.copy(alloc)?,
        from: literal(0),
        to: read(alloc, &names.count)?,
        inner,
    };
    part_before(GenPart::Loop(Boxed::new(alloc, counted)?), no_parts(alloc))
}

/// The variable, and the body as a block.
fn leaf_body(
    alloc: Global,
    names: &LoopNames,
    ty: Ty,
    var: Name,
    step: i64,
    body: StmtList,
) -> Result<GenBody, AllocError>
    ensures { IfOk result (λ inner. bare_body inner ≡ g.Seq (more_parts (g.Plain (b.more_stmts (b.decl ty var (Some (t.value_expr ty step names.now.begin names.now.counter))) (t.only (b.block (bare_stmts body))))) no_parts)) }
{
    let value = turn_value(alloc, ty, step, &names.begin, &names.counter)?;
    let list = stmt_before(block(body), no_stmts(alloc))?;
    let list = stmt_before(declaration(ty, var, value), list)?;
    let parts = part_before(GenPart::Plain(list), no_parts(alloc))?;
    Ok(GenBody::Seq(parts))
}

/// One loop whose iterations are those of a canonical loop: the front has its bounds and its count, and below it stand the
/// variable and the body as a block. It draws four names.
///
/// The step fits the test, no `break` in the body would leave the loop, and the body holds no name that is still to be drawn.
pub fn normal_leaf(
    alloc: Global,
    head: OwnedLoop,
    body: StmtList,
    fresh: &mut Fresh,
) -> Result<Gen, AllocError>
    ensures template { IfOk result (λ gen. bare_gen gen ≡ t.leaf (names.loop_names fresh.old) (source_of head) (bare_stmts body)) }
    ensures drawn { OnOk result (fresh.new ≡ names.after_draws 4 fresh.old) }
{
    let OwnedLoop {
        var,
        ty,
        lb,
        ub,
        test,
        step,
    } = head;
    let drawn = draw_names(fresh)?;
    let inner = leaf_body(alloc, &drawn, ty, var, step, body)?;
    let range = SourceRange {
        ty,
        lb,
        ub,
        test,
        step,
    };
    let front = bounds_front(alloc, &drawn, range, no_stmts(alloc))?;
    let parts = counted_loop(alloc, &drawn, inner)?;
    Ok(Gen { front, parts })
}
