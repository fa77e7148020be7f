//! The pieces that generated code is made of. No text spells them, so their places say nothing.

ghost use Rattle.std.specs.Prelude.{◌≡◌, ◌∷◌, ◌++◌, [], IfOk, Some, MatchOption};
ghost use Rattle.c_tree.specs.Bare as b;
ghost use Rattle.c_tree.specs.BareOf.{bare_expr, bare_stmt, bare_stmts};
ghost use Rattle.c_tree.specs.declared.tree.UnOp.TheVariants.{Neg};
ghost use Rattle.loop_normal.specs.Gens as g;
ghost use Rattle.loop_normal.specs.GenOf.{bare_part, bare_parts};
ghost use Rattle.loop_normal.specs.Templates.{ll};

use crate::generated::{GenPart, PartList};
use c_tree::boxed::Boxed;
use c_tree::items::Items;
use c_tree::name::Name;
use c_tree::tree::{BinOp, Expr, Span, Stmt, StmtList, Ty, UnOp};
use std::alloc::{AllocError, Global};

const NOWHERE: Span = Span { start: 0, end: 0 };

/// A literal of type `long long`.
pub fn literal(value: u64) -> Expr
    ensures { bare_expr result ≡ ll value }
{
    Expr::Num {
        value,
        ty: Ty::Long,
        span: NOWHERE,
    }
}

pub fn read(alloc: Global, name: &Name) -> Result<Expr, AllocError>
    ensures { IfOk result (λ e. bare_expr e ≡ b.read name.now) }
{
    Ok(Expr::Read {
        name: name.copy(alloc)?,
        span: NOWHERE,
    })
}

pub fn negated(alloc: Global, of: Expr) -> Result<Expr, AllocError>
    ensures { IfOk result (λ e. bare_expr e ≡ b.un Neg (bare_expr of)) }
{
    Ok(Expr::Un {
        op: UnOp::Neg,
        of: Boxed::new(alloc, of)?,
        span: NOWHERE,
    })
}

pub fn binary(alloc: Global, op: BinOp, left: Expr, right: Expr) -> Result<Expr, AllocError>
    ensures { IfOk result (λ e. bare_expr e ≡ b.bin op (bare_expr left) (bare_expr right)) }
{
    Ok(Expr::Bin {
        op,
        left: Boxed::new(alloc, left)?,
        right: Boxed::new(alloc, right)?,
        span: NOWHERE,
    })
}

/// `test ? yes : no`.
pub fn choice(alloc: Global, test: Expr, yes: Expr, no: Expr) -> Result<Expr, AllocError>
    ensures { IfOk result (λ e. bare_expr e ≡ b.cond (bare_expr test) (bare_expr yes) (bare_expr no)) }
{
    Ok(Expr::Cond {
        test: Boxed::new(alloc, test)?,
        yes: Boxed::new(alloc, yes)?,
        no: Boxed::new(alloc, no)?,
        span: NOWHERE,
    })
}

pub fn cast(alloc: Global, ty: Ty, of: Expr) -> Result<Expr, AllocError>
    ensures { IfOk result (λ e. bare_expr e ≡ b.cast ty (bare_expr of)) }
{
    Ok(Expr::Cast {
        ty,
        of: Boxed::new(alloc, of)?,
        span: NOWHERE,
    })
}

/// `ty name = value;`
pub fn declaration(ty: Ty, name: Name, value: Expr) -> Stmt
    ensures { bare_stmt result ≡ b.decl ty name (Some (bare_expr value)) }
{
    Stmt::Decl {
        ty,
        name,
        name_span: NOWHERE,
        init: Some(value),
        span: NOWHERE,
    }
}

pub fn block(body: StmtList) -> Stmt
    ensures { bare_stmt result ≡ b.block (bare_stmts body) }
{
    Stmt::Block {
        body,
        span: NOWHERE,
    }
}

/// A list with an item before it. At want of memory all is dropped.
pub fn before<T: Drop>(first: T, rest: Items<T>) -> Result<Items<T>, AllocError>
    ensures { IfOk result (λ list. list ≡ first ∷ rest) }
{
    let mut items = rest.into_items();
    items.insert(0, first)?;
    Ok(Items::from_items(items))
}

/// A statement before others.
pub fn stmt_before(stmt: Stmt, rest: StmtList) -> Result<StmtList, AllocError>
    ensures { IfOk result (λ list. bare_stmts list ≡ b.more_stmts (bare_stmt stmt) (bare_stmts rest)) }
{
    before(stmt, rest)
}

pub fn no_stmts(alloc: Global) -> StmtList
    ensures { bare_stmts result ≡ b.no_stmts }
{
    StmtList::new(alloc)
}

/// A part before others.
pub fn part_before(part: GenPart, rest: PartList) -> Result<PartList, AllocError>
    ensures { IfOk result (λ list. bare_parts list ≡ g.more_parts (bare_part part) (bare_parts rest)) }
{
    before(part, rest)
}

pub fn no_parts(alloc: Global) -> PartList
    ensures { bare_parts result ≡ g.no_parts }
{
    PartList::new(alloc)
}

/// The items of both lists. At want of memory all are dropped.
pub fn joined<T: Drop>(first: Items<T>, second: Items<T>) -> Result<Items<T>, AllocError>
    ensures { IfOk result (λ list. list ≡ first ++ second) }
{
    let mut items = first.into_items();
    let mut more = second.into_items();
    items.append(&mut more)?;
    Ok(Items::from_items(items))
}

/// The first item and the others, with no memory taken.
#[tactic(auto, using(crate::proofs::Trees::trees))]
pub fn split_first<T: Drop>(list: Items<T>) -> Option<(T, Items<T>)>
    ensures { MatchOption result (list ≡ []) (λ split. list ≡ split.0 ∷ split.1) }
{
    let mut items = list.into_items();
    if items.is_empty() {
        return None;
    }
    let first = items.remove(0);
    Some((first, Items::from_items(items)))
}

/// The statements of both lists.
#[tactic(auto, using(crate::proofs::Trees::trees))]
pub fn stmts_joined(first: StmtList, second: StmtList) -> Result<StmtList, AllocError>
    ensures { IfOk result (λ list. bare_stmts list ≡ g.join (bare_stmts first) (bare_stmts second)) }
{
    joined(first, second)
}
