//! A program with the numbers of its names in their place.

ghost use Rattle.std.specs.Prelude.{◌≡◌, ◌∷◌, [], map, IfOk};
ghost use Rattle.std.specs.Option.{option_map};
ghost use Rattle.c_tree.specs.BareOf.{bare_expr, bare_exprs, bare_target, bare_stmt, bare_stmts, bare_head, bare_param, bare_top, maybe_stmt};
ghost use Rattle.resolved_names.specs.Numbering.{numbering};
ghost use Rattle.resolved_names.specs.Numbered.{numbered_expr, numbered_exprs, numbered_target, numbered_stmt, numbered_stmts, numbered_head, numbered_param, numbered_top, numbered_tops};
ghost use Rattle.resolved_names.specs.Renaming.{renamed_expr, renamed_exprs, renamed_target, renamed_stmt, renamed_stmts, renamed_head, renamed_part, renamed_param, renamed_top, renamed_program};
ghost use Rattle.resolved_names.specs.Resolved.{Resolved};

use crate::names::Names;
use crate::tree::{
    Expr, ExprList, ForHead, Item, ItemList, Param, ParamList, Stmt, StmtList, Target,
};
use c_tree::boxed::Boxed;
use c_tree::name::Name;
use c_tree::tree as named;
use std::alloc::{AllocError, Global};

/// Why there is no resolved program: memory is wanting, or the program has a directive or uses a name that it doesn't
/// declare, which a checked program without directives doesn't.
#[derive(Clone, Copy, Debug, PartialEq, Eq)]
pub struct Unresolved;

impl From<AllocError> for Unresolved {
    fn from(_: AllocError) -> Unresolved {
        Unresolved
    }
}

fn number(names: &Names, name: &Name) -> Result<usize, Unresolved>
    ensures { IfOk result (λ number. numbering names.now name.now ≡ number ∷ []) }
{
    match names.number(name) {
        Some(number) => Ok(number),
        None => Err(Unresolved),
    }
}

#[cycle(exprs)]
fn resolve_expr(alloc: Global, names: &Names, e: &named::Expr) -> Result<Expr, Unresolved>
    ensures { IfOk result (λ r. numbered_expr r ≡ renamed_expr (numbering names.now) (bare_expr e.now)) }
{
    Ok(match e {
        named::Expr::Num { value, ty, .. } => Expr::Num {
            value: *value,
            ty: *ty,
        },
        named::Expr::Read { name, .. } => Expr::Read {
            name: number(names, name)?,
        },
        named::Expr::Item { name, subs, .. } => Expr::Item {
            name: number(names, name)?,
            subs: resolve_exprs(alloc, names, subs.as_slice())?,
        },
        named::Expr::Un { op, of, .. } => Expr::Un {
            op: *op,
            of: resolve_boxed(alloc, names, of)?,
        },
        named::Expr::Bin {
            op,
            left,
            right,
            ..
        } => Expr::Bin {
            op: *op,
            left: resolve_boxed(alloc, names, left)?,
            right: resolve_boxed(alloc, names, right)?,
        },
        named::Expr::Cond { test, yes, no, .. } => Expr::Cond {
            test: resolve_boxed(alloc, names, test)?,
            yes: resolve_boxed(alloc, names, yes)?,
            no: resolve_boxed(alloc, names, no)?,
        },
        named::Expr::Cast { ty, of, .. } => Expr::Cast {
            ty: *ty,
            of: resolve_boxed(alloc, names, of)?,
        },
    })
}

#[cycle(exprs)]
fn resolve_boxed(
    alloc: Global,
    names: &Names,
    e: &Boxed<named::Expr>,
) -> Result<Boxed<Expr>, Unresolved>
    ensures { IfOk result (λ r. numbered_expr r ≡ renamed_expr (numbering names.now) (bare_expr e.now)) }
{
    Ok(Boxed::new(alloc, resolve_expr(alloc, names, e.get())?)?)
}

#[cycle(exprs)]
fn resolve_exprs(alloc: Global, names: &Names, es: &[named::Expr]) -> Result<ExprList, Unresolved>
    ensures { IfOk result (λ rs. numbered_exprs rs ≡ renamed_exprs (numbering names.now) (bare_exprs es.now)) }
{
    let mut resolved = ExprList::new(alloc);
    'each: for e in es {
        let e = resolve_expr(alloc, names, e)?;
        if resolved.push(e).is_err() {
            return Err(Unresolved);
        }
    }
    Ok(resolved)
}

fn resolve_option(
    alloc: Global,
    names: &Names,
    e: &Option<named::Expr>,
) -> Result<Option<Expr>, Unresolved>
    ensures { IfOk result (λ r. option_map numbered_expr r ≡ option_map (renamed_expr (numbering names.now)) (option_map bare_expr e.now)) }
{
    Ok(match e {
        None => None,
        Some(e) => Some(resolve_expr(alloc, names, e)?),
    })
}

fn resolve_target(
    alloc: Global,
    names: &Names,
    target: &named::Target,
) -> Result<Target, Unresolved>
    ensures { IfOk result (λ r. numbered_target r ≡ renamed_target (numbering names.now) (bare_target target.now)) }
{
    Ok(Target {
        name: number(names, &target.name)?,
        subs: resolve_exprs(alloc, names, target.subs.as_slice())?,
    })
}

#[cycle(stmts)]
fn resolve_stmt(alloc: Global, names: &Names, stmt: &named::Stmt) -> Result<Stmt, Unresolved>
    ensures { IfOk result (λ r. numbered_stmt r ≡ renamed_stmt (numbering names.now) (bare_stmt stmt.now)) }
{
    Ok(match stmt {
        named::Stmt::Decl { ty, name, init, .. } => Stmt::Decl {
            ty: *ty,
            name: number(names, name)?,
            init: resolve_option(alloc, names, init)?,
        },
        named::Stmt::Set {
            target,
            op,
            value,
            ..
        } => Stmt::Set {
            target: resolve_target(alloc, names, target)?,
            op: *op,
            value: resolve_expr(alloc, names, value)?,
        },
        named::Stmt::Step { target, up, .. } => Stmt::Step {
            target: resolve_target(alloc, names, target)?,
            up: *up,
        },
        named::Stmt::Print { value, .. } => Stmt::Print {
            value: resolve_expr(alloc, names, value)?,
        },
        named::Stmt::Input { target, .. } => Stmt::Input {
            target: resolve_target(alloc, names, target)?,
        },
        named::Stmt::If { test, yes, no, .. } => Stmt::If {
            test: resolve_expr(alloc, names, test)?,
            yes: resolve_stmts(alloc, names, yes.as_slice())?,
            no: match no {
                None => None,
                Some(no) => Some(resolve_stmts(alloc, names, no.as_slice())?),
            },
        },
        named::Stmt::While { test, body, .. } => Stmt::While {
            test: resolve_expr(alloc, names, test)?,
            body: resolve_stmts(alloc, names, body.as_slice())?,
        },
        named::Stmt::Do { body, test, .. } => Stmt::Do {
            body: resolve_stmts(alloc, names, body.as_slice())?,
            test: resolve_expr(alloc, names, test)?,
        },
        named::Stmt::For { head, body, .. } => Stmt::For {
            head: resolve_head(alloc, names, head)?,
            body: resolve_stmts(alloc, names, body.as_slice())?,
        },
        named::Stmt::Block { body, .. } => Stmt::Block {
            body: resolve_stmts(alloc, names, body.as_slice())?,
        },
        named::Stmt::Break { .. } => Stmt::Break,
        named::Stmt::Continue { .. } => Stmt::Continue,
        named::Stmt::Empty { .. } => Stmt::Empty,
        named::Stmt::Omp { .. } => return Err(Unresolved),
        named::Stmt::Call { name, args, .. } => Stmt::Call {
            name: number(names, name)?,
            args: resolve_exprs(alloc, names, args.as_slice())?,
        },
    })
}

#[cycle(stmts)]
fn resolve_stmts(
    alloc: Global,
    names: &Names,
    stmts: &[named::Stmt],
) -> Result<StmtList, Unresolved>
    ensures { IfOk result (λ rs. numbered_stmts rs ≡ renamed_stmts (numbering names.now) (bare_stmts stmts.now)) }
{
    let mut resolved = StmtList::new(alloc);
    'each: for stmt in stmts {
        let stmt = resolve_stmt(alloc, names, stmt)?;
        if resolved.push(stmt).is_err() {
            return Err(Unresolved);
        }
    }
    Ok(resolved)
}

#[cycle(stmts)]
fn resolve_part(
    alloc: Global,
    names: &Names,
    part: &Option<Boxed<named::Stmt>>,
) -> Result<Option<Boxed<Stmt>>, Unresolved>
    ensures { IfOk result (λ r. maybe_stmt (option_map numbered_stmt r) ≡ renamed_part (numbering names.now) (maybe_stmt (option_map bare_stmt part.now))) }
{
    Ok(match part {
        None => None,
        Some(stmt) => Some(Boxed::new(alloc, resolve_stmt(alloc, names, stmt.get())?)?),
    })
}

#[cycle(stmts)]
fn resolve_head(alloc: Global, names: &Names, head: &named::ForHead) -> Result<ForHead, Unresolved>
    ensures { IfOk result (λ r. numbered_head r ≡ renamed_head (numbering names.now) (bare_head head.now)) }
{
    Ok(ForHead {
        init: resolve_part(alloc, names, &head.init)?,
        test: resolve_option(alloc, names, &head.test)?,
        step: resolve_part(alloc, names, &head.step)?,
    })
}

fn resolve_params(
    alloc: Global,
    names: &Names,
    params: &[named::Param],
) -> Result<ParamList, Unresolved>
    ensures { IfOk result (λ rs. map numbered_param rs ≡ map (renamed_param (numbering names.now)) (map bare_param params.now)) }
{
    let mut resolved = ParamList::new(alloc);
    'each: for param in params {
        let name = number(names, &param.name)?;
        let param = Param { ty: param.ty, name };
        if resolved.push(param).is_err() {
            return Err(Unresolved);
        }
    }
    Ok(resolved)
}

fn resolve_item(alloc: Global, names: &Names, item: &named::Item) -> Result<Item, Unresolved>
    ensures { IfOk result (λ r. numbered_top r ≡ renamed_top (numbering names.now) (bare_top item.now)) }
{
    Ok(match item {
        named::Item::Define {
            name,
            negative,
            value,
            ty,
            ..
        } => Item::Define {
            name: number(names, name)?,
            negative: *negative,
            value: *value,
            ty: *ty,
        },
        named::Item::Extern { port, .. } => Item::Extern { port: *port },
        named::Item::Global {
            ty,
            name,
            dims,
            init,
            ..
        } => Item::Global {
            ty: *ty,
            name: number(names, name)?,
            dims: resolve_exprs(alloc, names, dims.as_slice())?,
            init: resolve_option(alloc, names, init)?,
        },
        named::Item::Function {
            name,
            params,
            body,
            ..
        } => Item::Function {
            name: number(names, name)?,
            params: resolve_params(alloc, names, params.as_slice())?,
            body: resolve_stmts(alloc, names, body.as_slice())?,
        },
        named::Item::Main { body, .. } => Item::Main {
            body: resolve_stmts(alloc, names, body.as_slice())?,
        },
    })
}

fn resolve_items(
    alloc: Global,
    names: &Names,
    items: &[named::Item],
) -> Result<ItemList, Unresolved>
    ensures { IfOk result (λ rs. numbered_tops rs ≡ renamed_program (numbering names.now) (map bare_top items.now)) }
{
    let mut resolved = ItemList::new(alloc);
    'each: for item in items {
        let item = resolve_item(alloc, names, item)?;
        if resolved.push(item).is_err() {
            return Err(Unresolved);
        }
    }
    Ok(resolved)
}

/// The program with a number for each name: different names have different numbers, and nothing else is changed.

pub fn resolve(alloc: Global, items: &[named::Item]) -> Result<ItemList, Unresolved>
    ensures { IfOk result (λ rs. Resolved (map bare_top items.now) (numbered_tops rs)) }
{
    let mut names = Names::new(alloc);
    if names.note_items(items).is_err() {
        return Err(Unresolved);
    }
    resolve_items(alloc, &names, items)
}
