//! The names of a program that a fresh name could be equal to.

ghost use Rattle.std.specs.Prelude.{◌≡◌, ◌++◌, IfOk, OnOk, map};
ghost use Rattle.std.specs.Option.{option_map};
ghost use Rattle.c_tree.specs.BareOf.{bare_expr, bare_exprs, bare_head, bare_param, bare_program, bare_stmt, bare_stmts, bare_target, bare_top, maybe_stmt};
ghost use Rattle.loop_normal.specs.SourceNames as n;
ghost use Rattle.loop_normal.specs.TakenNames as t;

use c_tree::boxed::Boxed;
use c_tree::name::Name;
use c_tree::tree::{Expr, ForHead, Item, Param, Program, Stmt, Target};
use indexmap::IndexSet;
use std::alloc::{AllocError, Global};

/// Puts a name at the end, where it begins as fresh names do.
#[tactic(auto, using(crate::proofs::Gathered::gathered))]
fn keep(alloc: Global, name: &Name, names: &mut Vec<Name>) -> Result<(), AllocError>
    ensures { OnOk result (names.new.items ≡ names.old.items ++ n.kept name.now) }
{
    if name.bytes().starts_with(b"omp_t") {
        names.push(name.copy(alloc)?)?;
    }
    Ok(())
}

#[tactic(auto, using(crate::proofs::Gathered::gathered))]
#[cycle(expr_names)]
fn expr_names(alloc: Global, e: &Expr, names: &mut Vec<Name>) -> Result<(), AllocError>
    ensures { OnOk result (names.new.items ≡ names.old.items ++ n.expr_names (bare_expr e.now)) }
{
    match e {
        Expr::Num { .. } => Ok(()),
        Expr::Read { name, .. } => keep(alloc, name, names),
        Expr::Item { name, subs, .. } => {
            keep(alloc, name, names)?;
            exprs_names(alloc, subs.as_slice(), names)
        }
        Expr::Un { of, .. } => expr_names(alloc, of.get(), names),
        Expr::Cast { of, .. } => expr_names(alloc, of.get(), names),
        Expr::Bin { left, right, .. } => {
            expr_names(alloc, left.get(), names)?;
            expr_names(alloc, right.get(), names)
        }
        Expr::Cond { test, yes, no, .. } => {
            expr_names(alloc, test.get(), names)?;
            expr_names(alloc, yes.get(), names)?;
            expr_names(alloc, no.get(), names)
        }
    }
}

#[tactic(auto, using(crate::proofs::Gathered::gathered))]
#[cycle(expr_names)]
fn exprs_names(alloc: Global, es: &[Expr], names: &mut Vec<Name>) -> Result<(), AllocError>
    ensures { OnOk result (names.new.items ≡ names.old.items ++ n.exprs_names (bare_exprs es.now)) }
{
    'each: for e in es {
        expr_names(alloc, e, names)?;
    }
    Ok(())
}

#[tactic(auto, using(crate::proofs::Gathered::gathered))]
fn option_names(alloc: Global, e: &Option<Expr>, names: &mut Vec<Name>) -> Result<(), AllocError>
    ensures { OnOk result (names.new.items ≡ names.old.items ++ n.option_names (option_map bare_expr e.now)) }
{
    match e {
        None => Ok(()),
        Some(e) => expr_names(alloc, e, names),
    }
}

/// A name and what stands between the brackets after it.
#[tactic(auto, using(crate::proofs::Gathered::gathered))]
fn use_names(
    alloc: Global,
    name: &Name,
    es: &[Expr],
    names: &mut Vec<Name>,
) -> Result<(), AllocError>
    ensures { OnOk result (names.new.items ≡ names.old.items ++ (n.kept name.now ++ n.exprs_names (bare_exprs es.now))) }
{
    keep(alloc, name, names)?;
    exprs_names(alloc, es, names)
}

fn target_names(alloc: Global, target: &Target, names: &mut Vec<Name>) -> Result<(), AllocError>
    ensures { OnOk result (names.new.items ≡ names.old.items ++ n.target_names (bare_target target.now)) }
{
    use_names(alloc, &target.name, target.subs.as_slice(), names)
}

#[tactic(auto, using(crate::proofs::Gathered::gathered))]
#[cycle(stmt_names)]
fn stmt_names(alloc: Global, stmt: &Stmt, names: &mut Vec<Name>) -> Result<(), AllocError>
    ensures { OnOk result (names.new.items ≡ names.old.items ++ n.stmt_names (bare_stmt stmt.now)) }
{
    match stmt {
        Stmt::Decl { name, init, .. } => {
            keep(alloc, name, names)?;
            option_names(alloc, init, names)
        }
        Stmt::Set { target, value, .. } => {
            target_names(alloc, target, names)?;
            expr_names(alloc, value, names)
        }
        Stmt::Step { target, .. } => target_names(alloc, target, names),
        Stmt::Input { target, .. } => target_names(alloc, target, names),
        Stmt::Print { value, .. } => expr_names(alloc, value, names),
        Stmt::If { test, yes, no, .. } => {
            tested_names(alloc, yes.as_slice(), test, names)?;
            match no {
                None => Ok(()),
                Some(no) => stmts_names(alloc, no.as_slice(), names),
            }
        }
        Stmt::While { test, body, .. } => tested_names(alloc, body.as_slice(), test, names),
        Stmt::Do { body, test, .. } => {
            stmts_names(alloc, body.as_slice(), names)?;
            expr_names(alloc, test, names)
        }
        Stmt::For { head, body, .. } => {
            head_names(alloc, head, names)?;
            stmts_names(alloc, body.as_slice(), names)
        }
        Stmt::Block { body, .. } => stmts_names(alloc, body.as_slice(), names),
        Stmt::Omp { body, .. } => stmts_names(alloc, body.as_slice(), names),
        Stmt::Break { .. } | Stmt::Continue { .. } | Stmt::Empty { .. } => Ok(()),
        Stmt::Call { name, args, .. } => use_names(alloc, name, args.as_slice(), names),
    }
}

/// A test, and then the statements under it.
#[tactic(auto, using(crate::proofs::Gathered::gathered))]
#[cycle(stmt_names)]
fn tested_names(
    alloc: Global,
    stmts: &[Stmt],
    test: &Expr,
    names: &mut Vec<Name>,
) -> Result<(), AllocError>
    ensures { OnOk result (names.new.items ≡ names.old.items ++ (n.expr_names (bare_expr test.now) ++ n.stmts_names (bare_stmts stmts.now))) }
{
    expr_names(alloc, test, names)?;
    stmts_names(alloc, stmts, names)
}

#[tactic(auto, using(crate::proofs::Gathered::gathered))]
#[cycle(stmt_names)]
fn stmts_names(alloc: Global, stmts: &[Stmt], names: &mut Vec<Name>) -> Result<(), AllocError>
    ensures { OnOk result (names.new.items ≡ names.old.items ++ n.stmts_names (bare_stmts stmts.now)) }
{
    'each: for stmt in stmts {
        stmt_names(alloc, stmt, names)?;
    }
    Ok(())
}

#[tactic(auto, using(crate::proofs::Gathered::gathered))]
#[cycle(stmt_names)]
fn part_names(
    alloc: Global,
    part: &Option<Boxed<Stmt>>,
    names: &mut Vec<Name>,
) -> Result<(), AllocError>
    ensures { OnOk result (names.new.items ≡ names.old.items ++ n.part_names (maybe_stmt (option_map bare_stmt part.now))) }
{
    match part {
        None => Ok(()),
        Some(stmt) => stmt_names(alloc, stmt.get(), names),
    }
}

#[tactic(auto, using(crate::proofs::Gathered::gathered_heads))]
#[cycle(stmt_names)]
fn head_names(alloc: Global, head: &ForHead, names: &mut Vec<Name>) -> Result<(), AllocError>
    ensures { OnOk result (names.new.items ≡ names.old.items ++ n.head_names (bare_head head.now)) }
{
    part_names(alloc, &head.init, names)?;
    option_names(alloc, &head.test, names)?;
    part_names(alloc, &head.step, names)
}

#[tactic(auto, using(crate::proofs::Gathered::gathered))]
fn params_names(alloc: Global, params: &[Param], names: &mut Vec<Name>) -> Result<(), AllocError>
    ensures { OnOk result (names.new.items ≡ names.old.items ++ n.params_names (map bare_param params.now)) }
{
    'each: for param in params {
        keep(alloc, &param.name, names)?;
    }
    Ok(())
}

#[tactic(auto, using(crate::proofs::Gathered::gathered))]
fn item_names(alloc: Global, item: &Item, names: &mut Vec<Name>) -> Result<(), AllocError>
    ensures { OnOk result (names.new.items ≡ names.old.items ++ n.top_names (bare_top item.now)) }
{
    match item {
        Item::Define { name, .. } => keep(alloc, name, names),
        Item::Extern { .. } => Ok(()),
        Item::Global {
            name,
            dims,
            init,
            ..
        } => {
            keep(alloc, name, names)?;
            exprs_names(alloc, dims.as_slice(), names)?;
            option_names(alloc, init, names)
        }
        Item::Function {
            name,
            params,
            body,
            ..
        } => {
            keep(alloc, name, names)?;
            params_names(alloc, params.as_slice(), names)?;
            stmts_names(alloc, body.as_slice(), names)
        }
        Item::Main { body, .. } => stmts_names(alloc, body.as_slice(), names),
    }
}

/// The names of a program that begin as fresh names do, in the order of the text, each as often as it stands there.
#[tactic(auto, using(crate::proofs::Gathered::gathered))]
pub(crate) fn program_names(alloc: Global, program: &Program) -> Result<Vec<Name>, AllocError>
    ensures { IfOk result (λ names. names.items ≡ n.program_names (bare_program program.now)) }
{
    let mut names = Vec::new(alloc);
    let items = program.items.as_slice();
    'each: for item in items {
        item_names(alloc, item, &mut names)?;
    }
    Ok(names)
}

/// Names in a table, each once, in their order.
#[tactic(auto, using(crate::proofs::TakenNames::table))]
pub(crate) fn in_table(alloc: Global, names: Vec<Name>) -> Result<IndexSet<Name>, AllocError>
    ensures { IfOk result (λ taken. taken.keys ≡ t.taken_names names.items) }
{
    let mut taken = IndexSet::new(alloc);
    'each: for name in names {
        taken.insert(name)?;
    }
    Ok(taken)
}
