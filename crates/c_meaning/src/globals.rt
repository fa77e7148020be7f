//! File-scope variables at the start of a run (C11 6.7.9): 0, or a constant initial value; each element of an array 0.

ghost use Rattle.std.specs.Prelude.{◌≡◌, map, unwrap_or, pos, IfOk, IfSome, IfNone, OnOk};
ghost use Rattle.std.specs.Option.{option_map};
ghost use Rattle.c_tree.specs.Bare.{expr_list};
ghost use Rattle.resolved_names.specs.Numbered.{numbered_top, numbered_expr, numbered_exprs};
ghost use Rattle.c_meaning.specs.Held.{HeldExpr, HeldExprs, HeldOption};
ghost use Rattle.c_semantics.specs.Loops.Directives.{number};
ghost use Rattle.c_semantics.specs.Meaning.Expressions as values;
ghost use Rattle.c_semantics.specs.Meaning.Programs as programs;
ghost use Rattle.c_semantics.specs.Meaning.State.{with_globals};
ghost use Rattle.c_meaning.specs.Globals.{number_or_0, zeros};
ghost use Rattle.c_meaning.specs.Runnable.{RunnableTop, RunnableTops};
ghost use Rattle.c_meaning.specs.Scopes.{env_of};
ghost use Rattle.c_meaning.specs.Variables.{cell_of, FitFrom, IsCell};

use crate::defines::define_named;
use crate::expressions::eval;
use crate::machine::Machine;
use crate::scope::Scope;
use crate::variable::Cell;
use c_tree::tree::Ty;
use resolved_names::tree::{Expr, ExprList, Item};
use std::alloc::{AllocError, Global};

/// Whether an expression has only literals and defines.
#[tactic(auto, using(crate::proofs::Scopes::constants))]
fn only_constants(scope: &Scope, e: &Expr) -> bool
    requires known { RunnableTops (map numbered_top scope.now.items.now) }
    ensures { result ≡ values.only_constants (env_of scope.now).defines (numbered_expr e.now) }
{
    match e {
        Expr::Num { .. } => true,
        Expr::Read { name, .. } => define_named(scope, *name).is_some(),
        Expr::Item { .. } => false,
        Expr::Un { of, .. } | Expr::Cast { of, .. } => only_constants(scope, of.get()),
        Expr::Bin { left, right, .. } => {
            only_constants(scope, left.get()) && only_constants(scope, right.get())
        }
        Expr::Cond { test, yes, no, .. } => {
            only_constants(scope, test.get())
                && only_constants(scope, yes.get())
                && only_constants(scope, no.get())
        }
    }
}

/// The value of a constant expression (C11 6.6), and `None` exactly where an expression isn't one.
fn constant(alloc: Global, scope: &Scope, e: &Expr) -> Option<i64>
    requires known { RunnableTops (map numbered_top scope.now.items.now) }
    requires well_formed { HeldExpr (numbered_expr e.now) }
    ensures { result ≡ values.constant (env_of scope.now).defines (numbered_expr e.now) }
{
    if !only_constants(scope, e) {
        return None;
    }
    match eval(scope, &Machine::new(alloc, &[]), e) {
        Ok(constant) => Some(constant.value),
        Err(_) => None,
    }
}

/// A scalar's initial value.
fn initial_number(alloc: Global, scope: &Scope, init: &Option<Expr>) -> i64
    requires known { RunnableTops (map numbered_top scope.now.items.now) }
    requires well_formed { HeldOption (option_map numbered_expr init.now) }
    ensures { result ≡ number_or_0 (env_of scope.now).defines (option_map numbered_expr init.now) }
{
    match init {
        None => 0,
        Some(e) => constant(alloc, scope, e).unwrap_or(0),
    }
}

/// The dimensions of an array.
#[tactic(auto, using(crate::proofs::Values::values))]
fn dimensions(alloc: Global, scope: &Scope, dims: &[Expr]) -> Result<Vec<u64>, AllocError>
    requires known { RunnableTops (map numbered_top scope.now.items.now) }
    requires well_formed { HeldExprs (numbered_exprs dims.now) }
    ensures { IfOk result (λ numbers. numbers.items ≡ map (λ e. number (env_of scope.now).defines (numbered_expr e)) dims.now) }
{
    let mut numbers = Vec::new(alloc);
    'each: for dim in dims {
        let number = constant(alloc, scope, dim).unwrap_or(0).unsigned_abs();
        numbers.push(number)?;
    }
    Ok(numbers)
}

/// How many elements an array of these dimensions has, where each product of the first dimensions is below 2^63, and
/// `None` exactly where one isn't.
#[tactic(auto, using(crate::proofs::Products::products))]
fn element_count(dims: &[u64]) -> Option<u64>
    ensures count { IfSome result (λ count. count ≡ programs.product dims.now) }
    ensures fit { IfSome result (λ _. FitFrom 1 dims.now) }
    ensures none { IfNone result (FitFrom 1 dims.now → ⊥) }
{
    let mut count: u64 = 1;
    'each: for dim in dims {
        count = count.checked_mul(*dim)?;
        if count > i64::MAX as u64 {
            return None;
        }
    }
    Some(count)
}

/// An array at the start. No memory has room for one whose elements 63 bits can't count.
fn array(alloc: Global, scope: &Scope, ty: Ty, dims: &ExprList) -> Result<Cell, AllocError>
    requires known { RunnableTops (map numbered_top scope.now.items.now) }
    requires well_formed { HeldExprs (numbered_exprs dims.now) }
    ensures cell { IfOk result (λ cell. cell_of cell ≡ zeros ty (map (λ e. number (env_of scope.now).defines (numbered_expr e)) dims.now)) }
    ensures is_cell { IfOk result (λ cell. IsCell cell) }
{
    let dims = dimensions(alloc, scope, dims.as_slice())?;
    match element_count(dims.as_slice()) {
        Some(count) => {
            let elements = vec![in alloc; 0; count as usize]?;
            Ok(Cell::Array { ty, dims, elements })
        }
        None => Err(AllocError),
    }
}

/// What a file-scope variable holds at the start.
fn initial(
    alloc: Global,
    scope: &Scope,
    ty: Ty,
    dims: &ExprList,
    init: &Option<Expr>,
) -> Result<Cell, AllocError>
    requires known { RunnableTops (map numbered_top scope.now.items.now) }
    requires well_formed { HeldExprs (numbered_exprs dims.now) }
    requires init { HeldOption (option_map numbered_expr init.now) }
    ensures cell { IfOk result (λ cell. cell_of cell ≡ programs.initial (env_of scope.now).defines ty (expr_list (numbered_exprs dims.now)) (option_map numbered_expr init.now)) }
    ensures is_cell { IfOk result (λ cell. IsCell cell) }
{
    if dims.is_empty() {
        return Ok(Cell::Scalar {
            ty,
            value: Some(initial_number(alloc, scope, init)),
        });
    }
    array(alloc, scope, ty, dims)
}

/// The file-scope variable of an item becomes one of the machine, where the item declares one.
pub fn begin(scope: &Scope, m: &mut Machine, item: &Item) -> Result<(), AllocError>
    requires known { RunnableTops (map numbered_top scope.now.items.now) }
    requires runnable { RunnableTop (numbered_top item.now) }
    ensures { OnOk result (m.new ≡ with_globals (programs.globals_with (env_of scope.now).defines m.old.globals (numbered_top item.now)) m.old) }
{
    match item {
        Item::Global {
            ty,
            name,
            dims,
            init,
            ..
        } => {
            let cell = initial(m.alloc(), scope, *ty, dims, init)?;
            m.add_global(*name, cell)
        }
        _ => Ok(()),
    }
}
