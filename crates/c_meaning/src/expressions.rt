//! The types and the values of expressions (C11 6.5).

ghost use Rattle.std.specs.Prelude.{◌≡◌, ℕ, map, IfOk, slice_get};
ghost use Rattle.resolved_names.specs.Numbered.{number_name, numbered_top, numbered_expr, numbered_exprs};
ghost use Rattle.c_tree.specs.Arithmetic as numbers;
ghost use Rattle.c_meaning.specs.Held.{HeldExpr, HeldExprs};
ghost use Rattle.c_meaning.specs.Runnable.{RunnableTops};
ghost use Rattle.c_semantics.specs.Meaning.State.{look};
ghost use Rattle.c_semantics.specs.Meaning.Expressions as meaning;
ghost use Rattle.c_meaning.specs.Scopes.{env_of};
ghost use Rattle.c_meaning.specs.Values.{value_in};
ghost use Rattle.c_meaning.specs.Variables.{FitFrom};

use crate::defines::define_named;
use crate::machine::Machine;
use crate::scope::Scope;
use c_tree::arithmetic::{Trap, apply_bin, apply_un, bin_type, common, convert, settled, un_type};
use c_tree::constant::TypedValue;
use c_tree::tree::{BinOp, Ty, UnOp};
use resolved_names::tree::Expr;

/// The type of a name: that of the visible variable, else that of the define.
#[tactic(auto, using(crate::proofs::Scopes::constants))]
pub fn name_type(scope: &Scope, m: &Machine, name: usize) -> Ty
    requires known { RunnableTops (map numbered_top scope.now.items.now) }
    ensures { result ≡ meaning.name_type (look m.now (number_name name)) (env_of scope.now).defines (number_name name) }
{
    match m.look(name) {
        Some(variable) => variable.ty(),
        None => match define_named(scope, name) {
            Some(constant) => constant.ty,
            None => Ty::Int,
        },
    }
}

/// The type of an expression, which no value changes.
pub fn type_of(scope: &Scope, m: &Machine, e: &Expr) -> Ty
    requires known { RunnableTops (map numbered_top scope.now.items.now) }
    ensures { result ≡ meaning.type_of (env_of scope.now).defines m.now (numbered_expr e.now) }
{
    match e {
        Expr::Num { ty, .. } | Expr::Cast { ty, .. } => *ty,
        Expr::Read { name, .. } | Expr::Item { name, .. } => name_type(scope, m, *name),
        Expr::Un { op, of, .. } => un_type(*op, type_of(scope, m, of.get())),
        Expr::Bin {
            op,
            left,
            right,
            ..
        } => bin_type(
            *op,
            type_of(scope, m, left.get()),
            type_of(scope, m, right.get()),
        ),
        Expr::Cond { yes, no, .. } => common(
            type_of(scope, m, yes.get()),
            type_of(scope, m, no.get()),
        ),
    }
}

/// The value of a name without subscripts: that of the visible variable, else that of the define.
#[tactic(auto, using(crate::proofs::Scopes::constants))]
fn read(scope: &Scope, m: &Machine, name: usize) -> Result<TypedValue, Trap>
    requires known { RunnableTops (map numbered_top scope.now.items.now) }
    ensures value { value_in result ≡ meaning.scalar_value (look m.now (number_name name)) (env_of scope.now).defines (number_name name) }
    ensures ty { IfOk result (λ v. v.ty ≡ meaning.name_type (look m.now (number_name name)) (env_of scope.now).defines (number_name name)) }
{
    match m.look(name) {
        Some(variable) => match variable.number() {
            Some(value) => Ok(TypedValue {
                ty: variable.ty(),
                value,
            }),
            None => Err(Trap::Unset),
        },
        None => define_named(scope, name).ok_or(Trap::Unset),
    }
}

fn unary(op: UnOp, of: TypedValue) -> Result<TypedValue, Trap>
    ensures value { value_in result ≡ numbers.apply_un op of.ty of.value }
    ensures ty { IfOk result (λ v. v.ty ≡ numbers.un_type op of.ty) }
{
    let value = apply_un(op, of.ty, of.value)?;
    Ok(TypedValue {
        ty: un_type(op, of.ty),
        value,
    })
}

fn binary(op: BinOp, left: TypedValue, right: TypedValue) -> Result<TypedValue, Trap>
    ensures value { value_in result ≡ numbers.apply_bin op (numbers.common left.ty right.ty) left.value right.value }
    ensures ty { IfOk result (λ v. v.ty ≡ numbers.bin_type op left.ty right.ty) }
{
    let value = apply_bin(op, common(left.ty, right.ty), left.value, right.value)?;
    Ok(TypedValue {
        ty: bin_type(op, left.ty, right.ty),
        value,
    })
}

/// A subscript within its dimension: `Index` exactly where it is outside (C11 6.5.2.1).
fn in_dim(dim: u64, subscript: i64) -> Result<u64, Trap>
    ensures { result ≡ meaning.in_dim dim subscript }
{
    if subscript < 0 {
        return Err(Trap::Index);
    }
    let index = subscript as u64;
    if index < dim {
        Ok(index)
    } else {
        Err(Trap::Index)
    }
}

/// The value of an expression, with its type.
#[tactic(auto, using(crate::proofs::Values::values))]
#[cycle(eval)]
pub fn eval(scope: &Scope, m: &Machine, e: &Expr) -> Result<TypedValue, Trap>
    requires known { RunnableTops (map numbered_top scope.now.items.now) }
    requires well_formed { HeldExpr (numbered_expr e.now) }
    ensures value { value_in result ≡ meaning.eval (env_of scope.now).defines m.now (numbered_expr e.now) }
    ensures ty { IfOk result (λ v. v.ty ≡ meaning.type_of (env_of scope.now).defines m.now (numbered_expr e.now)) }
{
    match e {
        Expr::Num { value, ty, .. } => Ok(TypedValue {
            ty: *ty,
            value: *value as i64,
        }),
        Expr::Read { name, .. } => read(scope, m, *name),
        Expr::Item { name, subs, .. } => element(scope, m, *name, subs.as_slice()),
        Expr::Un { op, of, .. } => unary(*op, eval(scope, m, of.get())?),
        Expr::Bin {
            op,
            left,
            right,
            ..
        } => {
            let left = eval(scope, m, left.get())?;
            if let Some(value) = settled(*op, left.value) {
                return Ok(TypedValue { ty: Ty::Int, value });
            }
            binary(*op, left, eval(scope, m, right.get())?)
        }
        Expr::Cond { test, yes, no, .. } => {
            let test = eval(scope, m, test.get())?;
            if test.value == 0 {
                chosen(scope, m, no.get(), yes.get())
            } else {
                chosen(scope, m, yes.get(), no.get())
            }
        }
        Expr::Cast { ty, of, .. } => Ok(TypedValue {
            ty: *ty,
            value: convert(*ty, eval(scope, m, of.get())?.value)?,
        }),
    }
}

/// The value of one side of a conditional, with the common type of both (C11 6.5.15). Only the other side's type is sought.
#[tactic(auto, using(crate::proofs::Values::values))]
#[cycle(eval)]
fn chosen(scope: &Scope, m: &Machine, e: &Expr, other: &Expr) -> Result<TypedValue, Trap>
    requires known { RunnableTops (map numbered_top scope.now.items.now) }
    requires well_formed { HeldExpr (numbered_expr e.now) }
    ensures value { value_in result ≡ meaning.eval (env_of scope.now).defines m.now (numbered_expr e.now) }
    ensures ty { IfOk result (λ v. v.ty ≡ numbers.common (meaning.type_of (env_of scope.now).defines m.now (numbered_expr e.now)) (meaning.type_of (env_of scope.now).defines m.now (numbered_expr other.now))) }
{
    let chosen = eval(scope, m, e)?;
    Ok(TypedValue {
        ty: common(chosen.ty, type_of(scope, m, other)),
        value: chosen.value,
    })
}

/// The value of an array's element.
#[tactic(auto, using(crate::proofs::Values::values))]
#[cycle(eval)]
fn element(scope: &Scope, m: &Machine, name: usize, subs: &[Expr]) -> Result<TypedValue, Trap>
    requires known { RunnableTops (map numbered_top scope.now.items.now) }
    requires well_formed { HeldExprs (numbered_exprs subs.now) }
    ensures value { value_in result ≡ numbers.and_then (meaning.place (env_of scope.now).defines m.now (meaning.dims_of (look m.now (number_name name))) 0 (numbered_exprs subs.now)) (λ k. meaning.or_unset (slice_get (meaning.elements_of (look m.now (number_name name))) k)) }
    ensures ty { IfOk result (λ v. v.ty ≡ meaning.name_type (look m.now (number_name name)) (env_of scope.now).defines (number_name name)) }
{
    match m.look(name) {
        Some(variable) => {
            let at = place(scope, m, variable.dims(), subs)?;
            match variable.element(at) {
                Some(value) => Ok(TypedValue {
                    ty: variable.ty(),
                    value,
                }),
                None => Err(Trap::Unset),
            }
        }
        None => {
            place(scope, m, &[], subs)?;
            Err(Trap::Unset)
        }
    }
}

/// The place of an element, row by row. Each subscript is tested directly after its evaluation.
#[tactic(auto, using(crate::proofs::Values::values))]
#[cycle(eval)]
pub fn place(scope: &Scope, m: &Machine, dims: &[u64], subs: &[Expr]) -> Result<u64, Trap>
    requires known { RunnableTops (map numbered_top scope.now.items.now) }
    requires well_formed { HeldExprs (numbered_exprs subs.now) }
    requires fit { FitFrom 1 dims.now }
    ensures { result ≡ meaning.place (env_of scope.now).defines m.now dims.now 0 (numbered_exprs subs.now) }
{
    let mut at = 0;
    'each: for (index, sub) in subs.iter().enumerate() {
        if index >= dims.len() {
            return Err(Trap::Index);
        }
        let dim = dims[index];
        let subscript = eval(scope, m, sub)?;
        at = at * dim + in_dim(dim, subscript.value)?;
    }
    Ok(at)
}
