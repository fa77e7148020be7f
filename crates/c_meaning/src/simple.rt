//! Statements without parts of their own: declarations, assignments, input and print (C11 6.7, 6.5.16).

ghost use Rattle.std.specs.Prelude.{◌≡◌, map, IfOk, IfErr, Ok, if◌then◌else◌};
ghost use Rattle.std.specs.Option.{option_copied, option_map};
ghost use Rattle.resolved_names.specs.Numbered.{number_name, numbered_top, numbered_expr, numbered_exprs, numbered_target};
ghost use Rattle.c_tree.specs.Arithmetic as numbers;
ghost use Rattle.c_meaning.specs.Held.{HeldExpr, HeldExprs, HeldOption, HeldTarget};
ghost use Rattle.c_semantics.specs.Meaning.State.{look};
ghost use Rattle.c_semantics.specs.Meaning.Expressions as values;
ghost use Rattle.c_semantics.specs.Meaning.SimpleStatements as meaning;
ghost use Rattle.c_meaning.specs.Ends.{end_of};
ghost use Rattle.c_meaning.specs.Runnable.{RunnableTops};
ghost use Rattle.c_meaning.specs.Scopes.{env_of};
ghost use Rattle.c_meaning.specs.Variables.{cell_in, FitFrom};

use crate::expressions::{eval, place};
use crate::machine::Machine;
use crate::run::{End, RunFault};
use crate::scope::Scope;
use crate::variable::{Cell, Variable};
use c_tree::arithmetic::{Trap, apply_bin, common, convert};
use c_tree::tree::{BinOp, SetOp, Ty};
use resolved_names::tree::{Expr, Target};

/// Whether a test holds: its value isn't 0.
pub fn holds(scope: &Scope, m: &Machine, e: &Expr) -> Result<bool, Trap>
    requires known { RunnableTops (map numbered_top scope.now.items.now) }
    requires well_formed { HeldExpr (numbered_expr e.now) }
    ensures { result ≡ meaning.holds_in (env_of scope.now).defines (numbered_expr e.now) m.now }
{
    Ok(eval(scope, m, e)?.value != 0)
}

/// Whether the test of a `for` head holds; a missing one does.
pub fn head_holds(scope: &Scope, m: &Machine, e: Option<&Expr>) -> Result<bool, Trap>
    requires known { RunnableTops (map numbered_top scope.now.items.now) }
    requires well_formed { HeldOption (option_map numbered_expr (option_copied e)) }
    ensures { result ≡ meaning.head_test (env_of scope.now).defines (option_map numbered_expr (option_copied e.entry)) m.now }
{
    match e {
        None => Ok(true),
        Some(e) => holds(scope, m, e),
    }
}

/// A number after its conversion to a type.
fn converted(scope: &Scope, m: &Machine, ty: Ty, e: &Expr) -> Result<i64, Trap>
    requires known { RunnableTops (map numbered_top scope.now.items.now) }
    requires well_formed { HeldExpr (numbered_expr e.now) }
    ensures { result ≡ numbers.and_then (values.eval (env_of scope.now).defines m.now (numbered_expr e.now)) (numbers.convert ty) }
{
    convert(ty, eval(scope, m, e)?.value)
}

/// The number that `print` writes.
pub fn printed(scope: &Scope, m: &Machine, e: &Expr) -> Result<i64, Trap>
    requires known { RunnableTops (map numbered_top scope.now.items.now) }
    requires well_formed { HeldExpr (numbered_expr e.now) }
    ensures { result ≡ numbers.and_then (values.eval (env_of scope.now).defines m.now (numbered_expr e.now)) (numbers.convert Ty.Long) }
{
    converted(scope, m, Ty::Long, e)
}

/// A declaration (C11 6.7.9). The only fault is want of memory.
#[tactic(auto, using(crate::proofs::Assignments::declarations))]
pub fn declare(
    scope: &Scope,
    m: &mut Machine,
    ty: Ty,
    name: usize,
    init: &Option<Expr>,
) -> Result<End, RunFault>
    requires known { RunnableTops (map numbered_top scope.now.items.now) }
    requires well_formed { HeldOption (option_map numbered_expr init.now) }
    ensures run { IfOk result (λ end. meaning.declared (env_of scope.now).defines ty (number_name name) (option_map numbered_expr init.now) m.old ≡ record { state = m.new; end = end_of end }) }
    ensures turns { IfOk result (λ _. m.new.turns ≡ m.old.turns) }
    ensures fault { IfErr result (λ fault. fault ≡ RunFault.Memory) }
{
    if m.push(name, Cell::Scalar { ty, value: None }).is_err() {
        return Err(RunFault::Memory);
    }
    match init {
        None => Ok(End::Next),
        Some(e) => match converted(scope, m, ty, e) {
            Ok(number) => {
                m.set(name, 0, number);
                Ok(End::Next)
            }
            Err(trap) => Ok(End::Trapped(trap)),
        },
    }
}

/// The type of what is assigned.
fn type_in(variable: Option<&Variable>) -> Ty
    ensures { result ≡ meaning.type_in (cell_in (option_copied variable.entry)) }
{
    match variable {
        Some(variable) => variable.ty(),
        None => Ty::Long,
    }
}

fn dims_of(variable: Option<&Variable>) -> &[u64]
    ensures dims { result.now ≡ values.dims_of (cell_in (option_copied variable.entry)) }
    ensures fit { FitFrom 1 result.now }
{
    match variable {
        Some(variable) => variable.dims(),
        None => &[],
    }
}

fn old_number(variable: Option<&Variable>, at: u64) -> Result<i64, Trap>
    ensures { result ≡ meaning.old_value (cell_in (option_copied variable.entry)) at }
{
    match variable {
        Some(variable) => variable.old_number(at).ok_or(Trap::Unset),
        None => Err(Trap::Unset),
    }
}

/// What `op=` stores: the old number is read before the expression is evaluated.
fn updated(
    scope: &Scope,
    m: &Machine,
    variable: Option<&Variable>,
    at: u64,
    op: BinOp,
    e: &Expr,
) -> Result<i64, Trap>
    requires known { RunnableTops (map numbered_top scope.now.items.now) }
    requires well_formed { HeldExpr (numbered_expr e.now) }
    ensures { result ≡ numbers.and_then (meaning.old_value (cell_in (option_copied variable.entry)) at) (λ x. numbers.and_then (values.eval (env_of scope.now).defines m.now (numbered_expr e.now)) (λ y. numbers.apply_bin op (numbers.common (meaning.type_in (cell_in (option_copied variable.entry))) (values.type_of (env_of scope.now).defines m.now (numbered_expr e.now))) x y)) }
{
    let x = old_number(variable, at)?;
    let y = eval(scope, m, e)?;
    apply_bin(op, common(type_in(variable), y.ty), x, y.value)
}

/// What an assignment stores, before its conversion.
fn new_number(
    scope: &Scope,
    m: &Machine,
    variable: Option<&Variable>,
    at: u64,
    op: SetOp,
    e: &Expr,
) -> Result<i64, Trap>
    requires known { RunnableTops (map numbered_top scope.now.items.now) }
    requires well_formed { HeldExpr (numbered_expr e.now) }
    ensures { result ≡ meaning.new_value op (cell_in (option_copied variable.entry)) at (values.type_of (env_of scope.now).defines m.now (numbered_expr e.now)) (values.eval (env_of scope.now).defines m.now (numbered_expr e.now)) }
{
    match op {
        SetOp::Plain => Ok(eval(scope, m, e)?.value),
        SetOp::Add => updated(scope, m, variable, at, BinOp::Add, e),
        SetOp::Sub => updated(scope, m, variable, at, BinOp::Sub, e),
        SetOp::Mul => updated(scope, m, variable, at, BinOp::Mul, e),
        SetOp::Div => updated(scope, m, variable, at, BinOp::Div, e),
        SetOp::Rem => updated(scope, m, variable, at, BinOp::Rem, e),
    }
}

/// A number, and the place of a variable where it goes.
#[derive(Clone, Copy)]
struct Stored {
    at: u64,
    number: i64,
}

/// What an assignment stores, and where.
fn assigned(
    scope: &Scope,
    m: &Machine,
    target: &Target,
    op: SetOp,
    e: &Expr,
) -> Result<Stored, Trap>
    requires known { RunnableTops (map numbered_top scope.now.items.now) }
    requires target { HeldTarget (numbered_target target.now) }
    requires well_formed { HeldExpr (numbered_expr e.now) }
    ensures { let c = look m.now (number_name target.now.name) in result ≡ numbers.and_then (values.place (env_of scope.now).defines m.now (values.dims_of c) 0 (numbered_exprs target.now.subs)) (λ k. numbers.and_then (numbers.and_then (meaning.new_value op c k (values.type_of (env_of scope.now).defines m.now (numbered_expr e.now)) (values.eval (env_of scope.now).defines m.now (numbered_expr e.now))) (numbers.convert (meaning.type_in c))) (λ z. Ok (record { at = k; number = z }))) }
{
    let variable = m.look(target.name);
    let at = place(scope, m, dims_of(variable), target.subs.as_slice())?;
    let number = new_number(scope, m, variable, at, op, e)?;
    Ok(Stored {
        at,
        number: convert(type_in(variable), number)?,
    })
}

/// An assignment (C11 6.5.16): the subscripts, the value, its conversion, the store.
#[tactic(auto, using(crate::proofs::Assignments::assignments))]
pub fn set_to(scope: &Scope, m: &mut Machine, target: &Target, op: SetOp, e: &Expr) -> End
    requires known { RunnableTops (map numbered_top scope.now.items.now) }
    requires target { HeldTarget (numbered_target target.now) }
    requires well_formed { HeldExpr (numbered_expr e.now) }
    ensures run { meaning.set_to (env_of scope.now).defines (numbered_target target.now) op (numbered_expr e.now) m.old ≡ record { state = m.new; end = end_of result } }
    ensures turns { m.new.turns ≡ m.old.turns }
{
    match assigned(scope, m, target, op, e) {
        Ok(stored) => {
            m.set(target.name, stored.at, stored.number);
            End::Next
        }
        Err(trap) => End::Trapped(trap),
    }
}

/// `++` where `up` holds, else `--` (C11 6.5.3.1).
pub fn step_by(scope: &Scope, m: &mut Machine, target: &Target, up: bool) -> End
    requires known { RunnableTops (map numbered_top scope.now.items.now) }
    requires target { HeldTarget (numbered_target target.now) }
    ensures run { meaning.step_by (env_of scope.now).defines (numbered_target target.now) up m.old ≡ record { state = m.new; end = end_of result } }
    ensures turns { m.new.turns ≡ m.old.turns }
{
    let one = Expr::Num {
        value: 1,
        ty: Ty::Int,
    };
    let op = if up { SetOp::Add } else { SetOp::Sub };
    set_to(scope, m, target, op, &one)
}

/// The place of a target.
fn target_place(scope: &Scope, m: &Machine, target: &Target) -> Result<u64, Trap>
    requires known { RunnableTops (map numbered_top scope.now.items.now) }
    requires target { HeldTarget (numbered_target target.now) }
    ensures { result ≡ meaning.target_place (env_of scope.now).defines m.now (look m.now (number_name target.now.name)) (numbered_exprs target.now.subs) }
{
    place(
        scope,
        m,
        dims_of(m.look(target.name)),
        target.subs.as_slice(),
    )
}

/// The type of a target.
fn target_type(m: &Machine, target: &Target) -> Ty
    ensures { result ≡ meaning.type_in (look m.now (number_name target.now.name)) }
{
    type_in(m.look(target.name))
}

/// `x = input()`: the number is taken after the subscripts, and is taken also where it doesn't fit.
#[tactic(auto, using(crate::proofs::Assignments::inputs))]
pub fn take_input(scope: &Scope, m: &mut Machine, target: &Target) -> End
    requires known { RunnableTops (map numbered_top scope.now.items.now) }
    requires target { HeldTarget (numbered_target target.now) }
    ensures run { meaning.take_input (env_of scope.now).defines (numbered_target target.now) m.old ≡ record { state = m.new; end = end_of result } }
    ensures turns { m.new.turns ≡ m.old.turns }
{
    let at = match target_place(scope, m, target) {
        Ok(at) => at,
        Err(trap) => return End::Trapped(trap),
    };
    let number = match m.take_input() {
        Ok(number) => number,
        Err(trap) => return End::Trapped(trap),
    };
    match convert(target_type(m, target), number) {
        Ok(number) => {
            m.set(target.name, at, number);
            End::Next
        }
        Err(trap) => End::Trapped(trap),
    }
}
