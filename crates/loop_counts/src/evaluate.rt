//! Expressions of literals and defines: their types, and their values or why they have none (C11 6.6).

ghost use Rattle.std.specs.Prelude.{◌≡◌, true, false, if◌then◌else◌, IfSome, IfNone};
ghost use Rattle.std.specs.Option.{option_map};
ghost use Rattle.c_tree.specs.BareOf.{bare_expr};
ghost use Rattle.c_tree.specs.Arithmetic as numbers;
ghost use Rattle.c_tree.specs.Constants.{LiteralsAreHeld};
ghost use Rattle.c_semantics.specs.Meaning.State.{scalar, look};
ghost use Rattle.c_semantics.specs.Meaning.Expressions as meaning;
ghost use Rattle.loop_counts.specs.Visible.{where_visible};

use crate::scope::Scope;
use c_tree::arithmetic::{Trap, apply_bin, apply_un, bin_type, common, convert, settled, un_type};
use c_tree::name::Name;
use c_tree::tree::{BinOp, Expr, Ty, UnOp};
use canonical_nests::clauses::Constants;

/// What an expression of literals and defines gives: its type, and its value or why it has none.
#[derive(Clone, Copy)]
pub struct Evaluated {
    pub ty: Ty,
    pub value: Result<i64, Trap>,
}

/// The type of the variable that a name means, where the variables are visible.
fn type_where(scope: &Scope, visible: bool, name: &Name) -> Option<Ty>
    ensures { option_map (λ t. scalar t None) result ≡ look (where_visible visible scope.now.state) name.now }
{
    if visible {
        scope.variable_type(name)
    } else {
        None
    }
}

/// A define; a variable of its name hides its value.
#[tactic(auto, using(crate::proofs::DefineValues::define_values))]
fn define(scope: &Scope, visible: bool, name: &Name) -> Option<Evaluated>
    ensures define { IfSome result (λ _. meaning.is_define scope.now.defines name.now ≡ true) }
    ensures ty { IfSome result (λ v. v.ty ≡ meaning.name_type (look (where_visible visible scope.now.state) name.now) scope.now.defines name.now) }
    ensures value { IfSome result (λ v. v.value ≡ meaning.scalar_value (look (where_visible visible scope.now.state) name.now) scope.now.defines name.now) }
    ensures other { IfNone result (meaning.is_define scope.now.defines name.now ≡ false) }
{
    let constant = scope.constant(name)?;
    match type_where(scope, visible, name) {
        Some(ty) => Some(Evaluated {
            ty,
            value: Err(Trap::Unset),
        }),
        None => Some(Evaluated {
            ty: constant.ty,
            value: Ok(constant.value),
        }),
    }
}

fn unary(op: UnOp, of: Evaluated) -> Evaluated
    ensures ty { result.ty ≡ numbers.un_type op of.ty }
    ensures value { result.value ≡ numbers.and_then of.value (numbers.apply_un op of.ty) }
{
    Evaluated {
        ty: un_type(op, of.ty),
        value: match of.value {
            Ok(value) => apply_un(op, of.ty, value),
            Err(trap) => Err(trap),
        },
    }
}

fn binary_value(op: BinOp, left: Evaluated, right: Evaluated) -> Result<i64, Trap>
    ensures { result ≡ numbers.and_then left.value (λ x. numbers.unless_settled (numbers.settles op x) right.value (numbers.apply_bin op (numbers.common left.ty right.ty) x)) }
{
    let x = left.value?;
    if let Some(value) = settled(op, x) {
        return Ok(value);
    }
    let y = right.value?;
    apply_bin(op, common(left.ty, right.ty), x, y)
}

/// `&&` and `||` take their right operand only where the left one doesn't settle them.
fn binary(op: BinOp, left: Evaluated, right: Evaluated) -> Evaluated
    ensures ty { result.ty ≡ numbers.bin_type op left.ty right.ty }
    ensures value { result.value ≡ numbers.and_then left.value (λ x. numbers.unless_settled (numbers.settles op x) right.value (numbers.apply_bin op (numbers.common left.ty right.ty) x)) }
{
    Evaluated {
        ty: bin_type(op, left.ty, right.ty),
        value: binary_value(op, left, right),
    }
}

fn conditional(test: Evaluated, yes: Evaluated, no: Evaluated) -> Evaluated
    ensures ty { result.ty ≡ numbers.common yes.ty no.ty }
    ensures value { result.value ≡ numbers.and_then test.value (λ x. if numbers.is_zero x then no.value else yes.value) }
{
    Evaluated {
        ty: common(yes.ty, no.ty),
        value: match test.value {
            Ok(0) => no.value,
            Ok(_) => yes.value,
            Err(trap) => Err(trap),
        },
    }
}

fn converted(ty: Ty, of: Evaluated) -> Evaluated
    ensures ty { result.ty ≡ ty }
    ensures value { result.value ≡ numbers.and_then of.value (numbers.convert ty) }
{
    Evaluated {
        ty,
        value: match of.value {
            Ok(value) => convert(ty, value),
            Err(trap) => Err(trap),
        },
    }
}

/// The type and the value of an expression of literals and defines, where the variables are visible or none is, and
/// `None` exactly where it has other parts.
pub fn evaluate(scope: &Scope, visible: bool, e: &Expr) -> Option<Evaluated>
    requires { LiteralsAreHeld (bare_expr e.now) }
    ensures constants { IfSome result (λ _. meaning.only_constants scope.now.defines (bare_expr e.now) ≡ true) }
    ensures ty { IfSome result (λ v. v.ty ≡ meaning.type_of scope.now.defines (where_visible visible scope.now.state) (bare_expr e.now)) }
    ensures value { IfSome result (λ v. v.value ≡ meaning.eval scope.now.defines (where_visible visible scope.now.state) (bare_expr e.now)) }
    ensures others { IfNone result (meaning.only_constants scope.now.defines (bare_expr e.now) ≡ false) }
{
    match e {
        Expr::Num { value, ty, .. } => Some(Evaluated {
            ty: *ty,
            value: Ok(*value as i64),
        }),
        Expr::Read { name, .. } => define(scope, visible, name),
        Expr::Item { .. } => None,
        Expr::Un { op, of, .. } => {
            let of = evaluate(scope, visible, of.get())?;
            Some(unary(*op, of))
        }
        Expr::Bin {
            op,
            left,
            right,
            ..
        } => {
            let left = evaluate(scope, visible, left.get())?;
            let right = evaluate(scope, visible, right.get())?;
            Some(binary(*op, left, right))
        }
        Expr::Cond { test, yes, no, .. } => {
            let test = evaluate(scope, visible, test.get())?;
            let yes = evaluate(scope, visible, yes.get())?;
            let no = evaluate(scope, visible, no.get())?;
            Some(conditional(test, yes, no))
        }
        Expr::Cast { ty, of, .. } => {
            let of = evaluate(scope, visible, of.get())?;
            Some(converted(*ty, of))
        }
    }
}

impl Constants for Scope {
    ghost defines = { λ scope. scope.defines };

    ghost are_held = { λ _. Unit {0} };

    fn value(&self, e: &Expr) -> Option<i64> {
        evaluate(self, false, e)?.value.ok()
    }
}

/// The type of a name: that of the variable that it means, else that of the define.
#[tactic(auto, using(crate::proofs::DefineValues::define_values))]
pub fn name_type(scope: &Scope, name: &Name) -> Ty
    ensures { result ≡ meaning.name_type (look scope.now.state name.now) scope.now.defines name.now }
{
    match scope.variable_type(name) {
        Some(ty) => ty,
        None => match scope.constant(name) {
            Some(constant) => constant.ty,
            None => Ty::Int,
        },
    }
}
