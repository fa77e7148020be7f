//! Constant expressions (C11 6.6), whose names are those of defines.

ghost use Rattle.std.specs.Prelude.{◌≡◌, map, if◌then◌else◌, true, false, IfSome, IfNone};
ghost use Rattle.c_tree.specs.BareOf.{bare_expr, bare_top, bare_program};
ghost use Rattle.c_tree.specs.Arithmetic as meaning;
ghost use Rattle.c_tree.specs.Constants as constants;
ghost use Rattle.c_tree.specs.Constants.{LiteralsAreHeld, DefinesAreHeld};

use crate::arithmetic::{Trap, apply_bin, apply_un, bin_type, common, convert, settled, un_type};
use crate::name::Name;
use crate::tree::{BinOp, Expr, Item, Program, Ty, UnOp};

/// A number of a type.
#[derive(Clone, Copy, Debug, PartialEq, Eq)]
pub struct TypedValue {
    pub ty: Ty,
    pub value: i64,
}

/// What an expression of literals and defines gives: its type, and its value or why it has none.
#[derive(Clone, Copy)]
struct Evaluated {
    ty: Ty,
    value: Result<i64, Trap>,
}

/// What knows defines.
pub trait Defines {
    ghost use Rattle.std.specs.Prelude.{Option};
    ghost use Rattle.c_tree.specs.Bare.{Name as BareName};
    ghost use Rattle.c_tree.specs.declared.constant.TypedValue.{TypedValue as Constant};

    /// The constant that a name stands for, where it is a define.
    ghost constants: { Self → BareName → Option Constant };

    /// Whether each define has a value that its type holds.
    ghost are_held: { Self → Type 0 };

    /// The constant that a name stands for, and `None` exactly where it is no define.
    fn constant_named(&self, name: &Name) -> Option<TypedValue>
        requires { are_held self.now }
        ensures { result ≡ constants self.now name.now };
}

/// The type and the value of an expression of literals and defines, and `None` exactly where it has other parts.
fn evaluate<D: Defines>(defines: &D, e: &Expr) -> Option<Evaluated>
    requires defines_held { D.are_held defines.now }
    requires literals_held { LiteralsAreHeld (bare_expr e.now) }
    ensures constants { IfSome result (λ _. constants.only_constants (D.constants defines.now) (bare_expr e.now) ≡ true) }
    ensures ty { IfSome result (λ v. v.ty ≡ constants.constant_type (D.constants defines.now) (bare_expr e.now)) }
    ensures value { IfSome result (λ v. v.value ≡ constants.constant_value (D.constants defines.now) (bare_expr e.now)) }
    ensures others { IfNone result (constants.only_constants (D.constants defines.now) (bare_expr e.now) ≡ false) }
{
    match e {
        Expr::Num { value, ty, .. } => Some(Evaluated {
            ty: *ty,
            value: Ok(*value as i64),
        }),
        Expr::Read { name, .. } => {
            let constant = defines.constant_named(name)?;
            Some(Evaluated {
                ty: constant.ty,
                value: Ok(constant.value),
            })
        }
        Expr::Item { .. } => None,
        Expr::Un { op, of, .. } => {
            let of = evaluate(defines, of.get())?;
            Some(unary(*op, of))
        }
        Expr::Bin {
            op,
            left,
            right,
            ..
        } => {
            let left = evaluate(defines, left.get())?;
            let right = evaluate(defines, right.get())?;
            Some(binary(*op, left, right))
        }
        Expr::Cond { test, yes, no, .. } => {
            let test = evaluate(defines, test.get())?;
            let yes = evaluate(defines, yes.get())?;
            let no = evaluate(defines, no.get())?;
            Some(conditional(test, yes, no))
        }
        Expr::Cast { ty, of, .. } => {
            let of = evaluate(defines, of.get())?;
            Some(converted(*ty, of))
        }
    }
}

fn unary(op: UnOp, of: Evaluated) -> Evaluated
    ensures ty { result.ty ≡ meaning.un_type op of.ty }
    ensures value { result.value ≡ meaning.and_then of.value (meaning.apply_un op of.ty) }
{
    Evaluated {
        ty: un_type(op, of.ty),
        value: match of.value {
            Ok(value) => apply_un(op, of.ty, value),
            Err(trap) => Err(trap),
        },
    }
}

/// `&&` and `||` take their right operand only where the left one doesn't settle them.
fn binary(op: BinOp, left: Evaluated, right: Evaluated) -> Evaluated
    ensures ty { result.ty ≡ meaning.bin_type op left.ty right.ty }
    ensures value { result.value ≡ meaning.and_then left.value (λ x. meaning.unless_settled (meaning.settles op x) right.value (meaning.apply_bin op (meaning.common left.ty right.ty) x)) }
{
    Evaluated {
        ty: bin_type(op, left.ty, right.ty),
        value: binary_value(op, left, right),
    }
}

fn binary_value(op: BinOp, left: Evaluated, right: Evaluated) -> Result<i64, Trap>
    ensures { result ≡ meaning.and_then left.value (λ x. meaning.unless_settled (meaning.settles op x) right.value (meaning.apply_bin op (meaning.common left.ty right.ty) x)) }
{
    let x = left.value?;
    if let Some(value) = settled(op, x) {
        return Ok(value);
    }
    let y = right.value?;
    apply_bin(op, common(left.ty, right.ty), x, y)
}

fn conditional(test: Evaluated, yes: Evaluated, no: Evaluated) -> Evaluated
    ensures ty { result.ty ≡ meaning.common yes.ty no.ty }
    ensures value { result.value ≡ meaning.and_then test.value (λ x. if meaning.is_zero x then no.value else yes.value) }
{
    Evaluated {
        ty: common(yes.ty, no.ty),
        value: match test.value {
            Ok(0) => no.value,
            Ok(_) => yes.value,
            Err(trap) => Err(trap),
        },
    }
}

fn converted(ty: Ty, of: Evaluated) -> Evaluated
    ensures ty { result.ty ≡ ty }
    ensures value { result.value ≡ meaning.and_then of.value (meaning.convert ty) }
{
    Evaluated {
        ty,
        value: match of.value {
            Ok(value) => convert(ty, value),
            Err(trap) => Err(trap),
        },
    }
}

/// The value of a constant expression over what knows the defines, and `None` exactly where it isn't one: it has other
/// parts than literals and defines, or its evaluation traps.
pub fn constant_over<D: Defines>(defines: &D, e: &Expr) -> Option<i64>
    requires defines_held { D.are_held defines.now }
    requires literals_held { LiteralsAreHeld (bare_expr e.now) }
    ensures { result ≡ constants.constant (D.constants defines.now) (bare_expr e.now) }
{
    evaluate(defines, e)?.value.ok()
}

/// The constant that a define stands for.
pub fn defined_as(negative: bool, value: u64, ty: Ty) -> TypedValue
    requires { constants.IsHeld ty value }
    ensures { result ≡ constants.defined_as negative value ty }
{
    let value = value as i64;
    TypedValue {
        ty,
        value: if negative { -value } else { value },
    }
}

impl Defines for Program {
    ghost use Rattle.c_tree.specs.BareOf.{bare_program};
    ghost use Rattle.c_tree.specs.Constants.{define_named, DefinesAreHeld};

    ghost constants = { λ program. define_named (bare_program program) };

    ghost are_held = { λ program. DefinesAreHeld (bare_program program) };

    fn constant_named(&self, name: &Name) -> Option<TypedValue> {
        define_among(self.items.as_slice(), name)
    }
}

/// What the first define of a name among the items stands for.
#[tactic(auto, using(crate::proofs::Defines::defines))]
fn define_among(items: &[Item], name: &Name) -> Option<TypedValue>
    requires { DefinesAreHeld (map bare_top items.now) }
    ensures { result ≡ constants.define_named (map bare_top items.now) name.now }
{
    'each: for item in items {
        if let Item::Define {
            name: defined,
            negative,
            value,
            ty,
            ..
        } = item
        {
            if name == defined {
                return Some(defined_as(*negative, *value, *ty));
            }
        }
    }
    None
}

/// The value of a constant expression in a program, and `None` exactly where it isn't one (C11 6.6): it has other parts
/// than literals and defines of the program, or its evaluation traps. Of a name that is defined twice the first define
/// counts. Each literal of the expression and each define has a value that its type holds. It takes no memory.
pub fn constant(program: &Program, e: &Expr) -> Option<i64>
    requires defines_held { DefinesAreHeld (bare_program program.now) }
    requires literals_held { LiteralsAreHeld (bare_expr e.now) }
    ensures { result ≡ constants.constant (constants.define_named (bare_program program.now)) (bare_expr e.now) }
{
    constant_over(program, e)
}
