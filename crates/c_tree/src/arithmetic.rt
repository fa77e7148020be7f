//! The operators at `int` and `long long`, in 64 bits.

ghost use Rattle.std.specs.Prelude.{◌≡◌, ◌≢◌, ℤ, pos, FitsSigned};
ghost use Rattle.std.specs.Int.{w64};
ghost use Rattle.std.specs.Option.{SomeIff};
ghost use Rattle.c_tree.specs.Arithmetic as meaning;

use crate::tree::{BinOp, Ty, UnOp};

/// What ends a run where C11 has undefined behaviour or leaves a result to the implementation.
#[derive(Clone, Copy, Debug, PartialEq, Eq)]
pub enum Trap {
    /// A result is outside the range of its type (C11 6.5, paragraph 5).
    Overflow,
    /// The divisor of `/` or `%` is 0 (C11 6.5.5).
    DivideByZero,
    /// A subscript is outside its dimension (C11 6.5.2.1).
    Index,
    /// A variable is read that has no value yet (C11 6.7.9).
    Unset,
    /// A number doesn't fit the type that it is converted to (C11 6.3.1.3).
    Narrow,
    /// `input()` finds no number.
    InputEnd,
}

/// The common type of two operands (C11 6.3.1.8).
pub fn common(left: Ty, right: Ty) -> Ty
    ensures { result ≡ meaning.common left right }
{
    match left {
        Ty::Int => right,
        Ty::Long => Ty::Long,
    }
}

/// The type of a binary operator's result.
pub fn bin_type(op: BinOp, left: Ty, right: Ty) -> Ty
    ensures { result ≡ meaning.bin_type op left right }
{
    match op {
        BinOp::Mul | BinOp::Div | BinOp::Rem | BinOp::Add | BinOp::Sub => common(left, right),
        _ => Ty::Int,
    }
}

/// The type of a unary operator's result.
pub fn un_type(op: UnOp, of: Ty) -> Ty
    ensures { result ≡ meaning.un_type op of }
{
    match op {
        UnOp::Not => Ty::Int,
        _ => of,
    }
}

/// Whether the type holds the number.
pub fn holds(ty: Ty, z: i64) -> bool
    ensures { result ≡ meaning.holds ty z }
{
    match ty {
        Ty::Int => -0x8000_0000 <= z && z < 0x8000_0000,
        Ty::Long => true,
    }
}

/// The number in another type (C11 6.3.1.3): `Narrow` exactly where the type doesn't hold it.
pub fn convert(ty: Ty, z: i64) -> Result<i64, Trap>
    ensures { result ≡ meaning.convert ty z }
{
    if holds(ty, z) {
        Ok(z)
    } else {
        Err(Trap::Narrow)
    }
}

/// An exact result, where 64 bits hold it.
fn in_range(ty: Ty, exact: Option<i64>) -> Result<i64, Trap>
    ensures { (z : ℤ) → SomeIff exact (FitsSigned w64 z) z → result ≡ meaning.in_range ty z }
{
    match exact {
        Some(z) if holds(ty, z) => Ok(z),
        _ => Err(Trap::Overflow),
    }
}

fn truth(b: bool) -> i64
    ensures { result ≡ meaning.truth b }
{
    if b { 1 } else { 0 }
}

fn divided(ty: Ty, x: i64, y: i64) -> Result<i64, Trap>
    ensures { result ≡ meaning.apply_bin BinOp.Div ty x y }
{
    if y == 0 {
        return Err(Trap::DivideByZero);
    }
    in_range(ty, x.checked_div(y))
}

fn remainder(ty: Ty, x: i64, y: i64) -> Result<i64, Trap>
    ensures { result ≡ meaning.apply_bin BinOp.Rem ty x y }
{
    if y == 0 {
        return Err(Trap::DivideByZero);
    }
    in_range(ty, x.checked_div(y))?;
    x.checked_rem(y).ok_or(Trap::Overflow)
}

/// A binary operator at two operands of a common type (C11 6.5.5 to 6.5.14): `DivideByZero` and `Overflow` exactly
/// where its meaning traps.
pub fn apply_bin(op: BinOp, ty: Ty, x: i64, y: i64) -> Result<i64, Trap>
    ensures { result ≡ meaning.apply_bin op ty x y }
{
    match op {
        BinOp::Mul => in_range(ty, x.checked_mul(y)),
        BinOp::Div => divided(ty, x, y),
        BinOp::Rem => remainder(ty, x, y),
        BinOp::Add => in_range(ty, x.checked_add(y)),
        BinOp::Sub => in_range(ty, x.checked_sub(y)),
        BinOp::Lt => Ok(truth(x < y)),
        BinOp::Le => Ok(truth(x <= y)),
        BinOp::Gt => Ok(truth(x > y)),
        BinOp::Ge => Ok(truth(x >= y)),
        BinOp::Eq => Ok(truth(x == y)),
        BinOp::Ne => Ok(truth(x != y)),
        BinOp::And => Ok(truth(x != 0 && y != 0)),
        BinOp::Or => Ok(truth(x != 0 || y != 0)),
    }
}

/// A unary operator (C11 6.5.3.3): `Overflow` exactly where its meaning traps.
pub fn apply_un(op: UnOp, ty: Ty, x: i64) -> Result<i64, Trap>
    ensures { result ≡ meaning.apply_un op ty x }
{
    match op {
        UnOp::Plus => in_range(ty, Some(x)),
        UnOp::Neg => in_range(ty, x.checked_neg()),
        UnOp::Not => Ok(truth(x == 0)),
    }
}

/// The value that a left operand settles alone (C11 6.5.13, 6.5.14).
pub fn settled(op: BinOp, x: i64) -> Option<i64>
    ensures { result ≡ meaning.settles op x }
{
    match op {
        BinOp::And if x == 0 => Some(0),
        BinOp::Or if x != 0 => Some(1),
        _ => None,
    }
}
