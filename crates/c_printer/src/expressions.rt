//! Prints expressions.

ghost use Rattle.std.specs.Prelude.{◌≡◌, ◌++◌, ◌<◌, codes, OnOk};
ghost use Rattle.c_tree.specs.BareOf.{bare_expr, bare_exprs};
ghost use Rattle.c_lexer.specs.Lexemes.{spelling};
ghost use Rattle.c_printer.specs.Layout.{text, wrapped};
ghost use Rattle.c_printer.specs.Expressions.{unary_sign, binary_sign, binary_row, row_of, is_sign, is_signed, expr_form, subscripts, further, listed};

use crate::tokens::{close_round, open_round, push_number, push_type};
use c_tree::tree::{BinOp, Expr, UnOp};
use std::alloc::AllocError;

fn unary_sign(op: UnOp) -> &'static [u8]
    ensures { result.now ≡ spelling (unary_sign op) }
{
    match op {
        UnOp::Neg => b"-",
        UnOp::Plus => b"+",
        UnOp::Not => b"!",
    }
}

/// The operator with a space on each side.
fn binary_sign(op: BinOp) -> &'static [u8]
    ensures { result.now ≡ codes " " ++ (spelling (binary_sign op) ++ codes " ") }
{
    match op {
        BinOp::Mul => b" * ",
        BinOp::Div => b" / ",
        BinOp::Rem => b" % ",
        BinOp::Add => b" + ",
        BinOp::Sub => b" - ",
        BinOp::Lt => b" < ",
        BinOp::Le => b" <= ",
        BinOp::Gt => b" > ",
        BinOp::Ge => b" >= ",
        BinOp::Eq => b" == ",
        BinOp::Ne => b" != ",
        BinOp::And => b" && ",
        BinOp::Or => b" || ",
    }
}

/// The row of an operator, from the loosest, `||`, which has 1, to the tightest, 6.
fn binary_row(op: BinOp) -> u8
    ensures row { result ≡ binary_row op }
    ensures bound { result < 7 }
{
    match op {
        BinOp::Or => 1,
        BinOp::And => 2,
        BinOp::Eq | BinOp::Ne => 3,
        BinOp::Lt | BinOp::Le | BinOp::Gt | BinOp::Ge => 4,
        BinOp::Add | BinOp::Sub => 5,
        BinOp::Mul | BinOp::Div | BinOp::Rem => 6,
    }
}

/// The row of an expression: 0 for `? :`, 7 for a unary operator or a cast, 8 where there is no operator.
fn row_of(e: &Expr) -> u8
    ensures { result ≡ row_of (bare_expr e.now) }
{
    match e {
        Expr::Num { .. } | Expr::Read { .. } | Expr::Item { .. } => 8,
        Expr::Un { .. } | Expr::Cast { .. } => 7,
        Expr::Bin { op, .. } => binary_row(*op),
        Expr::Cond { .. } => 0,
    }
}

fn is_sign(op: UnOp) -> bool
    ensures { result ≡ is_sign op }
{
    match op {
        UnOp::Neg | UnOp::Plus => true,
        UnOp::Not => false,
    }
}

/// Are the operator and the operand's own both a `-` or `+`?
fn is_signed(op: UnOp, e: &Expr) -> bool
    ensures { result ≡ is_signed op (bare_expr e.now) }
{
    match e {
        Expr::Un { op: inner, .. } => is_sign(op) && is_sign(*inner),
        _ => false,
    }
}

/// Prints an expression, without parentheses round it.
#[cycle(expressions)]
pub fn print_expr(out: &mut Vec<u8>, e: &Expr) -> Result<(), AllocError>
    ensures { OnOk result (out.new.items ≡ out.old.items ++ text (expr_form (bare_expr e.now))) }
{
    match e {
        Expr::Num { value, ty, .. } => push_number(out, *value, *ty),
        Expr::Read { name, .. } => out.extend_from_slice(name.bytes()),
        Expr::Item { name, subs, .. } => {
            out.extend_from_slice(name.bytes())?;
            print_subscripts(out, subs.as_slice())
        }
        Expr::Un { op, of, .. } => {
            out.extend_from_slice(unary_sign(*op))?;
            let needed = is_signed(*op, of.get()) || row_of(of.get()) < 7;
            print_wrapped(out, needed, of.get())
        }
        Expr::Bin {
            op,
            left,
            right,
            ..
        } => {
            let row = binary_row(*op);
            print_wrapped(out, row_of(left.get()) < row, left.get())?;
            out.extend_from_slice(binary_sign(*op))?;
            print_wrapped(out, row_of(right.get()) < row + 1, right.get())
        }
        Expr::Cond { test, yes, no, .. } => {
            print_wrapped(out, row_of(test.get()) < 1, test.get())?;
            out.extend_from_slice(b" ? ")?;
            print_expr(out, yes.get())?;
            out.extend_from_slice(b" : ")?;
            print_expr(out, no.get())
        }
        Expr::Cast { ty, of, .. } => {
            out.extend_from_slice(b"(")?;
            push_type(out, *ty)?;
            out.extend_from_slice(b")")?;
            print_wrapped(out, row_of(of.get()) < 7, of.get())
        }
    }
}

/// Prints an expression, in parentheses where they are needed.
#[cycle(expressions)]
fn print_wrapped(out: &mut Vec<u8>, needed: bool, e: &Expr) -> Result<(), AllocError>
    ensures { OnOk result (out.new.items ≡ out.old.items ++ text (wrapped needed (expr_form (bare_expr e.now)))) }
{
    open_round(out, needed)?;
    print_expr(out, e)?;
    close_round(out, needed)
}

/// Prints subscripts, each in its own brackets.
#[cycle(expressions)]
pub fn print_subscripts(out: &mut Vec<u8>, es: &[Expr]) -> Result<(), AllocError>
    ensures { OnOk result (out.new.items ≡ out.old.items ++ text (subscripts (bare_exprs es.now))) }
{
    'each: for e in es {
        out.extend_from_slice(b"[")?;
        print_expr(out, e)?;
        out.extend_from_slice(b"]")?;
    }
    Ok(())
}

/// Prints expressions after others in a list.
pub fn print_further(out: &mut Vec<u8>, es: &[Expr]) -> Result<(), AllocError>
    ensures { OnOk result (out.new.items ≡ out.old.items ++ text (further (bare_exprs es.now))) }
{
    'each: for e in es {
        out.extend_from_slice(b", ")?;
        print_expr(out, e)?;
    }
    Ok(())
}

/// Prints a list of expressions, with commas between them.
pub fn print_listed(out: &mut Vec<u8>, es: &[Expr]) -> Result<(), AllocError>
    ensures { OnOk result (out.new.items ≡ out.old.items ++ text (listed (bare_exprs es.now))) }
{
    match es {
        [] => Ok(()),
        [first, rest @ ..] => {
            print_expr(out, first)?;
            print_further(out, rest)
        }
    }
}
