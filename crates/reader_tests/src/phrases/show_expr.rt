//! An expression as text.

use super::show::{Piece, open, put_off, put_off_all, show_name};
use c_tree::tree::{Expr, Ty};
use std::alloc::AllocError;

fn show_type(ty: Ty) -> &'static str {
    match ty {
        Ty::Int => "int",
        Ty::Long => "long",
    }
}

fn show_number(shown: &mut String, value: u64, ty: Ty) -> Result<(), AllocError> {
    write!(shown, "{value}")?;
    match ty {
        Ty::Int => Ok(()),
        Ty::Long => shown.push('L'),
    }
}

/// Shows the head of an expression, and puts off its parts.
fn show_head<'a>(
    shown: &mut String,
    work: &mut Vec<Piece<'a>>,
    expr: &'a Expr,
) -> Result<(), AllocError> {
    match expr {
        Expr::Num { value, ty, .. } => show_number(shown, *value, *ty),
        Expr::Read { name, .. } => show_name(shown, name),
        Expr::Item { name, subs, .. } => {
            open(shown, work)?;
            show_name(shown, name)?;
            put_off_all(work, subs)
        }
        Expr::Un { op, of, .. } => {
            open(shown, work)?;
            write!(shown, "{op:?}")?;
            put_off(work, Piece::Expr(of.get()))
        }
        Expr::Cast { ty, of, .. } => {
            open(shown, work)?;
            shown.push_str(show_type(*ty))?;
            put_off(work, Piece::Expr(of.get()))
        }
        Expr::Bin {
            op,
            left,
            right,
            ..
        } => {
            open(shown, work)?;
            write!(shown, "{op:?}")?;
            put_off(work, Piece::Expr(right.get()))?;
            put_off(work, Piece::Expr(left.get()))
        }
        Expr::Cond { test, yes, no, .. } => {
            open(shown, work)?;
            shown.push('?')?;
            put_off(work, Piece::Expr(no.get()))?;
            put_off(work, Piece::Expr(yes.get()))?;
            put_off(work, Piece::Expr(test.get()))
        }
    }
}

pub fn show_expr<'a>(
    shown: &mut String,
    work: &mut Vec<Piece<'a>>,
    expr: &'a Expr,
) -> Result<(), AllocError> {
    work.push(Piece::Span(expr.span()))?;
    show_head(shown, work, expr)
}
