//! Prints statements.

ghost use Rattle.std.specs.Prelude.{◌≡◌, ◌++◌, ◌+◌, ◌<◌, ◌^◌, codes, OnOk};
ghost use Rattle.std.specs.Option.{option_map};
ghost use Rattle.c_tree.specs.BareOf.{bare_expr, bare_exprs, bare_target, bare_stmt, bare_stmts, bare_head, bare_directive, maybe_stmt};
ghost use Rattle.c_tree.specs.Height.{stmt_height, stmts_height};
ghost use Rattle.c_lexer.specs.Lexemes.{spelling};
ghost use Rattle.c_printer.specs.Layout.{text, mark, feed, indent, line, braces, parens, gap, semicolon, ◌&◌};
ghost use Rattle.c_printer.specs.Expressions.{expr_form};
ghost use Rattle.c_printer.specs.Statements.{set_sign, step_sign, target_form, initial, simple, first_part, test_part, last_part, head_form, pragma, is_loop, is_one_loop, carried, stmt_form, stmts_form};

use crate::directives::print_directive;
use crate::expressions::{print_expr, print_listed, print_subscripts};
use crate::tokens::{push_declared, push_indent};
use c_tree::boxed::Boxed;
use c_tree::tree::{Directive, Expr, ForHead, SetOp, Stmt, Target};
use std::alloc::AllocError;

/// An assignment operator with a space on each side.
fn set_sign(op: SetOp) -> &'static [u8]
    ensures { result.now ≡ codes " " ++ (spelling (set_sign op) ++ codes " ") }
{
    match op {
        SetOp::Plain => b" = ",
        SetOp::Add => b" += ",
        SetOp::Sub => b" -= ",
        SetOp::Mul => b" *= ",
        SetOp::Div => b" /= ",
        SetOp::Rem => b" %= ",
    }
}

fn step_sign(up: bool) -> &'static [u8]
    ensures { result.now ≡ spelling (step_sign up) }
{
    if up { b"++" } else { b"--" }
}

fn print_target(out: &mut Vec<u8>, target: &Target) -> Result<(), AllocError>
    ensures { OnOk result (out.new.items ≡ out.old.items ++ text (target_form (bare_target target.now))) }
{
    out.extend_from_slice(target.name.bytes())?;
    print_subscripts(out, target.subs.as_slice())
}

/// Prints an initial value with its `=`, if there is one.
pub fn print_initial(out: &mut Vec<u8>, init: &Option<Expr>) -> Result<(), AllocError>
    ensures { OnOk result (out.new.items ≡ out.old.items ++ text (initial (option_map bare_expr init.now))) }
{
    match init {
        None => Ok(()),
        Some(e) => {
            out.extend_from_slice(b" = ")?;
            print_expr(out, e)
        }
    }
}

/// Prints a statement that ends with a semicolon, without it, and nothing of any other.
fn print_simple(out: &mut Vec<u8>, stmt: &Stmt) -> Result<(), AllocError>
    ensures { OnOk result (out.new.items ≡ out.old.items ++ text (simple (bare_stmt stmt.now))) }
{
    match stmt {
        Stmt::Decl { ty, name, init, .. } => {
            push_declared(out, *ty, name)?;
            print_initial(out, init)
        }
        Stmt::Set {
            target,
            op,
            value,
            ..
        } => {
            print_target(out, target)?;
            out.extend_from_slice(set_sign(*op))?;
            print_expr(out, value)
        }
        Stmt::Step { target, up, .. } => {
            print_target(out, target)?;
            out.extend_from_slice(step_sign(*up))
        }
        Stmt::Print { value, .. } => {
            out.extend_from_slice(b"print(")?;
            print_expr(out, value)?;
            out.extend_from_slice(b")")
        }
        Stmt::Input { target, .. } => {
            print_target(out, target)?;
            out.extend_from_slice(b" = input()")
        }
        Stmt::Break { .. } => out.extend_from_slice(b"break"),
        Stmt::Continue { .. } => out.extend_from_slice(b"continue"),
        Stmt::Call { name, args, .. } => {
            out.extend_from_slice(name.bytes())?;
            out.extend_from_slice(b"(")?;
            print_listed(out, args.as_slice())?;
            out.extend_from_slice(b")")
        }
        Stmt::Empty { .. }
        | Stmt::If { .. }
        | Stmt::While { .. }
        | Stmt::Do { .. }
        | Stmt::For { .. }
        | Stmt::Block { .. }
        | Stmt::Omp { .. } => Ok(()),
    }
}

fn print_first(out: &mut Vec<u8>, part: &Option<Boxed<Stmt>>) -> Result<(), AllocError>
    ensures { OnOk result (out.new.items ≡ out.old.items ++ text (first_part (maybe_stmt (option_map bare_stmt part.now)))) }
{
    match part {
        None => Ok(()),
        Some(stmt) => print_simple(out, stmt.get()),
    }
}

fn print_test(out: &mut Vec<u8>, part: &Option<Expr>) -> Result<(), AllocError>
    ensures { OnOk result (out.new.items ≡ out.old.items ++ text (test_part (option_map bare_expr part.now))) }
{
    match part {
        None => Ok(()),
        Some(e) => {
            out.extend_from_slice(b" ")?;
            print_expr(out, e)
        }
    }
}

fn print_last(out: &mut Vec<u8>, part: &Option<Boxed<Stmt>>) -> Result<(), AllocError>
    ensures { OnOk result (out.new.items ≡ out.old.items ++ text (last_part (maybe_stmt (option_map bare_stmt part.now)))) }
{
    match part {
        None => Ok(()),
        Some(stmt) => {
            out.extend_from_slice(b" ")?;
            print_simple(out, stmt.get())
        }
    }
}

/// Prints the head of a `for`, without its parentheses.
fn print_head(out: &mut Vec<u8>, head: &ForHead) -> Result<(), AllocError>
    ensures { OnOk result (out.new.items ≡ out.old.items ++ text (head_form (bare_head head.now))) }
{
    print_first(out, &head.init)?;
    out.extend_from_slice(b";")?;
    print_test(out, &head.test)?;
    out.extend_from_slice(b";")?;
    print_last(out, &head.step)
}

/// Prints a line up to a body in braces: the spaces, a word, and an expression in parentheses.
fn print_before_body(out: &mut Vec<u8>, level: u64, word: &[u8], e: &Expr) -> Result<(), AllocError>
    ensures { OnOk result (out.new.items ≡ out.old.items ++ (text (indent level) ++ (word.now ++ text (gap & parens (expr_form (bare_expr e.now)) & gap)))) }
{
    push_indent(out, level)?;
    out.extend_from_slice(word)?;
    out.extend_from_slice(b" (")?;
    print_expr(out, e)?;
    out.extend_from_slice(b") ")
}

/// Prints what follows the body of a `do`, to the end of the line.
fn print_after_do(out: &mut Vec<u8>, e: &Expr) -> Result<(), AllocError>
    ensures { OnOk result (out.new.items ≡ out.old.items ++ (codes " while " ++ text (parens (expr_form (bare_expr e.now)) & semicolon & mark feed))) }
{
    out.extend_from_slice(b" while (")?;
    print_expr(out, e)?;
    out.extend_from_slice(b");\n")
}

/// Prints the line of a `for` up to its body.
fn print_for_line(out: &mut Vec<u8>, level: u64, head: &ForHead) -> Result<(), AllocError>
    ensures { OnOk result (out.new.items ≡ out.old.items ++ (text (indent level) ++ (codes "for " ++ text (parens (head_form (bare_head head.now)) & gap)))) }
{
    push_indent(out, level)?;
    out.extend_from_slice(b"for (")?;
    print_head(out, head)?;
    out.extend_from_slice(b") ")
}

/// Prints the line of a directive.
fn print_pragma(out: &mut Vec<u8>, level: u64, directive: &Directive) -> Result<(), AllocError>
    ensures { OnOk result (out.new.items ≡ out.old.items ++ text (pragma level (bare_directive directive.now))) }
{
    push_indent(out, level)?;
    out.extend_from_slice(b"#pragma omp ")?;
    print_directive(out, directive)?;
    out.extend_from_slice(b"\n")
}

/// Is the statement a `for` or a directive?
fn is_loop(stmt: &Stmt) -> bool
    ensures { result ≡ is_loop (bare_stmt stmt.now) }
{
    match stmt {
        Stmt::For { .. } | Stmt::Omp { .. } => true,
        Stmt::Decl { .. }
        | Stmt::Set { .. }
        | Stmt::Step { .. }
        | Stmt::Print { .. }
        | Stmt::Input { .. }
        | Stmt::If { .. }
        | Stmt::While { .. }
        | Stmt::Do { .. }
        | Stmt::Block { .. }
        | Stmt::Break { .. }
        | Stmt::Continue { .. }
        | Stmt::Empty { .. }
        | Stmt::Call { .. } => false,
    }
}

/// Are the statements one `for` or one directive?
fn is_one_loop(stmts: &[Stmt]) -> bool
    ensures { result ≡ is_one_loop (bare_stmts stmts.now) }
{
    match stmts {
        [] => false,
        [only] => is_loop(only),
        [_, _, ..] => false,
    }
}

/// Prints a statement on lines of its own, the level's spaces before each.
#[cycle(statements)]
fn print_stmt(out: &mut Vec<u8>, level: u64, stmt: &Stmt) -> Result<(), AllocError>
    requires { level + stmt_height (bare_stmt stmt.now) < 2 ^ 63 }
    ensures { OnOk result (out.new.items ≡ out.old.items ++ text (stmt_form level (bare_stmt stmt.now))) }
{
    match stmt {
        Stmt::If { test, yes, no, .. } => {
            print_before_body(out, level, b"if", test)?;
            print_braces(out, level, yes.as_slice())?;
            match no {
                None => out.extend_from_slice(b"\n"),
                Some(no) => {
                    out.extend_from_slice(b" else ")?;
                    print_braces(out, level, no.as_slice())?;
                    out.extend_from_slice(b"\n")
                }
            }
        }
        Stmt::While { test, body, .. } => {
            print_before_body(out, level, b"while", test)?;
            print_braces(out, level, body.as_slice())?;
            out.extend_from_slice(b"\n")
        }
        Stmt::Do { body, test, .. } => {
            push_indent(out, level)?;
            out.extend_from_slice(b"do ")?;
            print_braces(out, level, body.as_slice())?;
            print_after_do(out, test)
        }
        Stmt::For { head, body, .. } => {
            print_for_line(out, level, head)?;
            print_braces(out, level, body.as_slice())?;
            out.extend_from_slice(b"\n")
        }
        Stmt::Block { body, .. } => print_block(out, level, body.as_slice()),
        Stmt::Omp {
            directive,
            body,
            ..
        } => {
            print_pragma(out, level, directive)?;
            print_carried(out, level, body.as_slice())
        }
        Stmt::Decl { .. }
        | Stmt::Set { .. }
        | Stmt::Step { .. }
        | Stmt::Print { .. }
        | Stmt::Input { .. }
        | Stmt::Break { .. }
        | Stmt::Continue { .. }
        | Stmt::Empty { .. }
        | Stmt::Call { .. } => print_simple_line(out, level, stmt),
    }
}

/// Prints a statement that ends with a semicolon.
fn print_simple_line(out: &mut Vec<u8>, level: u64, stmt: &Stmt) -> Result<(), AllocError>
    ensures { OnOk result (out.new.items ≡ out.old.items ++ text (line level (simple (bare_stmt stmt.now) & semicolon))) }
{
    push_indent(out, level)?;
    print_simple(out, stmt)?;
    out.extend_from_slice(b";\n")
}

/// Prints a body in braces on lines of its own.
#[cycle(statements)]
fn print_block(out: &mut Vec<u8>, level: u64, body: &[Stmt]) -> Result<(), AllocError>
    requires { level + 1 + stmts_height (bare_stmts body.now) < 2 ^ 63 }
    ensures { OnOk result (out.new.items ≡ out.old.items ++ text (line level (braces level (stmts_form (level + 1) (bare_stmts body.now))))) }
{
    push_indent(out, level)?;
    print_braces(out, level, body)?;
    out.extend_from_slice(b"\n")
}

/// Prints what a directive is applied to.
#[cycle(statements)]
fn print_carried(out: &mut Vec<u8>, level: u64, body: &[Stmt]) -> Result<(), AllocError>
    requires { level + 1 + stmts_height (bare_stmts body.now) < 2 ^ 63 }
    ensures { OnOk result (out.new.items ≡ out.old.items ++ text (carried level (bare_stmts body.now) (stmts_form level (bare_stmts body.now)) (stmts_form (level + 1) (bare_stmts body.now)))) }
{
    if is_one_loop(body) {
        print_stmts(out, level, body)
    } else {
        print_block(out, level, body)
    }
}

/// Prints a body in braces, from the opening one to the closing one.
#[cycle(statements)]
pub fn print_braces(out: &mut Vec<u8>, level: u64, body: &[Stmt]) -> Result<(), AllocError>
    requires { level + 1 + stmts_height (bare_stmts body.now) < 2 ^ 63 }
    ensures { OnOk result (out.new.items ≡ out.old.items ++ text (braces level (stmts_form (level + 1) (bare_stmts body.now)))) }
{
    out.extend_from_slice(b"{\n")?;
    print_stmts(out, level + 1, body)?;
    push_indent(out, level)?;
    out.extend_from_slice(b"}")
}

/// Prints statements, one after another.
#[cycle(statements)]
pub fn print_stmts(out: &mut Vec<u8>, level: u64, stmts: &[Stmt]) -> Result<(), AllocError>
    requires { level + stmts_height (bare_stmts stmts.now) < 2 ^ 63 }
    ensures { OnOk result (out.new.items ≡ out.old.items ++ text (stmts_form level (bare_stmts stmts.now))) }
{
    'each: for stmt in stmts {
        print_stmt(out, level, stmt)?;
    }
    Ok(())
}
