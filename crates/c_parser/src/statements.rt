//! The statements that hold no other statement, taken from the tokens that are left after their first word.

ghost use Rattle.std.specs.Prelude.{◌≡◌, ℕ};
ghost use Rattle.c_tree.specs.Placed as placed;
ghost use Rattle.c_tree.specs.declared.tree.Span as span;
ghost use Rattle.c_grammar.specs.Goals.{print_goal, call_goal, input_goal, assigned, after_target, name_goal, ends_statement};
ghost use Rattle.c_parser.specs.Kept.{target_of, keep_target, keep_stmt};
ghost use Rattle.c_parser.specs.Simple.{simple_until, set_goal, IsStmtTaken, IsConditionTaken, AreArgumentsTaken};

use crate::cursor::{Class, Cursor};
use crate::nodes::{call, input, plain, print, set, step};
use crate::phrases::expr;
use crate::simple::{Simple, listed, no_exprs, simple_stmt, spanning, target};
use crate::terminals::{Operator, take_operator};
use c_tree::name::Name;
use c_tree::tree::{Expr, ExprList, SetOp, Span, Stmt, Target};
use pragma_grammar::directive_kept::Kept;
use pragma_grammar::phrase::ParseFault;
use std::alloc::Global;

/// Takes `( expr )`.
pub fn condition(alloc: Global, cursor: &mut Cursor) -> Result<Kept<Expr>, ParseFault>
    ensures { IsConditionTaken cursor.old result cursor.new }
{
    cursor.take(Class::RoundOpen)?;
    let (test, _) = expr(alloc, cursor)?;
    cursor.take(Class::RoundClose)?;
    Ok(test)
}

/// Takes the rest of a `print` whose word stands at `at`.
pub fn print_stmt(
    alloc: Global,
    cursor: &mut Cursor,
    at: Span,
) -> Result<(Kept<Stmt>, Span), ParseFault>
    ensures { IsStmtTaken (print_goal at) cursor.old result cursor.new }
{
    cursor.take(Class::RoundOpen)?;
    let (value, _) = expr(alloc, cursor)?;
    cursor.take(Class::RoundClose)?;
    let last = cursor.take(Class::Semicolon)?;
    Ok((print(value, spanning(at, last)), last))
}

/// Takes the arguments of a call through `)`.
fn arguments(alloc: Global, cursor: &mut Cursor) -> Result<Kept<ExprList>, ParseFault>
    ensures { AreArgumentsTaken cursor.old result cursor.new }
{
    match cursor.may(Class::RoundClose) {
        Some(_) => Ok(no_exprs(alloc)),
        None => {
            let (args, _) = listed(alloc, cursor)?;
            Ok(args)
        }
    }
}

/// Takes the rest of a call (C11 6.5.2.2) after its `(`. The name stands at `at`.
fn call_stmt(
    alloc: Global,
    cursor: &mut Cursor,
    name: Name,
    at: Span,
) -> Result<(Kept<Stmt>, Span), ParseFault>
    ensures { IsStmtTaken (call_goal name at) cursor.old result cursor.new }
{
    let args = arguments(alloc, cursor)?;
    let last = cursor.take(Class::Semicolon)?;
    Ok((call(name, at, args, spanning(at, last)), last))
}

/// Takes `( ) ;` after a target at `at` and the word `input` at `word`.
fn input_stmt(
    cursor: &mut Cursor,
    target: Kept<Target>,
    at: Span,
    word: Span,
) -> Result<(Kept<Stmt>, Span), ParseFault>
    ensures { (t : placed.Target) → target_of target ≡ keep_target t → IsStmtTaken (input_goal t at word) cursor.old result cursor.new }
{
    cursor.take(Class::RoundOpen)?;
    cursor.take(Class::RoundClose)?;
    let last = cursor.take(Class::Semicolon)?;
    Ok((input(target, word.start, spanning(at, last)), last))
}

/// Takes the value of an assignment to a target at `at`, and `;`.
fn set_stmt(
    alloc: Global,
    cursor: &mut Cursor,
    target: Kept<Target>,
    at: Span,
    op: SetOp,
) -> Result<(Kept<Stmt>, Span), ParseFault>
    ensures { (t : placed.Target) → target_of target ≡ keep_target t → IsStmtTaken (set_goal t at op) cursor.old result cursor.new }
{
    let (value, _) = expr(alloc, cursor)?;
    let last = cursor.take(Class::Semicolon)?;
    Ok((set(target, op, value, spanning(at, last)), last))
}

/// Takes what follows an assignment operator: a value or, after `=`, maybe `input ( )`; and `;`.
fn assigned_stmt(
    alloc: Global,
    cursor: &mut Cursor,
    target: Kept<Target>,
    at: Span,
    op: SetOp,
) -> Result<(Kept<Stmt>, Span), ParseFault>
    ensures { (t : placed.Target) → target_of target ≡ keep_target t → IsStmtTaken (λ f. assigned t at f op) cursor.old result cursor.new }
{
    match op {
        SetOp::Plain => match cursor.may(Class::Input) {
            Some(word) => input_stmt(cursor, target, at, word),
            None => set_stmt(alloc, cursor, target, at, op),
        },
        _ => set_stmt(alloc, cursor, target, at, op),
    }
}

/// Takes the rest of a statement that begins with a target at `at`.
fn target_stmt(
    alloc: Global,
    cursor: &mut Cursor,
    target: Kept<Target>,
    at: Span,
) -> Result<(Kept<Stmt>, Span), ParseFault>
    ensures { (t : placed.Target) → target_of target ≡ keep_target t → IsStmtTaken (λ f. after_target f t at) cursor.old result cursor.new }
{
    match take_operator(cursor)? {
        Operator::Assign(op) => assigned_stmt(alloc, cursor, target, at, op),
        Operator::Step { up, .. } => {
            let last = cursor.take(Class::Semicolon)?;
            Ok((step(target, up, spanning(at, last)), last))
        }
    }
}

/// Takes the rest of a statement that begins with a name at `at`: a call, an assignment or a step.
pub fn name_stmt(
    alloc: Global,
    cursor: &mut Cursor,
    name: Name,
    at: Span,
) -> Result<(Kept<Stmt>, Span), ParseFault>
    ensures { IsStmtTaken (name_goal name at) cursor.old result cursor.new }
{
    match cursor.may(Class::RoundOpen) {
        Some(_) => call_stmt(alloc, cursor, name, at),
        None => {
            let (target, at) = target(alloc, cursor, name, at)?;
            target_stmt(alloc, cursor, target, at)
        }
    }
}

/// Takes `;` after an assignment or a step.
pub fn end_simple(cursor: &mut Cursor, simple: Simple) -> Result<(Kept<Stmt>, Span), ParseFault>
    ensures { (s : ℕ → placed.Stmt) (y : span.Span) → ((to : ℕ) → simple_until simple to ≡ keep_stmt (s to)) → IsStmtTaken (λ f. ends_statement f s y) cursor.old result cursor.new }
{
    let last = cursor.take(Class::Semicolon)?;
    Ok((simple_stmt(simple, last.end), last))
}
