//! The beginning of a statement: a whole one that holds no other, or one through what stands before its body.

ghost use Rattle.c_parser.specs.Bodies.{IsBegun, IsConstructTaken};
ghost use Rattle.c_grammar.specs.Goals as goals;
ghost use Rattle.c_parser.specs.Simple.{IsStmtTaken};

use crate::beginnings::{Beginning, beginning_of};
use crate::cursor::{Class, Cursor};
use crate::heads::head;
use crate::nodes::plain;
use crate::owners::{Begun, Owner};
use crate::phrases::directive;
use crate::simple::{spanning, take_simple};
use crate::statements::{condition, end_simple, name_stmt, print_stmt};
use crate::terminals::name;
use c_tree::tree::{Directive, Span, Stmt};
use pragma_grammar::directive_kept::Kept;
use pragma_grammar::phrase::ParseFault;
use pragma_grammar::terminal::terminal_of;
use std::alloc::Global;

/// A statement that begins with a name.
fn named(alloc: Global, cursor: &mut Cursor) -> Result<(Kept<Stmt>, Span), ParseFault>
    ensures { IsStmtTaken (λ f. goals.names (λ x a. goals.name_goal x a f)) cursor.old result cursor.new }
{
    let (name, at) = name(alloc, cursor)?;
    name_stmt(alloc, cursor, name, at)
}

/// An assignment or a step, and `;`.
fn simple_then(alloc: Global, cursor: &mut Cursor) -> Result<(Kept<Stmt>, Span), ParseFault>
    ensures { IsStmtTaken (λ f. goals.simple (goals.ends_statement f)) cursor.old result cursor.new }
{
    let (simple, _) = take_simple(alloc, cursor)?;
    end_simple(cursor, simple)
}

/// The rest of a directive's line (OpenMP 6.0, directive syntax in C).
fn construct_line(alloc: Global, cursor: &mut Cursor) -> Result<Kept<Directive>, ParseFault>
    ensures { IsConstructTaken cursor.old result cursor.new }
{
    cursor.take(Class::Pragma)?;
    cursor.take(Class::Omp)?;
    let directive = directive(alloc, cursor)?;
    cursor.take(Class::LineEnd)?;
    Ok(directive)
}

/// Takes the beginning of a statement (C11 6.8), and all of it where it holds no other.
pub fn begin(alloc: Global, cursor: &mut Cursor) -> Result<Begun, ParseFault>
    ensures { IsBegun cursor.old result cursor.new }
{
    let token = cursor.first();
    let at = token.span;
    match beginning_of(terminal_of(token)) {
        Beginning::If => {
            cursor.advance();
            let test = condition(alloc, cursor)?;
            Ok(Begun::Opens(Owner::IfThen { test, at }))
        }
        Beginning::While => {
            cursor.advance();
            let test = condition(alloc, cursor)?;
            Ok(Begun::Opens(Owner::While { test, at }))
        }
        Beginning::Do => {
            cursor.advance();
            Ok(Begun::Opens(Owner::Do { at }))
        }
        Beginning::For => {
            cursor.advance();
            let head = head(alloc, cursor)?;
            Ok(Begun::Opens(Owner::For { head, at }))
        }
        Beginning::Pragma => {
            cursor.advance();
            let directive = construct_line(alloc, cursor)?;
            Ok(Begun::Opens(Owner::Omp { directive, at }))
        }
        Beginning::Empty => {
            cursor.advance();
            Ok(Begun::Whole {
                stmt: plain(Stmt::Empty { span: at }),
                last: at,
            })
        }
        Beginning::Print => {
            cursor.advance();
            let (stmt, last) = print_stmt(alloc, cursor, at)?;
            Ok(Begun::Whole { stmt, last })
        }
        Beginning::Break => {
            cursor.advance();
            let last = cursor.take(Class::Semicolon)?;
            let span = spanning(at, last);
            Ok(Begun::Whole {
                stmt: plain(Stmt::Break { span }),
                last,
            })
        }
        Beginning::Continue => {
            cursor.advance();
            let last = cursor.take(Class::Semicolon)?;
            let span = spanning(at, last);
            Ok(Begun::Whole {
                stmt: plain(Stmt::Continue { span }),
                last,
            })
        }
        Beginning::Name => {
            let (stmt, last) = named(alloc, cursor)?;
            Ok(Begun::Whole { stmt, last })
        }
        _ => {
            let (stmt, last) = simple_then(alloc, cursor)?;
            Ok(Begun::Whole { stmt, last })
        }
    }
}
