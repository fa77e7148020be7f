//! Declarations in a list of statements (C11 6.7), taken from the tokens that are left.

ghost use Rattle.std.specs.Prelude.{IfOk};
ghost use Rattle.c_tree.specs.Placed.{Stmts};
ghost use Rattle.c_parser.specs.Bodies.{Grown};
ghost use Rattle.c_parser.specs.Declarations as declarations;
ghost use Rattle.c_parser.specs.Declarations.{said_stmts, IsSaid, IsSaidTaken, AreDeclared};

use crate::cursor::{Class, Cursor};
use crate::heads::{none, some};
use crate::nodes::{add_stmt, declaration, input};
use crate::phrases::expr;
use crate::simple::{no_exprs, target_node};
use crate::terminals::name;
use c_tree::name::Name;
use c_tree::tree::{Expr, Span, StmtList, Ty};
use pragma_grammar::directive_kept::Kept;
use pragma_grammar::phrase::ParseFault;
use std::alloc::{AllocError, Global};

/// What a declarator says of its name: nothing, a value, or that it is read, with the place of the word `input`.
#[derive(Drop)]
pub enum Said {
    Unset,
    Valued(Kept<Expr>),
    ReadIn(u64),
}

/// Takes what follows the name of a declarator, which stands at `name_at`, with its last token's place.
fn take_said(alloc: Global, cursor: &mut Cursor, name_at: Span) -> Result<(Said, Span), ParseFault>
    ensures { IsSaidTaken name_at cursor.old result cursor.new }
{
    match cursor.may(Class::Assign) {
        None => Ok((Said::Unset, name_at)),
        Some(_) => match cursor.may(Class::Input) {
            Some(word) => {
                cursor.take(Class::RoundOpen)?;
                let last = cursor.take(Class::RoundClose)?;
                Ok((Said::ReadIn(word.start), last))
            }
            None => {
                let (value, last) = expr(alloc, cursor)?;
                Ok((Said::Valued(value), last))
            }
        },
    }
}

/// The statements with those of a declarator, which begin at `from` and end at `to`.
fn declared(
    alloc: Global,
    stmts: Kept<StmtList>,
    ty: Ty,
    name: Name,
    name_at: Span,
    from: u64,
    said: Said,
    to: u64,
) -> Result<Kept<StmtList>, AllocError>
    ensures { (d : declarations.Said) (before : Stmts → Stmts) → IsSaid said d → Grown stmts before → IfOk result (λ r. Grown r (λ rs. before (said_stmts d ty from name name_at to rs))) }
{
    let span = Span {
        start: from,
        end: to,
    };
    match said {
        Said::Unset => add_stmt(stmts, declaration(ty, name, name_at, none(), span)),
        Said::Valued(value) => add_stmt(stmts, declaration(ty, name, name_at, some(value), span)),
        Said::ReadIn(at) => {
            let variable = name.copy(alloc)?;
            let own = Span {
                start: from,
                end: name_at.end,
            };
            let stmts = add_stmt(stmts, declaration(ty, name, name_at, none(), own))?;
            let target = target_node(variable, no_exprs(alloc), name_at);
            let span = Span {
                start: name_at.start,
                end: to,
            };
            add_stmt(stmts, input(target, at, span))
        }
    }
}

/// Takes the declarators of a declaration whose type begins at `from`, through `;`: the statements with theirs.
pub fn declare(
    alloc: Global,
    cursor: &mut Cursor,
    ty: Ty,
    from: u64,
    stmts: Kept<StmtList>,
) -> Result<Kept<StmtList>, ParseFault>
    ensures { (before : Stmts → Stmts) → Grown stmts before → AreDeclared ty from before cursor.old result cursor.new }
{
    let mut all = stmts;
    let mut start = from;
    loop {
        let (name, name_at) = name(alloc, cursor)?;
        let (said, last) = take_said(alloc, cursor, name_at)?;
        match cursor.may(Class::Comma) {
            Some(_) => {
                all = declared(alloc, all, ty, name, name_at, start, said, last.end)?;
                start = cursor.first().span.start;
            }
            None => {
                let last = cursor.take(Class::Semicolon)?;
                return Ok(declared(alloc, all, ty, name, name_at, start, said, last.end)?);
            }
        }
    }
}
