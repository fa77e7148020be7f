//! Units of a list of statements (C11 6.8.2), as far as no other list or body begins in them.

ghost use Rattle.std.specs.Prelude.{◌≡◌};
ghost use Rattle.c_tree.specs.Placed as placed;
ghost use Rattle.pragma_grammar.specs.DirectiveKept.{kept};
ghost use Rattle.pragma_grammar.specs.Symbols.{symbol};
ghost use Rattle.c_parser.specs.Bodies.{Grown};
ghost use Rattle.c_parser.specs.Kept.{stmts_of};
ghost use Rattle.c_parser.specs.Units.{zero_of, IsZeroTaken, IsReturnTaken, IsUnitTaken};

use crate::begin::begin;
use crate::beginnings::{Beginning, beginning_of};
use crate::cursor::{Class, Cursor};
use crate::declarations::declare;
use crate::heads::long_rest;
use crate::nodes::add_stmt;
use crate::owners::{Begun, Owner};
use c_lexer::token::Token;
use c_tree::items::Items;
use c_tree::tree::{Span, StmtList, Ty};
use pragma_grammar::directive_kept::Kept;
use pragma_grammar::phrase::ParseFault;
use pragma_grammar::terminal::{Terminal, constant, terminal_of};
use std::alloc::Global;

/// No statements yet.
pub fn no_stmts(alloc: Global) -> Kept<StmtList>
    ensures { stmts_of result ≡ kept 0 placed.no_stmts }
{
    Kept::Whole {
        tree: Items::new(alloc),
        height: 0,
    }
}

/// What came in a list of statements: more of them, another list in braces that begins at a place, a statement whose
/// body comes next, or the end of the list.
#[derive(Drop)]
pub enum UnitRead {
    More(Kept<StmtList>),
    Opens { stmts: Kept<StmtList>, at: Span },
    Owns { stmts: Kept<StmtList>, owner: Owner },
    Closes { stmts: Kept<StmtList>, last: Span },
}

/// Is the token a number that is spelled `0`?
fn is_zero(token: &Token) -> bool
    ensures { result ≡ zero_of (symbol token.now) }
{
    match terminal_of(token) {
        Terminal::Number => constant(token).2,
        _ => false,
    }
}

/// Takes a number that is spelled `0`, which has to stand first.
fn zero(cursor: &mut Cursor) -> Result<(), ParseFault>
    ensures { IsZeroTaken cursor.old result cursor.new }
{
    if is_zero(cursor.first()) {
        cursor.advance();
        Ok(())
    } else {
        Err(cursor.blamed())
    }
}

/// Takes `0 ; }` after `return`.
fn returned(cursor: &mut Cursor) -> Result<Span, ParseFault>
    ensures { IsReturnTaken cursor.old result cursor.new }
{
    zero(cursor)?;
    cursor.take(Class::Semicolon)?;
    cursor.take(Class::CurlyClose)
}

/// Takes a unit of a list of statements (C11 6.8.2), as far as no other list or body begins in it.
pub fn unit(
    alloc: Global,
    cursor: &mut Cursor,
    ends_main: bool,
    stmts: Kept<StmtList>,
) -> Result<UnitRead, ParseFault>
    ensures { (before : placed.Stmts → placed.Stmts) → Grown stmts before → IsUnitTaken ends_main before cursor.old result cursor.new }
{
    let token = cursor.first();
    let at = token.span;
    match beginning_of(terminal_of(token)) {
        Beginning::CurlyOpen => {
            cursor.advance();
            Ok(UnitRead::Opens { stmts, at })
        }
        Beginning::CurlyClose => {
            cursor.advance();
            Ok(UnitRead::Closes { stmts, last: at })
        }
        Beginning::Return => {
            if ends_main {
                cursor.advance();
                let last = returned(cursor)?;
                Ok(UnitRead::Closes { stmts, last })
            } else {
                Err(cursor.blamed())
            }
        }
        Beginning::Int => {
            cursor.advance();
            Ok(UnitRead::More(declare(alloc, cursor, Ty::Int, at.start, stmts)?))
        }
        Beginning::Long => {
            cursor.advance();
            long_rest(cursor)?;
            Ok(UnitRead::More(declare(alloc, cursor, Ty::Long, at.start, stmts)?))
        }
        _ => match begin(alloc, cursor)? {
            Begun::Whole { stmt, .. } => Ok(UnitRead::More(add_stmt(stmts, stmt)?)),
            Begun::Opens(owner) => Ok(UnitRead::Owns { stmts, owner }),
        },
    }
}
