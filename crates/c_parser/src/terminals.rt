//! Names, operators and what ends an expression, by the first of the tokens that are left.

ghost use Rattle.std.specs.Prelude.{◌≡◌, ◌↔◌, IsTrue};
ghost use Rattle.pragma_grammar.specs.Symbols.{symbol};
ghost use Rattle.pragma_grammar.specs.Terminals.{terminal_of};
ghost use Rattle.pragma_grammar.specs.declared.terminal.Terminal as terminal;
ghost use Rattle.c_parser.specs.Terminals.{assigns_terminal, steps_terminal, goes_on_terminal, IsNameTaken, IsOperatorTaken, IsStopped};

use crate::cursor::Cursor;
use c_lexer::token::{Punct, Token};
use c_tree::name::Name;
use c_tree::tree::{SetOp, Span};
use pragma_grammar::phrase::ParseFault;
use pragma_grammar::terminal::{Terminal, spelling, terminal_of};
use std::alloc::Global;

/// An assignment operator (C11 6.5.16), or `++` or `--` with its place.
#[derive(Clone, Copy, Debug, PartialEq, Eq)]
pub enum Operator {
    Assign(SetOp),
    Step { up: bool, at: Span },
}

fn assigns(terminal: Terminal) -> Option<SetOp>
    ensures { result ≡ assigns_terminal terminal }
{
    match terminal {
        Terminal::Punct(Punct::Assign) => Some(SetOp::Plain),
        Terminal::Punct(Punct::PlusAssign) => Some(SetOp::Add),
        Terminal::Punct(Punct::MinusAssign) => Some(SetOp::Sub),
        Terminal::Punct(Punct::StarAssign) => Some(SetOp::Mul),
        Terminal::Punct(Punct::SlashAssign) => Some(SetOp::Div),
        Terminal::Punct(Punct::PercentAssign) => Some(SetOp::Rem),
        _ => None,
    }
}

/// Does `++` or `--` stand there, and does it step up?
pub fn steps(terminal: Terminal) -> Option<bool>
    ensures { result ≡ steps_terminal terminal }
{
    match terminal {
        Terminal::Punct(Punct::PlusPlus) => Some(true),
        Terminal::Punct(Punct::MinusMinus) => Some(false),
        _ => None,
    }
}

/// Does an expression go on with it: is it a binary operator, `?` or `[`?
fn goes_on(terminal: Terminal) -> bool
    ensures { result ≡ goes_on_terminal terminal }
{
    match terminal {
        Terminal::Punct(punct) => match punct {
            Punct::Question => true,
            Punct::SquareOpen => true,
            Punct::Star => true,
            Punct::Slash => true,
            Punct::Percent => true,
            Punct::Plus => true,
            Punct::Minus => true,
            Punct::Less => true,
            Punct::LessEq => true,
            Punct::Greater => true,
            Punct::GreaterEq => true,
            Punct::EqEq => true,
            Punct::BangEq => true,
            Punct::AndAnd => true,
            Punct::BarBar => true,
            _ => false,
        },
        _ => false,
    }
}

fn is_name(token: &Token) -> bool
    ensures { IsTrue result ↔ (terminal_of (symbol token.now) ≡ terminal.Terminal.Name) }
{
    match terminal_of(token) {
        Terminal::Name => true,
        _ => false,
    }
}

/// Takes a name, which has to stand first.
pub fn name(alloc: Global, cursor: &mut Cursor) -> Result<(Name, Span), ParseFault>
    ensures { IsNameTaken cursor.old result cursor.new }
{
    let token = cursor.first();
    if is_name(token) {
        let name = Name::new(alloc, spelling(token))?;
        let span = token.span;
        cursor.advance();
        Ok((name, span))
    } else {
        Err(cursor.blamed())
    }
}

/// Takes an assignment operator or a step, which has to stand first.
pub fn take_operator(cursor: &mut Cursor) -> Result<Operator, ParseFault>
    ensures { IsOperatorTaken cursor.old result cursor.new }
{
    let token = cursor.first();
    let terminal = terminal_of(token);
    if let Some(op) = assigns(terminal) {
        cursor.advance();
        return Ok(Operator::Assign(op));
    }
    match steps(terminal) {
        Some(up) => {
            let at = token.span;
            cursor.advance();
            Ok(Operator::Step { up, at })
        }
        None => Err(cursor.blamed()),
    }
}

/// Refuses a first token with which an expression goes on.
pub fn stop(cursor: &Cursor) -> Result<(), ParseFault>
    ensures { IsStopped cursor.now result }
{
    if goes_on(terminal_of(cursor.first())) {
        Err(cursor.blamed())
    } else {
        Ok(())
    }
}
