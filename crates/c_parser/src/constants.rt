//! The value of a `#define`, taken from the tokens that are left.

ghost use Rattle.std.specs.Prelude.{◌≡◌, ◌↔◌, IsTrue};
ghost use Rattle.pragma_grammar.specs.Symbols.{symbol};
ghost use Rattle.pragma_grammar.specs.Terminals.{terminal_of};
ghost use Rattle.pragma_grammar.specs.declared.terminal.Terminal as terminal;
ghost use Rattle.c_lexer.specs.declared.token.Punct as punct;
ghost use Rattle.c_grammar.specs.Goals as goals;
ghost use Rattle.c_parser.specs.Constants.{IsNumberTaken, IsMinusTaken, OpensValue, IsConstantTaken};

use crate::cursor::{Class, Cursor};
use c_lexer::token::{Punct, Token};
use c_tree::tree::Ty;
use pragma_grammar::phrase::ParseFault;
use pragma_grammar::terminal::{Terminal, constant, terminal_of};

/// A number, with a minus sign before it where `negative` holds.
#[derive(Clone, Copy, Debug, PartialEq, Eq)]
pub struct Constant {
    pub negative: bool,
    pub value: u64,
    pub ty: Ty,
}

fn is_number(token: &Token) -> bool
    ensures { IsTrue result ↔ (terminal_of (symbol token.now) ≡ terminal.Terminal.Number) }
{
    match terminal_of(token) {
        Terminal::Number => true,
        _ => false,
    }
}

fn is_minus(token: &Token) -> bool
    ensures { IsTrue result ↔ (terminal_of (symbol token.now) ≡ terminal.Terminal.Punct punct.Punct.Minus) }
{
    match terminal_of(token) {
        Terminal::Punct(Punct::Minus) => true,
        _ => false,
    }
}

/// Takes a number, which has to stand first.
fn number(cursor: &mut Cursor, negative: bool) -> Result<Constant, ParseFault>
    ensures { IsNumberTaken negative cursor.old result cursor.new }
{
    let token = cursor.first();
    if is_number(token) {
        let (value, ty, _) = constant(token);
        cursor.advance();
        Ok(Constant {
            negative,
            value,
            ty,
        })
    } else {
        Err(cursor.blamed())
    }
}

/// Takes a minus sign, where one stands first.
fn minus(cursor: &mut Cursor) -> bool
    ensures { IsMinusTaken cursor.old result cursor.new }
{
    if is_minus(cursor.first()) {
        cursor.advance();
        true
    } else {
        false
    }
}

/// Takes a number with a minus sign or without.
fn signed(cursor: &mut Cursor) -> Result<Constant, ParseFault>
    ensures { IsConstantTaken goals.signs cursor.old result cursor.new }
{
    let negative = minus(cursor);
    number(cursor, negative)
}

fn is_round_open(token: &Token) -> bool
    ensures { IsTrue result ↔ (terminal_of (symbol token.now) ≡ terminal.Terminal.Punct punct.Punct.RoundOpen) }
{
    match terminal_of(token) {
        Terminal::Punct(Punct::RoundOpen) => true,
        _ => false,
    }
}

/// Takes the `(` of a value, where one stands first.
fn opens(cursor: &mut Cursor) -> bool
    ensures { OpensValue cursor.old result cursor.new }
{
    if is_round_open(cursor.first()) {
        cursor.advance();
        true
    } else {
        false
    }
}

/// Takes such a number, in parentheses or without.
pub fn value(cursor: &mut Cursor) -> Result<Constant, ParseFault>
    ensures { IsConstantTaken goals.values cursor.old result cursor.new }
{
    if opens(cursor) {
        let constant = signed(cursor)?;
        cursor.take(Class::RoundClose)?;
        Ok(constant)
    } else {
        signed(cursor)
    }
}
