//! The operators of expressions and their rows, and the tokens that open and close operands.

ghost use Rattle.std.specs.Prelude.{◌≡◌};
ghost use Rattle.pragma_grammar.specs.Expressions.{row};
ghost use Rattle.pragma_grammar.specs.Terminals.{unary_terminal, binary_terminal, infix_terminal, is_square_open, is_square_close, is_colon, begun_type};

use crate::open_phrase::Infix;
use crate::terminal::Terminal;
use c_lexer::token::Punct;
use c_lexer::words::Keyword;
use c_tree::tree::{BinOp, Ty, UnOp};

pub fn unary_of(terminal: Terminal) -> Option<UnOp>
    ensures { result ≡ unary_terminal terminal }
{
    match terminal {
        Terminal::Punct(Punct::Plus) => Some(UnOp::Plus),
        Terminal::Punct(Punct::Minus) => Some(UnOp::Neg),
        Terminal::Punct(Punct::Bang) => Some(UnOp::Not),
        _ => None,
    }
}

fn binary_of(terminal: Terminal) -> Option<BinOp>
    ensures { result ≡ binary_terminal terminal }
{
    match terminal {
        Terminal::Punct(Punct::Star) => Some(BinOp::Mul),
        Terminal::Punct(Punct::Slash) => Some(BinOp::Div),
        Terminal::Punct(Punct::Percent) => Some(BinOp::Rem),
        Terminal::Punct(Punct::Plus) => Some(BinOp::Add),
        Terminal::Punct(Punct::Minus) => Some(BinOp::Sub),
        Terminal::Punct(Punct::Less) => Some(BinOp::Lt),
        Terminal::Punct(Punct::LessEq) => Some(BinOp::Le),
        Terminal::Punct(Punct::Greater) => Some(BinOp::Gt),
        Terminal::Punct(Punct::GreaterEq) => Some(BinOp::Ge),
        Terminal::Punct(Punct::EqEq) => Some(BinOp::Eq),
        Terminal::Punct(Punct::BangEq) => Some(BinOp::Ne),
        Terminal::Punct(Punct::AndAnd) => Some(BinOp::And),
        Terminal::Punct(Punct::BarBar) => Some(BinOp::Or),
        _ => None,
    }
}

/// The row of a binary operator, from 1 for the loosest.
pub fn row_of(op: BinOp) -> u8
    ensures { result ≡ row op }
{
    match op {
        BinOp::Or => 1,
        BinOp::And => 2,
        BinOp::Eq | BinOp::Ne => 3,
        BinOp::Lt | BinOp::Le | BinOp::Gt | BinOp::Ge => 4,
        BinOp::Add | BinOp::Sub => 5,
        BinOp::Mul | BinOp::Div | BinOp::Rem => 6,
    }
}

/// The operator by which a token goes on with an operand of a row, where one of the row `least` or tighter is asked for.
pub fn goes_on(least: u8, row: u8, terminal: Terminal) -> Option<Infix>
    ensures { result ≡ infix_terminal least row terminal }
{
    match terminal {
        Terminal::Punct(Punct::Question) => {
            if least == 0 && 1 <= row {
                Some(Infix::Choice)
            } else {
                None
            }
        }
        _ => match binary_of(terminal) {
            Some(op) => {
                let own = row_of(op);
                if least <= own && own <= row {
                    Some(Infix::Between(op))
                } else {
                    None
                }
            }
            None => None,
        },
    }
}

pub fn is_square_open(terminal: Terminal) -> bool
    ensures { result ≡ is_square_open terminal }
{
    match terminal {
        Terminal::Punct(Punct::SquareOpen) => true,
        _ => false,
    }
}

pub fn is_square_close(terminal: Terminal) -> bool
    ensures { result ≡ is_square_close terminal }
{
    match terminal {
        Terminal::Punct(Punct::SquareClose) => true,
        _ => false,
    }
}

pub fn is_colon(terminal: Terminal) -> bool
    ensures { result ≡ is_colon terminal }
{
    match terminal {
        Terminal::Punct(Punct::Colon) => true,
        _ => false,
    }
}

/// The type whose name a word begins; that of `long` is `long long`.
pub fn begun_type(terminal: Terminal) -> Option<Ty>
    ensures { result ≡ begun_type terminal }
{
    match terminal {
        Terminal::Keyword(Keyword::Int) => Some(Ty::Int),
        Terminal::Keyword(Keyword::Long) => Some(Ty::Long),
        _ => None,
    }
}
