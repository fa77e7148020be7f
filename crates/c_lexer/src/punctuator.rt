//! How punctuators grow byte by byte.

ghost use Rattle.std.specs.Prelude.{◌≡◌, ◌==◌};
ghost use Rattle.c_lexer.specs.Classes.{growth, with_equals, with_second};

use crate::mode::Growth;
use crate::token::Punct;

/// The longer punctuator where the byte is `=`.
fn with_equals(byte: u8, longer: Punct) -> Growth
    ensures { result ≡ with_equals byte longer }
{
    if byte == b'=' {
        Growth::Grows(longer)
    } else {
        Growth::Ends
    }
}

/// The first of two longer punctuators where the byte is `second`, the other where it is `=`.
fn with_second(byte: u8, second: u8, longer: Punct, other: Punct) -> Growth
    ensures { result ≡ with_second byte second longer other }
{
    if byte == second {
        Growth::Grows(longer)
    } else {
        with_equals(byte, other)
    }
}

/// What the byte makes of the punctuator directly before it.
pub fn growth(punct: Punct, byte: u8) -> Growth
    ensures { result ≡ growth punct byte }
{
    match punct {
        Punct::Dot => if byte == b'.' {
            Growth::Dots
        } else {
            Growth::Ends
        },
        Punct::And => with_second(byte, b'&', Punct::AndAnd, Punct::AndAssign),
        Punct::Star => with_equals(byte, Punct::StarAssign),
        Punct::Plus => with_second(byte, b'+', Punct::PlusPlus, Punct::PlusAssign),
        Punct::Minus => after_minus(byte),
        Punct::Bang => with_equals(byte, Punct::BangEq),
        Punct::Slash => after_slash(byte),
        Punct::Percent => with_equals(byte, Punct::PercentAssign),
        Punct::ShiftLeft => with_equals(byte, Punct::ShiftLeftAssign),
        Punct::ShiftRight => with_equals(byte, Punct::ShiftRightAssign),
        Punct::Less => with_second(byte, b'<', Punct::ShiftLeft, Punct::LessEq),
        Punct::Greater => with_second(byte, b'>', Punct::ShiftRight, Punct::GreaterEq),
        Punct::Caret => with_equals(byte, Punct::CaretAssign),
        Punct::Bar => with_second(byte, b'|', Punct::BarBar, Punct::BarAssign),
        Punct::Assign => with_equals(byte, Punct::EqEq),
        _ => Growth::Ends,
    }
}

fn after_minus(byte: u8) -> Growth
    ensures { result ≡ growth Punct.Minus byte }
{
    if byte == b'>' {
        Growth::Grows(Punct::Arrow)
    } else {
        with_second(byte, b'-', Punct::MinusMinus, Punct::MinusAssign)
    }
}

fn after_slash(byte: u8) -> Growth
    ensures { result ≡ growth Punct.Slash byte }
{
    match byte {
        b'*' => Growth::OpensBlock,
        b'/' => Growth::OpensLine,
        _ => with_equals(byte, Punct::SlashAssign),
    }
}
