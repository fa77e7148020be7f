//! What a byte can begin outside words, numbers and comments.

ghost use Rattle.std.specs.Prelude.{◌≡◌, ℕ, ◌||◌, ◌==◌};
ghost use Rattle.c_lexer.specs.Bytes.{is_blank, is_feed, begins_word, goes_in_word};
ghost use Rattle.c_lexer.specs.Classes.{class_of, class_of_mark};

use crate::token::Punct;

/// What a byte begins.
#[derive(Clone, Copy)]
pub enum Class {
    /// The line feed.
    Feed,

    /// White space within a line.
    Blank,
    Backslash,

    /// A letter or `_`.
    Letter,
    Digit,
    Hash,

    /// The punctuator that the byte spells.
    Punct(Punct),

    /// No piece of a text.
    Other,
}

/// Is the byte white space within a line (C11 6.4)?
pub fn is_blank(byte: u8) -> bool
    ensures { result ≡ is_blank byte }
{
    byte == b' ' || byte == b'\t' || byte == 0x0b || byte == 0x0c || byte == b'\r'
}

/// Can a word begin with the byte (C11 6.4.2.1)?
pub fn begins_word(byte: u8) -> bool
    ensures { result ≡ begins_word byte }
{
    byte.is_ascii_alphabetic() || byte == b'_'
}

/// Can a word go on with the byte?
pub fn goes_in_word(byte: u8) -> bool
    ensures { result ≡ goes_in_word byte }
{
    byte.is_ascii_alphanumeric() || byte == b'_'
}

/// What the byte begins.
pub fn class_of(byte: u8) -> Class
    ensures { result ≡ class_of byte }
{
    if byte == b'\n' {
        Class::Feed
    } else if is_blank(byte) {
        Class::Blank
    } else if byte == b'\\' {
        Class::Backslash
    } else if begins_word(byte) {
        Class::Letter
    } else if byte.is_ascii_digit() {
        Class::Digit
    } else if byte == b'#' {
        Class::Hash
    } else {
        class_of_mark(byte)
    }
}

/// The punctuator that the byte spells, if it is one.
fn class_of_mark(byte: u8) -> Class
    ensures { result ≡ class_of_mark byte }
{
    match byte {
        b'!' => Class::Punct(Punct::Bang),
        b'%' => Class::Punct(Punct::Percent),
        b'&' => Class::Punct(Punct::And),
        b'(' => Class::Punct(Punct::RoundOpen),
        b')' => Class::Punct(Punct::RoundClose),
        b'*' => Class::Punct(Punct::Star),
        b'+' => Class::Punct(Punct::Plus),
        b',' => Class::Punct(Punct::Comma),
        b'-' => Class::Punct(Punct::Minus),
        b'.' => Class::Punct(Punct::Dot),
        b'/' => Class::Punct(Punct::Slash),
        b':' => Class::Punct(Punct::Colon),
        b';' => Class::Punct(Punct::Semicolon),
        b'<' => Class::Punct(Punct::Less),
        b'=' => Class::Punct(Punct::Assign),
        b'>' => Class::Punct(Punct::Greater),
        b'?' => Class::Punct(Punct::Question),
        b'[' => Class::Punct(Punct::SquareOpen),
        b']' => Class::Punct(Punct::SquareClose),
        b'^' => Class::Punct(Punct::Caret),
        b'{' => Class::Punct(Punct::CurlyOpen),
        b'|' => Class::Punct(Punct::Bar),
        b'}' => Class::Punct(Punct::CurlyClose),
        b'~' => Class::Punct(Punct::Tilde),
        _ => Class::Other,
    }
}
