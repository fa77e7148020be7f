//! The tokens of a text that are left to read, and what may be asked of the first of them.

ghost use Rattle.std.specs.Prelude.{◌≡◌, ◌∷◌, List, Option, Some, None, drop, length, cond, bytes_eq, ◌<◌, OnSome, IsTrue, ◌↔◌};
ghost use Rattle.pragma_grammar.specs.Reading.{EndsText};
ghost use Rattle.pragma_grammar.specs.Symbols.{symbol};
ghost use Rattle.c_grammar.specs.Goals.{take};
ghost use Rattle.c_parser.specs.Comes.{IsBlamed};
ghost use Rattle.c_parser.specs.Cursor.{class_of, class_at, class_of_word, class_of_name, IsFound, IsTaken, IsMayTaken, IsPlace};

use c_lexer::token::{Punct, Token, TokenKind};
use c_lexer::words::{Keyword, keyword_of};
use c_tree::tree::Span;
use pragma_grammar::blame::blamed;
use pragma_grammar::phrase::ParseFault;
use std::marker::Model;

/// A symbol that may be asked for at a fixed place.
#[derive(Clone, Copy, Debug, PartialEq, Eq)]
pub enum Class {
    RoundOpen,
    RoundClose,
    CurlyOpen,
    CurlyClose,
    SquareClose,
    Semicolon,
    Comma,
    Assign,
    Else,
    While,
    Void,
    Print,
    Input,
    Main,
    Int,
    Long,
    Return,
    Pragma,
    Omp,
    Define,
    LineEnd,
}

/// The class of a token, where it is of one.
fn class_at(token: &Token) -> Option<Class>
    ensures { result ≡ class_at (symbol token.now) }
{
    match &token.kind {
        TokenKind::Punct(punct) => match punct {
            Punct::RoundOpen => Some(Class::RoundOpen),
            Punct::RoundClose => Some(Class::RoundClose),
            Punct::CurlyOpen => Some(Class::CurlyOpen),
            Punct::CurlyClose => Some(Class::CurlyClose),
            Punct::SquareClose => Some(Class::SquareClose),
            Punct::Semicolon => Some(Class::Semicolon),
            Punct::Comma => Some(Class::Comma),
            Punct::Assign => Some(Class::Assign),
            _ => None,
        },
        TokenKind::Word(word) => class_of_word(word.bytes()),
        TokenKind::LineEnd => Some(Class::LineEnd),
        TokenKind::Number { .. } => None,
        TokenKind::Hash => None,
        TokenKind::End => None,
    }
}

fn class_of_word(word: &[u8]) -> Option<Class>
    ensures { result ≡ class_of_word word.now }
{
    match keyword_of(word) {
        None => class_of_name(word),
        Some(Keyword::Else) => Some(Class::Else),
        Some(Keyword::While) => Some(Class::While),
        Some(Keyword::Void) => Some(Class::Void),
        Some(Keyword::Print) => Some(Class::Print),
        Some(Keyword::Input) => Some(Class::Input),
        Some(Keyword::Main) => Some(Class::Main),
        Some(Keyword::Int) => Some(Class::Int),
        Some(Keyword::Long) => Some(Class::Long),
        Some(Keyword::Return) => Some(Class::Return),
        Some(_) => None,
    }
}

/// The words of a `#` line that are no keywords.
#[tactic(auto, unfolding(crate::specs::Cursor::class_of_name))]
fn class_of_name(word: &[u8]) -> Option<Class>
    ensures { result ≡ class_of_name word.now }
{
    if same_word(word, b"pragma") {
        Some(Class::Pragma)
    } else if same_word(word, b"omp") {
        Some(Class::Omp)
    } else if same_word(word, b"define") {
        Some(Class::Define)
    } else {
        None
    }
}

fn same_word(a: &[u8], b: &[u8]) -> bool
    ensures { result ≡ bytes_eq a.now b.now }
{
    a == b
}

fn same(a: Class, b: Class) -> bool
    ensures { IsTrue result ↔ (a ≡ b) }
{
    a == b
}

/// Is the token of the class?
fn is_of(class: Class, token: &Token) -> bool
    ensures { take (class_of class) (symbol token.now) ≡ cond result (Some token.now.span) None }
{
    match class_at(token) {
        Some(found) => same(found, class),
        None => false,
    }
}

/// The tokens of a text that are left to read, the last of which is End.
#[derive(Drop)]
pub struct Cursor<'t> {
    rest: &'t [Token],
}

impl<'t> Model for Cursor<'t> {
    ghost use Rattle.std.specs.Prelude.{List};
    ghost use Rattle.c_lexer.specs.declared.token.Token.{Token};
    ghost use Rattle.pragma_grammar.specs.Reading.{EndsText};

    ghost Value = { List Token };

    ghost view = { λ cursor. cursor.rest.now };

    ghost invariant = { λ cursor. EndsText cursor.rest.now };
}

impl<'t> Cursor<'t> {
    pub fn new(tokens: &'t [Token]) -> Cursor<'t>
        requires { EndsText tokens.now }
        ensures { result ≡ tokens.now }
    {
        Cursor { rest: tokens }
    }

    /// The first token.
    pub fn first(&self) -> &'t Token
        ensures first { self.now ≡ result.now ∷ drop 1 self.now }
        ensures ended { EndsText self.now }
    {
        &self.rest[0]
    }

    /// Takes the first token, which isn't the last one.
    pub fn advance(&mut self)
        requires { EndsText (drop 1 self.old) }
        ensures { self.new ≡ drop 1 self.old }
    {
        self.rest = &self.rest[1..];
    }

    /// Where the first token begins.
    pub fn place(&self) -> u64
        ensures { IsPlace self.now result }
    {
        self.first().span.start
    }

    /// The tokens that are left.
    pub fn tokens(&self) -> &'t [Token]
        ensures tokens { result.now ≡ self.now }
        ensures ended { EndsText result.now }
        ensures left { EndsText self.now }
    {
        self.rest
    }

    /// Takes the tokens before an index.
    pub fn skip(&mut self, next: usize)
        requires within { next < length self.old }
        requires ended { EndsText (drop next self.old) }
        ensures { self.new ≡ drop next self.old }
    {
        self.rest = &self.rest[next..];
    }

    /// The blame of the first token.
    pub fn blamed(&self) -> ParseFault
        ensures { IsBlamed self.now result }
    {
        blamed(self.rest, 0)
    }

    /// Takes the first token if it is of the class, and answers its place.
    fn found(&mut self, class: Class) -> Option<Span>
        ensures found { IsFound (class_of class) self.old result self.new }
        ensures ended { EndsText self.old }
    {
        let token = self.first();
        if is_of(class, token) {
            let span = token.span;
            self.advance();
            Some(span)
        } else {
            None
        }
    }

    /// Takes a token of the class, where one stands first.
    pub fn may(&mut self, class: Class) -> Option<Span>
        ensures taken { IsMayTaken (class_of class) self.old result self.new }
        ensures shorter { OnSome result (length self.new < length self.old) }
    {
        self.found(class)
    }

    /// Takes a token of the class, which has to stand first.
    pub fn take(&mut self, class: Class) -> Result<Span, ParseFault>
        ensures { IsTaken (class_of class) self.old result self.new }
    {
        match self.found(class) {
            Some(span) => Ok(span),
            None => Err(self.blamed()),
        }
    }
}
