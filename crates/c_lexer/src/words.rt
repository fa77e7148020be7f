//! The keywords, and the words and punctuators that are outside the profile.

ghost use Rattle.std.specs.Prelude.{◌≡◌, ◌||◌, ◌&&◌, map, bytes_eq};
ghost use Rattle.c_lexer.specs.Words.{found_in, keyword_of, is_among, is_outside, is_outside_word, is_outside_anywhere, is_outside_directive, is_outside_punct};

use crate::token::{Punct, TokenKind};

/// A keyword. No other word is one.
#[derive(Clone, Copy, Debug, PartialEq, Eq)]
pub enum Keyword {
    Break,
    Continue,
    Do,
    Else,
    Extern,
    For,
    If,
    Input,
    Int,
    Long,
    Main,
    OmpFill,
    Print,
    Return,
    Void,
    While,

    /// A keyword of C11 (6.4.1) that the profile leaves out.
    LeftOut,
}

/// The keywords of the profile, and those of C11 that it leaves out.
const KEYWORDS: [(&[u8], Keyword); 48] = [
    (b"break", Keyword::Break),
    (b"continue", Keyword::Continue),
    (b"do", Keyword::Do),
    (b"else", Keyword::Else),
    (b"extern", Keyword::Extern),
    (b"for", Keyword::For),
    (b"if", Keyword::If),
    (b"input", Keyword::Input),
    (b"int", Keyword::Int),
    (b"long", Keyword::Long),
    (b"main", Keyword::Main),
    (b"omp_fill", Keyword::OmpFill),
    (b"print", Keyword::Print),
    (b"return", Keyword::Return),
    (b"void", Keyword::Void),
    (b"while", Keyword::While),
    (b"auto", Keyword::LeftOut),
    (b"case", Keyword::LeftOut),
    (b"char", Keyword::LeftOut),
    (b"const", Keyword::LeftOut),
    (b"default", Keyword::LeftOut),
    (b"double", Keyword::LeftOut),
    (b"enum", Keyword::LeftOut),
    (b"float", Keyword::LeftOut),
    (b"goto", Keyword::LeftOut),
    (b"inline", Keyword::LeftOut),
    (b"register", Keyword::LeftOut),
    (b"restrict", Keyword::LeftOut),
    (b"short", Keyword::LeftOut),
    (b"signed", Keyword::LeftOut),
    (b"sizeof", Keyword::LeftOut),
    (b"static", Keyword::LeftOut),
    (b"struct", Keyword::LeftOut),
    (b"switch", Keyword::LeftOut),
    (b"typedef", Keyword::LeftOut),
    (b"union", Keyword::LeftOut),
    (b"unsigned", Keyword::LeftOut),
    (b"volatile", Keyword::LeftOut),
    (b"_Alignas", Keyword::LeftOut),
    (b"_Alignof", Keyword::LeftOut),
    (b"_Atomic", Keyword::LeftOut),
    (b"_Bool", Keyword::LeftOut),
    (b"_Complex", Keyword::LeftOut),
    (b"_Generic", Keyword::LeftOut),
    (b"_Imaginary", Keyword::LeftOut),
    (b"_Noreturn", Keyword::LeftOut),
    (b"_Static_assert", Keyword::LeftOut),
    (b"_Thread_local", Keyword::LeftOut),
];

/// The words that are outside the profile wherever they stand.
const OUTSIDE: [&[u8]; 66] = [
    b"auto",
    b"case",
    b"char",
    b"const",
    b"default",
    b"double",
    b"enum",
    b"float",
    b"goto",
    b"inline",
    b"register",
    b"restrict",
    b"short",
    b"signed",
    b"sizeof",
    b"static",
    b"struct",
    b"switch",
    b"typedef",
    b"union",
    b"unsigned",
    b"volatile",
    b"_Alignas",
    b"_Alignof",
    b"_Atomic",
    b"_Bool",
    b"_Complex",
    b"_Generic",
    b"_Imaginary",
    b"_Noreturn",
    b"_Static_assert",
    b"_Thread_local",
    b"_Pragma",
    b"include",
    b"ifdef",
    b"ifndef",
    b"elif",
    b"endif",
    b"undef",
    b"line",
    b"error",
    b"stripe",
    b"nothing",
    b"parallel",
    b"sections",
    b"single",
    b"simd",
    b"loop",
    b"task",
    b"taskloop",
    b"target",
    b"teams",
    b"distribute",
    b"barrier",
    b"critical",
    b"atomic",
    b"collapse",
    b"ordered",
    b"schedule",
    b"private",
    b"firstprivate",
    b"lastprivate",
    b"shared",
    b"reduction",
    b"nowait",
    b"linear",
];

/// The words that are outside the profile on a `#` line.
const OUTSIDE_DIRECTIVE: [&[u8]; 5] = [b"if", b"else", b"for", b"while", b"do"];

fn same_word(a: &[u8], b: &[u8]) -> bool
    ensures { result ≡ bytes_eq a.now b.now }
{
    a == b
}

fn found_in(mut table: &[(&[u8], Keyword)], word: &[u8]) -> Option<Keyword>
    ensures { result ≡ found_in (map (λ entry. (entry.0.now, entry.1)) table.entry.now) word.now }
{
    while let [entry, rest @ ..] = table {
        if same_word(entry.0, word) {
            return Some(entry.1);
        }
        table = rest;
    }
    None
}

fn is_among(mut words: &[&[u8]], word: &[u8]) -> bool
    ensures { result ≡ is_among (map (λ entry. entry.now) words.entry.now) word.now }
{
    while let [entry, rest @ ..] = words {
        if same_word(entry, word) {
            return true;
        }
        words = rest;
    }
    false
}

/// The keyword that a word is, None where it is a name.
pub fn keyword_of(word: &[u8]) -> Option<Keyword>
    ensures { result ≡ keyword_of word.now }
{
    found_in(&KEYWORDS, word)
}

/// Is the word outside the profile? On a `#` line a few keywords are too.
pub fn is_outside_word(word: &[u8], on_directive_line: bool) -> bool
    ensures { result ≡ is_outside_word word.now on_directive_line }
{
    is_outside_anywhere(word) || (on_directive_line && is_outside_directive(word))
}

fn is_outside_anywhere(word: &[u8]) -> bool
    ensures { result ≡ is_outside_anywhere word.now }
{
    is_among(&OUTSIDE, word)
}

fn is_outside_directive(word: &[u8]) -> bool
    ensures { result ≡ is_outside_directive word.now }
{
    is_among(&OUTSIDE_DIRECTIVE, word)
}

/// Is the punctuator outside the profile?
pub fn is_outside_punct(punct: Punct) -> bool
    ensures { result ≡ is_outside_punct punct }
{
    match punct {
        Punct::Dot => true,
        Punct::Arrow => true,
        Punct::And => true,
        Punct::Bar => true,
        Punct::Caret => true,
        Punct::Tilde => true,
        Punct::ShiftLeft => true,
        Punct::ShiftRight => true,
        Punct::ShiftLeftAssign => true,
        Punct::ShiftRightAssign => true,
        Punct::AndAssign => true,
        Punct::BarAssign => true,
        Punct::CaretAssign => true,
        Punct::Ellipsis => true,
        _ => false,
    }
}

/// Is the token outside the profile?
pub fn is_outside(kind: &TokenKind, on_directive_line: bool) -> bool
    ensures { result ≡ is_outside kind.now on_directive_line }
{
    match kind {
        TokenKind::Word(name) => is_outside_word(name.bytes(), on_directive_line),
        TokenKind::Punct(punct) => is_outside_punct(*punct),
        _ => false,
    }
}
