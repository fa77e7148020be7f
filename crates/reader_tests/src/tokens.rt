//! Texts with their tokens or their first fault, whole and in pieces.

ghost use Rattle.std.specs.Prelude.{◌≡◌, ◌<◌, ◌≤◌, ◌^◌, length, IfOk};

use c_lexer::lexer::{Lexer, lex};
use c_lexer::line_map::LineMap;
use c_lexer::token::{LexFault, Punct, Token, TokenKind};
use c_lexer::words::{Keyword, is_outside, keyword_of};
use c_tree::name::Name;
use c_tree::place::line_col;
use c_tree::tree::Ty;
use std::alloc::{AllocError, Global};
use std::process::Abort;
use std::test::Fail;

const WHITE_SPACE_AND_WORDS: [(&str, &str); 4] = [
    ("", ".:0:0"),
    ("int x;\n", "int:0:3 x:4:5 Semicolon:5:6 .:7:7"),
    ("_a9 \t\x0b\x0c b", "_a9:0:3 b:8:9 .:9:9"),
    ("a\r\nb\r\n", "a:0:1 b:3:4 .:6:6"),
];

const BYTES_THAT_BEGIN_NOTHING: [(&str, &str); 10] = [
    ("@", "BadByte 0"),
    ("a \"", "BadByte 2"),
    ("'", "BadByte 0"),
    ("$", "BadByte 0"),
    ("x\0", "BadByte 1"),
    ("\u{e9}", "BadByte 0"),
    ("a\\x", "BadByte 1"),
    ("a\\", "BadByte 1"),
    ("a\\\r", "BadByte 1"),
    ("x @ /*", "BadByte 2"),
];

const NUMBERS: [(&str, &str); 25] = [
    ("0", "0z:0:1 .:1:1"),
    ("00", "0:0:2 .:2:2"),
    ("0LL", "0L:0:3 .:3:3"),
    ("017", "15:0:3 .:3:3"),
    ("09", "BadNumber 0"),
    ("2147483647", "2147483647:0:10 .:10:10"),
    ("2147483648", "2147483648L:0:10 .:10:10"),
    ("9223372036854775807", "9223372036854775807L:0:19 .:19:19"),
    ("9223372036854775808", "BadNumber 0"),
    ("99999999999999999999999", "BadNumber 0"),
    ("0x7fffffff", "2147483647:0:10 .:10:10"),
    ("0x7fffffffLL", "2147483647L:0:12 .:12:12"),
    ("0x80000000", "BadNumber 0"),
    ("0x80000000LL", "2147483648L:0:12 .:12:12"),
    ("017777777777", "2147483647:0:12 .:12:12"),
    ("020000000000", "BadNumber 0"),
    ("0X1fll", "31L:0:6 .:6:6"),
    ("0xE+1", "BadNumber 0"),
    ("0x", "BadNumber 0"),
    ("1Ll", "BadNumber 0"),
    ("x = 1.5;", "BadNumber 4"),
    ("1e+5", "BadNumber 0"),
    ("12ab", "BadNumber 0"),
    ("3-x", "3:0:1 Minus:1:2 x:2:3 .:3:3"),
    (".5", "Dot:0:1 5:1:2 .:2:2"),
];

const PUNCTUATORS: [(&str, &str); 8] = [
    (
        "[ ] ( ) { } . -> ++ -- & * + - ~ ! / % << >> < > <= >= == != ^ | && || ? : ; ... = *= /= %= += -= <<= >>= &= ^= |= ,",
        "SquareOpen:0:1 SquareClose:2:3 RoundOpen:4:5 RoundClose:6:7 CurlyOpen:8:9 CurlyClose:10:11 Dot:12:13 Arrow:14:16 PlusPlus:17:19 MinusMinus:20:22 And:23:24 Star:25:26 Plus:27:28 Minus:29:30 Tilde:31:32 Bang:33:34 Slash:35:36 Percent:37:38 ShiftLeft:39:41 ShiftRight:42:44 Less:45:46 Greater:47:48 LessEq:49:51 GreaterEq:52:54 EqEq:55:57 BangEq:58:60 Caret:61:62 Bar:63:64 AndAnd:65:67 BarBar:68:70 Question:71:72 Colon:73:74 Semicolon:75:76 Ellipsis:77:80 Assign:81:82 StarAssign:83:85 SlashAssign:86:88 PercentAssign:89:91 PlusAssign:92:94 MinusAssign:95:97 ShiftLeftAssign:98:101 ShiftRightAssign:102:105 AndAssign:106:108 CaretAssign:109:111 BarAssign:112:114 Comma:115:116 .:116:116",
    ),
    ("a+++b", "a:0:1 PlusPlus:1:3 Plus:3:4 b:4:5 .:5:5"),
    ("->-=--", "Arrow:0:2 MinusAssign:2:4 MinusMinus:4:6 .:6:6"),
    ("<<=>>=", "ShiftLeftAssign:0:3 ShiftRightAssign:3:6 .:6:6"),
    ("..", "Dot:0:1 Dot:1:2 .:2:2"),
    ("..x", "Dot:0:1 Dot:1:2 x:2:3 .:3:3"),
    ("....", "Ellipsis:0:3 Dot:3:4 .:4:4"),
    ("..[", "Dot:0:1 Dot:1:2 SquareOpen:2:3 .:3:3"),
];

const COMMENTS: [(&str, &str); 16] = [
    ("int main(void) { /* x", "OpenComment 17"),
    ("/*/a", "OpenComment 0"),
    ("/***/a", "a:5:6 .:6:6"),
    ("a/**/b", "a:0:1 b:5:6 .:6:6"),
    ("/*@\"*/", ".:6:6"),
    ("/* a *\\\n/b", "b:9:10 .:10:10"),
    ("/* *\\\r\n\\\n/a", "a:10:11 .:11:11"),
    ("/**\\x/*/a", "a:8:9 .:9:9"),
    ("/**\\\r/*/a", "a:8:9 .:9:9"),
    ("/*\\\n*/a", "a:6:7 .:7:7"),
    ("// x", ".:4:4"),
    ("// x\ny", "y:5:6 .:6:6"),
    ("// x\\\ny\nz", "z:8:9 .:9:9"),
    ("// \\\\\ny", ".:7:7"),
    ("// \\\r\ny\nz", "z:8:9 .:9:9"),
    ("// \\\ry\nz", "z:7:8 .:8:8"),
];

const JOINS: [(&str, &str); 30] = [
    ("pr\\\nint(1);", "SplitToken 2"),
    ("a\\\nb", "SplitToken 1"),
    ("a\\\r\nb", "SplitToken 1"),
    ("1\\\n2", "SplitToken 1"),
    ("+\\\n+", "SplitToken 1"),
    ("a\\\n/b", "SplitToken 1"),
    ("a\\\n", "a:0:1 .:3:3"),
    ("a \\\nb", "a:0:1 b:4:5 .:5:5"),
    ("a\\\n b", "a:0:1 b:4:5 .:5:5"),
    ("a\\\n\nb", "a:0:1 b:4:5 .:5:5"),
    ("a\n\\\nb", "a:0:1 b:4:5 .:5:5"),
    ("\\\na", "a:2:3 .:3:3"),
    (" \\\r\nb", "b:4:5 .:5:5"),
    ("a\\\n/*c*/b", "a:0:1 b:8:9 .:9:9"),
    ("a\\\n//c", "a:0:1 .:6:6"),
    ("/**/\\\nb", "b:6:7 .:7:7"),
    ("a\\\n/* x", "OpenComment 3"),
    ("a\\\n\\\nb", "SplitToken 1"),
    ("a\\\n\\\n b", "a:0:1 b:6:7 .:7:7"),
    (" \\\n\\x", "BadByte 3"),
    ("a\\\n\\x", "SplitToken 1"),
    ("a\\\n\\\rx", "SplitToken 1"),
    ("a\\\nb @", "SplitToken 1"),
    ("/\\\n*x", "SplitToken 1"),
    ("/\\\n/*x*/", "SplitToken 1"),
    ("/\\\n//", "SplitToken 1"),
    ("/\\\nx", "SplitToken 1"),
    ("/ \\\n*", "Slash:0:1 Star:4:5 .:5:5"),
    ("/\\\n x", "Slash:0:1 x:4:5 .:5:5"),
    ("/\\\n", "Slash:0:1 .:3:3"),
];

/// A run of joins between each two kinds of neighbours: with white space, a line's end, a comment or an end of the text
/// on one side it is allowed, else it is a fault at its first backslash.
const NEIGHBOURS: [(&str, &str); 38] = [
    ("a\\\n1", "SplitToken 1"),
    ("a\\\n;", "SplitToken 1"),
    ("a\\\n#", "SplitToken 1"),
    ("a\\\n@", "SplitToken 1"),
    ("1\\\na", "SplitToken 1"),
    ("1\\\n;", "SplitToken 1"),
    ("1\\\n/", "SplitToken 1"),
    ("1\\\n ;", "1:0:1 Semicolon:4:5 .:5:5"),
    ("1\\\n", "1:0:1 .:3:3"),
    (";\\\na", "SplitToken 1"),
    (";\\\n1", "SplitToken 1"),
    ("<\\\n<", "SplitToken 1"),
    ("<\\\n\t<", "Less:0:1 Less:4:5 .:5:5"),
    (".\\\n..", "SplitToken 1"),
    ("..\\\n.", "SplitToken 2"),
    ("#\\\npragma", "SplitToken 1"),
    ("#\\\n pragma", "#:0:1 pragma:4:10 $:10:10 .:10:10"),
    ("#\\\n", "#:0:1 $:3:3 .:3:3"),
    ("a\t\\\n1", "a:0:1 1:4:5 .:5:5"),
    ("a\x0b\\\n;", "a:0:1 Semicolon:4:5 .:5:5"),
    ("a\x0c\\\n/b", "a:0:1 Slash:4:5 b:5:6 .:6:6"),
    ("a\r\\\nb", "a:0:1 b:4:5 .:5:5"),
    ("a \\\n#", "BadByte 4"),
    (" \\\n#a", "#:3:4 a:4:5 $:5:5 .:5:5"),
    ("a\n\\\n#b", "a:0:1 #:4:5 b:5:6 $:6:6 .:6:6"),
    ("\\\n/a", "Slash:2:3 a:3:4 .:4:4"),
    ("\\\n/*a*/b", "b:7:8 .:8:8"),
    ("\\\n", ".:2:2"),
    ("\\\r\n\\\n1", "1:5:6 .:6:6"),
    ("/**/\\\n1", "1:6:7 .:7:7"),
    ("/**/\\\n/**/", ".:10:10"),
    ("//\n\\\na", "a:5:6 .:6:6"),
    ("1\\\n//", "1:0:1 .:5:5"),
    (";\\\n/**/1", "Semicolon:0:1 1:7:8 .:8:8"),
    ("/ \\\n/a", "Slash:0:1 Slash:4:5 a:5:6 .:6:6"),
    ("/\\\n\\\n*", "SplitToken 1"),
    ("/\\\n;", "SplitToken 1"),
    ("/\\\r\n ;", "Slash:0:1 Semicolon:5:6 .:6:6"),
];

const WHOLE_TEXTS: [(&str, &str); 3] = [
    (
        "void print(long long);\nint main(void) {\npr\\\nint(1);\n}\n",
        "SplitToken 42",
    ),
    (
        "int main(void) {\n#pragma omp tile sizes(4\n",
        "int:0:3 main:4:8 RoundOpen:8:9 void:9:13 RoundClose:13:14 CurlyOpen:15:16 #:17:18 pragma:18:24 omp:25:28 tile:29:33 sizes:34:39 RoundOpen:39:40 4:40:41 $:41:41 .:42:42",
    ),
    (
        "#pragma omp tile \\\r\n  sizes(2)\r\n  ;\r\n",
        "#:0:1 pragma:1:7 omp:8:11 tile:12:16 sizes:22:27 RoundOpen:27:28 2:28:29 RoundClose:29:30 $:31:31 Semicolon:34:35 .:37:37",
    ),
];

const DIRECTIVE_LINES: [(&str, &str); 12] = [
    (
        "#pragma omp\nx",
        "#:0:1 pragma:1:7 omp:8:11 $:11:11 x:12:13 .:13:13",
    ),
    ("a #", "BadByte 2"),
    ("##", "BadByte 1"),
    ("a\n#", "a:0:1 #:2:3 $:3:3 .:3:3"),
    (
        "#define N \\\r\n 3\r\nx",
        "#:0:1 define:1:7 N:8:9 3:14:15 $:16:16 x:17:18 .:18:18",
    ),
    (" /* c\n */ #x", "#:10:11 x:11:12 $:12:12 .:12:12"),
    ("a /*\n*/ #", "BadByte 8"),
    ("x \\\n#", "BadByte 4"),
    ("#a // c\nb", "#:0:1 a:1:2 $:7:7 b:8:9 .:9:9"),
    ("#a+\nb", "#:0:1 a:1:2 Plus:2:3 $:3:3 b:4:5 .:5:5"),
    ("#..\nb", "#:0:1 Dot:1:2 Dot:2:3 $:3:3 b:4:5 .:5:5"),
    ("#1\n", "#:0:1 1:1:2 $:2:2 .:3:3"),
];

/// A token, as its spelling or its name, `z` after the spelling `0` and `L` after a `long long`, with its span.
fn show_token(shown: &mut String, token: &Token) -> Result<(), AllocError> {
    match &token.kind {
        TokenKind::Word(name) => show_name(shown, name)?,
        TokenKind::Number {
            value,
            ty,
            plain_zero,
        } => {
            write!(shown, "{value}")?;
            if *plain_zero {
                shown.push('z')?;
            }
            if *ty == Ty::Long {
                shown.push('L')?;
            }
        }
        TokenKind::Punct(punct) => write!(shown, "{punct:?}")?,
        TokenKind::Hash => shown.push('#')?,
        TokenKind::LineEnd => shown.push('$')?,
        TokenKind::End => shown.push('.')?,
    }
    let start = token.span.start;
    let end = token.span.end;
    write!(shown, ":{start}:{end}")
}

fn show_name(shown: &mut String, name: &Name) -> Result<(), AllocError> {
    for byte in name.bytes() {
        shown.push(char::from(*byte))?;
    }
    Ok(())
}

fn show_tokens(alloc: Global, tokens: &[Token]) -> Result<String, AllocError> {
    let mut shown = String::new(alloc);
    for (i, token) in tokens.iter().enumerate() {
        if i > 0 {
            shown.push(' ')?;
        }
        show_token(&mut shown, token)?;
    }
    Ok(shown)
}

fn show(alloc: Global, answer: Result<Vec<Token>, LexFault>) -> Result<String, AllocError> {
    match answer {
        Ok(tokens) => show_tokens(alloc, tokens.as_slice()),
        Err(LexFault::At(kind, place)) => format!(in alloc; "{kind:?} {place}"),
        Err(LexFault::Memory) => Err(AllocError),
    }
}

fn lex_bytes(alloc: Global, text: &[u8]) -> Result<Vec<Token>, LexFault>
    requires { length text.now < 2 ^ 63 }
{
    let mut lexer = Lexer::new(alloc);
    for i in 0..text.len() {
        lexer.feed(&text[i..i + 1])?;
    }
    lexer.finish()
}

fn lex_halves(alloc: Global, text: &[u8], cut: usize) -> Result<Vec<Token>, LexFault>
    requires fits { length text.now < 2 ^ 63 }
    requires within { cut ≤ length text.now }
{
    let mut lexer = Lexer::new(alloc);
    lexer.feed(&text[..cut])?;
    lexer.feed(&text[cut..])?;
    lexer.finish()
}

/// Each text of a table is answered alike as a whole, byte by byte, and cut in two at each place.
fn check(rt: &impl Abort, alloc: Global, table: &[(&str, &str)]) -> Result<(), Fail> {
    for (text, want) in table {
        let bytes = text.as_bytes();
        assert!(rt; bytes.len() < 1000);
        let whole = show(alloc, lex(alloc, bytes))?;
        assert_eq!(rt; whole.as_str(), *want, "of {text:?}");
        let single = show(alloc, lex_bytes(alloc, bytes))?;
        assert_eq!(rt; single.as_str(), *want, "of {text:?}, byte by byte");
        for cut in 0..bytes.len() + 1 {
            let halves = show(alloc, lex_halves(alloc, bytes, cut))?;
            assert_eq!(rt; halves.as_str(), *want, "of {text:?}, cut at {cut}");
        }
    }
    Ok(())
}

#[test]
fn texts_have_their_tokens_or_their_first_fault(rt: HostRuntime) -> Result<(), Fail> {
    check(&rt, rt.alloc(), &WHITE_SPACE_AND_WORDS)?;
    check(&rt, rt.alloc(), &BYTES_THAT_BEGIN_NOTHING)?;
    check(&rt, rt.alloc(), &NUMBERS)?;
    check(&rt, rt.alloc(), &PUNCTUATORS)?;
    check(&rt, rt.alloc(), &COMMENTS)?;
    check(&rt, rt.alloc(), &JOINS)?;
    check(&rt, rt.alloc(), &DIRECTIVE_LINES)?;
    check(&rt, rt.alloc(), &NEIGHBOURS)?;
    check(&rt, rt.alloc(), &WHOLE_TEXTS)?;
    Ok(())
}

fn map_bytes(alloc: Global, text: &[u8]) -> Result<LineMap, AllocError>
    requires { length text.now < 2 ^ 63 }
    ensures { IfOk result (λ map. map.count ≡ length text.now) }
{
    let mut map = LineMap::new(alloc);
    for i in 0..text.len() {
        map.room(&text[i..i + 1])?;
        map.feed(&text[i..i + 1]);
    }
    Ok(map)
}

fn map_whole(alloc: Global, text: &[u8]) -> Result<LineMap, AllocError>
    requires { length text.now < 2 ^ 63 }
    ensures { IfOk result (λ map. map.count ≡ length text.now) }
{
    let mut map = LineMap::new(alloc);
    map.room(text)?;
    map.feed(text);
    Ok(map)
}

#[test]
fn a_map_of_lines_tells_places_as_the_whole_text_does(rt: HostRuntime) -> Result<(), Fail> {
    let text = b"ab\n\ncd\r\n";
    let places = [
        (1, 1),
        (1, 2),
        (1, 3),
        (2, 1),
        (3, 1),
        (3, 2),
        (3, 3),
        (3, 4),
        (4, 1),
    ];
    let whole = map_whole(rt.alloc(), text)?;
    let single = map_bytes(rt.alloc(), text)?;
    for (i, want) in places.iter().enumerate() {
        assert!(rt; i <= 8);
        let place = i as u64;
        assert_eq!(rt; line_col(text, place), *want, "at {i}");
        assert_eq!(rt; whole.line_col(place), *want, "at {i}");
        assert_eq!(rt; single.line_col(place), *want, "at {i}, byte by byte");
    }
    Ok(())
}

#[test]
fn words_are_keywords_names_or_outside_the_profile(rt: HostRuntime) -> Result<(), Fail> {
    let words = [
        ("for", Some(Keyword::For), false, true),
        ("omp_fill", Some(Keyword::OmpFill), false, false),
        ("static", Some(Keyword::LeftOut), true, true),
        ("_Thread_local", Some(Keyword::LeftOut), true, true),
        ("parallel", None, true, true),
        ("nothing", None, true, true),
        ("tile", None, false, false),
        ("fo", None, false, false),
    ];
    for (word, keyword, outside, outside_directive) in words {
        assert_eq!(rt; keyword_of(word.as_bytes()), keyword, "of {word}");
        let kind = TokenKind::Word(Name::new(rt.alloc(), word.as_bytes())?);
        assert_eq!(rt; is_outside(&kind, false), outside, "of {word}");
        assert_eq!(rt; is_outside(&kind, true), outside_directive, "of {word}");
    }
    assert!(rt; is_outside(&TokenKind::Punct(Punct::Arrow), false));
    assert!(rt; !is_outside(&TokenKind::Punct(Punct::Star), true));
    assert!(rt; !is_outside(&TokenKind::End, true));
    Ok(())
}
