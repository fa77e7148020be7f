//! Texts with their expressions, or with the place at which they have none.

use super::read::{expr_at, tokens_of};
use super::show::show;
use std::alloc::Global;
use std::process::Abort;
use std::test::Fail;

/// Each text begins with the expression that is shown, with the spans of its nodes, and then the index of the next
/// token.
const PHRASES: [(&str, &str); 30] = [
    ("7;", "7:0:1 next 1"),
    ("7LL;", "7L:0:3 next 1"),
    ("x", "x:0:1 next 1"),
    ("(x)", "x:1:2 next 3"),
    ("((x))", "x:2:3 next 5"),
    ("a[i]", "(a i:2:3):0:4 next 4"),
    (
        "a[i + 1][0] = 5",
        "(a (Add i:2:3 1:6:7):2:7 0:9:10):0:11 next 9",
    ),
    ("a - b - c", "(Sub (Sub a:0:1 b:4:5):0:5 c:8:9):0:9 next 5"),
    (
        "a - (b - c)",
        "(Sub a:0:1 (Sub b:5:6 c:9:10):5:10):0:11 next 7",
    ),
    ("(a) + b", "(Add a:1:2 b:6:7):0:7 next 5"),
    ("a + b * c", "(Add a:0:1 (Mul b:4:5 c:8:9):4:9):0:9 next 5"),
    ("a / b % c", "(Rem (Div a:0:1 b:4:5):0:5 c:8:9):0:9 next 5"),
    ("a < b + c", "(Lt a:0:1 (Add b:4:5 c:8:9):4:9):0:9 next 5"),
    (
        "a <= b == c >= d",
        "(Eq (Le a:0:1 b:5:6):0:6 (Ge c:10:11 d:15:16):10:16):0:16 next 7",
    ),
    (
        "a && b || c && d",
        "(Or (And a:0:1 b:5:6):0:6 (And c:10:11 d:15:16):10:16):0:16 next 7",
    ),
    (
        "a || b && c != d > e",
        "(Or a:0:1 (And b:5:6 (Ne c:10:11 (Gt d:15:16 e:19:20):15:20):10:20):5:20):0:20 next 9",
    ),
    ("- -1", "(Neg (Neg 1:3:4):2:4):0:4 next 3"),
    ("!a * b", "(Mul (Not a:1:2):0:2 b:5:6):0:6 next 4"),
    (
        "+a - -b",
        "(Sub (Plus a:1:2):0:2 (Neg b:6:7):5:7):0:7 next 5",
    ),
    ("(int) -x", "(int (Neg x:7:8):6:8):0:8 next 5"),
    (
        "(long long) a + b",
        "(Add (long a:12:13):0:13 b:16:17):0:17 next 7",
    ),
    (
        "(long long int)(int)a",
        "(long (int a:20:21):15:21):0:21 next 9",
    ),
    ("-(int)a", "(Neg (int a:6:7):1:7):0:7 next 5"),
    (
        "a ? b : c ? d : e",
        "(? a:0:1 b:4:5 (? c:8:9 d:12:13 e:16:17):8:17):0:17 next 9",
    ),
    (
        "a ? b ? c : d : e",
        "(? a:0:1 (? b:4:5 c:8:9 d:12:13):4:13 e:16:17):0:17 next 9",
    ),
    (
        "(a ? b : c) ? d : e",
        "(? (? a:1:2 b:5:6 c:9:10):1:10 d:14:15 e:18:19):0:19 next 11",
    ),
    (
        "a || b ? c : d",
        "(? (Or a:0:1 b:5:6):0:6 c:9:10 d:13:14):0:14 next 7",
    ),
    ("f(1)", "f:0:1 next 1"),
    ("a & b", "a:0:1 next 1"),
    ("x = 1", "x:0:1 next 1"),
];

/// Each text has no whole expression at its start, and this is its fault.
const FAULTS: [(&str, &str); 24] = [
    ("", "Syntax 0"),
    (";", "Syntax 0"),
    ("sizeof (int)", "Outside 0"),
    ("(x)[1]", "Syntax 3"),
    ("1[2]", "Syntax 1"),
    ("a + ;", "Syntax 4"),
    ("a + & b", "Outside 4"),
    ("a ? b ;", "Syntax 6"),
    ("a ? b : ", "Syntax 8"),
    ("(a", "Syntax 2"),
    ("(a ; b)", "Syntax 3"),
    ("(a & b)", "Outside 3"),
    ("a[", "Syntax 2"),
    ("a[1)", "Syntax 3"),
    ("a[]", "Syntax 2"),
    ("(int)", "Syntax 5"),
    ("(int x)", "Syntax 5"),
    ("(long) a", "Syntax 5"),
    ("(long int) a", "Syntax 6"),
    ("(long long long) a", "Syntax 11"),
    ("(float) a", "Outside 1"),
    ("if", "Syntax 0"),
    ("parallel + while", "Syntax 11"),
    ("(1 == print)", "Syntax 6"),
];

fn check_text(rt: &impl Abort, alloc: Global, text: &str, want: &str) -> Result<(), Fail> {
    let tokens = tokens_of(alloc, text.as_bytes())?;
    let shown = show(alloc, expr_at(rt, alloc, &tokens, 0))?;
    assert_eq!(rt; shown.as_str(), want, "of {text:?}");
    Ok(())
}

fn check(rt: &impl Abort, alloc: Global, table: &[(&str, &str)]) -> Result<(), Fail> {
    for (text, want) in table {
        check_text(rt, alloc, text, want)?;
    }
    Ok(())
}

#[test]
fn texts_begin_with_their_expressions(rt: HostRuntime) -> Result<(), Fail> {
    check(&rt, rt.alloc(), &PHRASES)
}

#[test]
fn a_fault_is_the_first_token_that_no_expression_has_there(rt: HostRuntime) -> Result<(), Fail> {
    check(&rt, rt.alloc(), &FAULTS)
}

#[test]
fn words_of_a_directive_line_are_outside_there_alone(rt: HostRuntime) -> Result<(), Fail> {
    let line = tokens_of(rt.alloc(), b"#pragma omp tile sizes(if)\nif;")?;
    let inside = show(rt.alloc(), expr_at(&rt, rt.alloc(), &line, 6))?;
    assert_eq!(rt; inside.as_str(), "Outside 23");
    let after = show(rt.alloc(), expr_at(&rt, rt.alloc(), &line, 9))?;
    assert_eq!(rt; after.as_str(), "Syntax 27");
    Ok(())
}
