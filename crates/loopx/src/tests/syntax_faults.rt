//! Texts that no program begins with: each with the place and the kind of the first token that can't stand there.

use super::{NOTHING_FAILS, answer_to, in_main};
use crate::status::Status;
use std::alloc::Global;
use std::process::Abort;
use std::test::Fail;

/// A text, and the position, with the kind, of its fault.
type Row = (&'static str, &'static str);

/// Defines, what the outside declares, variables of the file, and what stands for none of them.
const ITEMS: [Row; 38] = [
    ("#define 3\n", "1:9: Syntax"),
    ("#define N\n", "1:10: Syntax"),
    ("#define N x\n", "1:11: Syntax"),
    ("#define N - -1\n", "1:13: Syntax"),
    ("#define N (3\n", "1:13: Syntax"),
    ("#define N 3 4\n", "1:13: Syntax"),
    ("#define N 3;\n", "1:12: Syntax"),
    ("#undef N\n", "1:2: Outside"),
    ("#include <x>\n", "1:2: Outside"),
    ("#if 1\n", "1:2: Outside"),
    ("#pragma omp tile\n", "1:2: Syntax"),
    ("extern int x;", "1:8: Syntax"),
    ("extern void f(int);", "1:13: Syntax"),
    ("void print(int);", "1:12: Syntax"),
    ("void print(long x);", "1:17: Syntax"),
    ("void print(long long x, int y);", "1:23: Syntax"),
    ("void print(long long)\nint x;", "2:1: Syntax"),
    ("void print(void);", "1:12: Syntax"),
    ("long input(void);", "1:6: Syntax"),
    ("long long input(int);", "1:17: Syntax"),
    ("extern long long input;", "1:23: Syntax"),
    ("int a[];", "1:7: Syntax"),
    ("int a[3;", "1:8: Syntax"),
    ("int a[3] = 1;", "1:10: Syntax"),
    ("int x = ;", "1:9: Syntax"),
    ("int x = 1 = 2;", "1:11: Syntax"),
    ("int x y;", "1:7: Syntax"),
    ("int x,;", "1:7: Syntax"),
    ("int ;", "1:5: Syntax"),
    ("int print;", "1:5: Syntax"),
    ("int x = 1", "1:10: Syntax"),
    ("x;", "1:1: Syntax"),
    ("main() {}", "1:1: Syntax"),
    ("inline int x;", "1:1: Outside"),
    ("unsigned x;", "1:1: Outside"),
    ("int x;", "1:7: Syntax"),
    ("{}", "1:1: Syntax"),
    (";", "1:1: Syntax"),
];

/// Functions and `main`.
const FUNCTIONS: [Row; 24] = [
    ("static int f(void) {}", "1:8: Syntax"),
    ("static void main(void) {}", "1:13: Syntax"),
    ("static void f {}", "1:15: Syntax"),
    ("static void f(void, int x) {}", "1:19: Syntax"),
    ("static void f(int) {}", "1:18: Syntax"),
    ("static void f(int x,) {}", "1:21: Syntax"),
    ("static void f(int x[2]) {}", "1:20: Syntax"),
    ("static void f(long x) {}", "1:20: Syntax"),
    ("static void f(x) {}", "1:15: Syntax"),
    ("static void f(void);", "1:20: Syntax"),
    ("static void f(void) { return; }", "1:23: Syntax"),
    ("static void f(void) { return 0; }", "1:23: Syntax"),
    ("static void f(void) { static", "1:23: Outside"),
    ("static void f(void) {", "1:22: Syntax"),
    ("void f(void) {}", "1:6: Syntax"),
    ("int main", "1:9: Syntax"),
    ("int main(int argc) {}", "1:10: Syntax"),
    ("int main(void);", "1:15: Syntax"),
    ("int main(void) { return 1; }", "1:25: Syntax"),
    ("int main(void) { return 00; }", "1:25: Syntax"),
    ("int main(void) { return 0LL; }", "1:25: Syntax"),
    ("int main(void) { return 0; ; }", "1:28: Syntax"),
    ("int main(void) {}\nint x;", "2:1: Syntax"),
    ("int main(void) { static int x; }", "1:18: Outside"),
];

/// Declarations in `main`.
const DECLARATIONS: [Row; 12] = [
    ("int x = ;", "3:9: Syntax"),
    ("int = 1;", "3:5: Syntax"),
    ("int x 1;", "3:7: Syntax"),
    ("int x[2];", "3:6: Syntax"),
    ("int x = input;", "3:14: Syntax"),
    ("int x = input(1);", "3:15: Syntax"),
    ("int x = input() + 1;", "3:17: Syntax"),
    ("int x, ;", "3:8: Syntax"),
    ("int x = 1, 2;", "3:12: Syntax"),
    ("long x;", "3:6: Syntax"),
    ("long long long x;", "3:11: Syntax"),
    ("int long x;", "3:5: Syntax"),
];

/// Statements in `main`.
const STATEMENTS: [Row; 65] = [
    ("if x", "3:4: Syntax"),
    ("if () ;", "3:5: Syntax"),
    ("if (1 ;", "3:7: Syntax"),
    ("if (1) else ;", "3:8: Syntax"),
    ("if (1) int x;", "3:8: Syntax"),
    ("if (1) ; else int x;", "3:15: Syntax"),
    ("if (1) ; ; else ;", "3:12: Syntax"),
    ("if (1) ; else ; else ;", "3:17: Syntax"),
    ("if (1) ; else", "4:1: Syntax"),
    ("else ;", "3:1: Syntax"),
    ("while 1", "3:7: Syntax"),
    ("while () ;", "3:8: Syntax"),
    ("while (1) }", "3:11: Syntax"),
    ("while (1) int x;", "3:11: Syntax"),
    ("do ;", "4:1: Syntax"),
    ("do ; until", "3:6: Syntax"),
    ("do ; while 1;", "3:12: Syntax"),
    ("do ; while (1)", "4:1: Syntax"),
    ("do int x; while (1);", "3:4: Syntax"),
    ("for ;", "3:5: Syntax"),
    ("for (int i; ;) ;", "3:11: Syntax"),
    ("for (int i = 0, j = 0; ;) ;", "3:15: Syntax"),
    ("for (int i = input(); ;) ;", "3:14: Syntax"),
    ("for (i = 0) ;", "3:11: Syntax"),
    ("for (i = input(); ;) ;", "3:10: Syntax"),
    ("for (i; ;) ;", "3:7: Syntax"),
    ("for (print(1); ;) ;", "3:6: Syntax"),
    ("for (f(); ;) ;", "3:7: Syntax"),
    ("for (; int x;) ;", "3:8: Syntax"),
    ("for (; 1) ;", "3:9: Syntax"),
    ("for (; ; int i = 0) ;", "3:10: Syntax"),
    ("for (;;;) ;", "3:8: Syntax"),
    ("for (;; i++ ;", "3:13: Syntax"),
    ("for (;;) int x;", "3:10: Syntax"),
    ("break", "4:1: Syntax"),
    ("continue 1;", "3:10: Syntax"),
    ("print 1;", "3:7: Syntax"),
    ("print();", "3:7: Syntax"),
    ("print(1, 2);", "3:8: Syntax"),
    ("print(1;", "3:8: Syntax"),
    ("print(1)", "4:1: Syntax"),
    ("input();", "3:1: Syntax"),
    ("x;", "3:2: Syntax"),
    ("x + 1;", "3:3: Syntax"),
    ("x = ;", "3:5: Syntax"),
    ("x = 1, y = 2;", "3:6: Syntax"),
    ("x = y = 1;", "3:7: Syntax"),
    ("x += input();", "3:6: Syntax"),
    ("x[] = 1;", "3:3: Syntax"),
    ("x[1 = 1;", "3:5: Syntax"),
    ("x++ + 1;", "3:5: Syntax"),
    ("++x++;", "3:4: Syntax"),
    ("++;", "3:3: Syntax"),
    ("(x) = 1;", "3:1: Syntax"),
    ("1;", "3:1: Syntax"),
    ("f(1,);", "3:5: Syntax"),
    ("f(,);", "3:3: Syntax"),
    ("f(1", "4:1: Syntax"),
    ("f() + 1;", "3:5: Syntax"),
    ("x <<= 1;", "3:3: Outside"),
    ("goto x;", "3:1: Outside"),
    ("return 0; print(1);", "3:11: Syntax"),
    ("{ return 0; }", "3:3: Syntax"),
    ("{ ;", "5:1: Syntax"),
    ("}", "4:1: Syntax"),
];

/// Expressions in `main`.
const EXPRESSIONS: [Row; 30] = [
    ("print(1 +);", "3:10: Syntax"),
    ("print(* 1);", "3:7: Syntax"),
    ("print((1);", "3:10: Syntax"),
    ("print(1));", "3:9: Syntax"),
    ("print(());", "3:8: Syntax"),
    ("print(1 ? 2);", "3:12: Syntax"),
    ("print(1 ? : 3);", "3:11: Syntax"),
    ("print(1 ? 2 : );", "3:15: Syntax"),
    ("print((int));", "3:12: Syntax"),
    ("print((long) 1);", "3:12: Syntax"),
    ("print((int long) 1);", "3:12: Syntax"),
    ("print(1 2);", "3:9: Syntax"),
    ("print((x)[1]);", "3:10: Syntax"),
    ("print(1[2]);", "3:8: Syntax"),
    ("print(a[1);", "3:10: Syntax"),
    ("print(a[]);", "3:9: Syntax"),
    ("print(-);", "3:8: Syntax"),
    ("print(!);", "3:8: Syntax"),
    ("print(--x);", "3:7: Syntax"),
    ("print(int);", "3:7: Syntax"),
    ("print(x++);", "3:8: Syntax"),
    ("print(input());", "3:7: Syntax"),
    ("print(f());", "3:8: Syntax"),
    ("print(1 = 2);", "3:9: Syntax"),
    ("print(1 == );", "3:12: Syntax"),
    ("print(1, 2);", "3:8: Syntax"),
    ("x = 1 & 2;", "3:7: Outside"),
    ("x = ~1;", "3:5: Outside"),
    ("x = y.z;", "3:6: Outside"),
    ("x = sizeof (int);", "3:5: Outside"),
];

/// Directives in `main`, and what they are applied to.
const DIRECTIVES: [Row; 26] = [
    ("#pragma omp", "3:12: Syntax"),
    ("#pragma once", "3:9: Syntax"),
    ("#define M 3", "3:2: Syntax"),
    ("#include <x>", "3:2: Outside"),
    ("#pragma omp for", "3:13: Outside"),
    ("#pragma omp nothing", "3:13: Outside"),
    ("#pragma omp tile,", "3:18: Syntax"),
    ("#pragma omp tile sizes", "3:23: Syntax"),
    ("#pragma omp tile sizes()", "3:24: Syntax"),
    ("#pragma omp tile sizes(2 4)", "3:26: Syntax"),
    ("#pragma omp tile sizes(2,)", "3:26: Syntax"),
    ("#pragma omp tile sizes(2) 3", "3:27: Syntax"),
    ("#pragma omp tile permutation(1", "3:31: Syntax"),
    ("#pragma omp unroll partial()", "3:28: Syntax"),
    ("#pragma omp unroll full(2)", "3:24: Syntax"),
    ("#pragma omp fuse looprange(1)", "3:29: Syntax"),
    ("#pragma omp fuse looprange(1, 2, 3)", "3:32: Syntax"),
    ("#pragma omp split counts(omp_fill + 1)", "3:35: Syntax"),
    ("#pragma omp tile sizes(omp_fill)", "3:24: Syntax"),
    ("#pragma omp tile apply()", "3:24: Syntax"),
    ("#pragma omp tile apply(grid:)", "3:29: Syntax"),
    ("#pragma omp tile apply(grid(1) reverse)", "3:32: Syntax"),
    ("#pragma omp tile apply(nothing reverse)", "3:32: Syntax"),
    ("#pragma omp reverse\nint x;", "4:1: Syntax"),
    ("#pragma omp reverse", "4:1: Syntax"),
    ("#pragma omp stripe sizes(2)\n;", "3:13: Outside"),
];

/// The line that tells a fault at the position, of the kind.
fn line_of(alloc: Global, fault: &str) -> Result<String, Fail> {
    let text = if fault.ends_with("Outside") {
        "not in this profile"
    } else {
        "unexpected token"
    };
    Ok(format!(in alloc; "{fault} {text}\n")?)
}

/// The text is refused with the fault.
fn is_refused(rt: &impl Abort, alloc: Global, text: &str, fault: &str) -> Result<(), Fail> {
    let got = answer_to(alloc, &["translate"], text.as_bytes(), &NOTHING_FAILS)?;
    let line = line_of(alloc, fault)?;
    assert_eq!(rt; got.status, Status::Refused, "{text}");
    assert_eq!(rt; got.diag.as_slice(), line.as_bytes(), "{text}");
    assert_eq!(rt; got.out.len(), 0, "{text}");
    Ok(())
}

fn are_refused(rt: &impl Abort, alloc: Global, rows: &[Row]) -> Result<(), Fail> {
    for (text, fault) in rows {
        is_refused(rt, alloc, text, fault)?;
    }
    Ok(())
}

fn are_refused_in_main(rt: &impl Abort, alloc: Global, rows: &[Row]) -> Result<(), Fail> {
    for (lines, fault) in rows {
        let text = in_main(alloc, lines)?;
        is_refused(rt, alloc, text.as_str(), fault)?;
    }
    Ok(())
}

#[test]
fn blames_the_first_token_that_no_item_has_there(rt: HostRuntime) -> Result<(), Fail> {
    are_refused(&rt, rt.alloc(), &ITEMS)
}

#[test]
fn blames_the_first_token_that_no_function_has_there(rt: HostRuntime) -> Result<(), Fail> {
    are_refused(&rt, rt.alloc(), &FUNCTIONS)
}

#[test]
fn blames_the_first_token_that_no_declaration_has_there(rt: HostRuntime) -> Result<(), Fail> {
    are_refused_in_main(&rt, rt.alloc(), &DECLARATIONS)
}

#[test]
fn blames_the_first_token_that_no_statement_has_there(rt: HostRuntime) -> Result<(), Fail> {
    are_refused_in_main(&rt, rt.alloc(), &STATEMENTS)
}

#[test]
fn blames_the_first_token_that_no_expression_has_there(rt: HostRuntime) -> Result<(), Fail> {
    are_refused_in_main(&rt, rt.alloc(), &EXPRESSIONS)
}

#[test]
fn blames_the_first_token_that_no_directive_has_there(rt: HostRuntime) -> Result<(), Fail> {
    are_refused_in_main(&rt, rt.alloc(), &DIRECTIVES)
}
