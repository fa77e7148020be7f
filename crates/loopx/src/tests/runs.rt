//! Programs that are run.

use super::translations::{KERNEL, PLAIN};
use super::{NOTHING_FAILS, answer_to, in_main};
use crate::status::Status;
use std::alloc::Global;
use std::process::Abort;
use std::test::Fail;

/// A text, what its run prints, what is told of it, and the answer.
type Row = (&'static str, &'static str, &'static str, Status);

/// Lines of `main`, run with a bound of 100 and no input.
const LINES: [Row; 9] = [
    ("int x; print(x);", "", "trap Unset\n", Status::Trapped),
    (
        "print(2147483647 + 1);",
        "",
        "trap Overflow\n",
        Status::Trapped,
    ),
    ("print(2147483647 + 1LL);", "2147483648\n", "", Status::Done),
    (
        "int x = 4000000000LL;",
        "",
        "trap Narrow\n",
        Status::Trapped,
    ),
    (
        "print(-7 / 2); print(-7 % 2);",
        "-3\n-1\n",
        "",
        Status::Done,
    ),
    (
        "int z = 0; print(1 / z);",
        "",
        "trap DivideByZero\n",
        Status::Trapped,
    ),
    ("print(3);\nwhile (1) ;", "3\n", "cut\n", Status::Cut),
    (
        "for (int i = 0; i < 3; i++) { if (i == 1) continue; print(i); }",
        "0\n2\n",
        "",
        Status::Done,
    ),
    (
        "int i = 9; do { i--; if (i < 6) break; print(i); } while (i);",
        "8\n7\n6\n",
        "",
        Status::Done,
    ),
];

/// Whole texts, run with a bound of 100 and the input 21.
const TEXTS: [Row; 9] = [
    (
        "void print(long long);\nint a[2];\nint main(void) { print(a[2]); }",
        "",
        "trap Index\n",
        Status::Trapped,
    ),
    (
        "void print(long long);\nlong long input(void);\nint main(void) { int n = input(); print(n + n); n = input(); }",
        "42\n",
        "trap InputEnd\n",
        Status::Trapped,
    ),
    (
        "void print(long long);\nint s;\nstatic void add(int x, long long y) { s += x; print(y + s); }\nint main(void) { add(2, 40); add(3, 1); }",
        "42\n6\n",
        "",
        Status::Done,
    ),
    (
        "void print(long long);\nstatic void f(int x) { print(x); }\nint main(void) { f(2147483648); }",
        "",
        "trap Narrow\n",
        Status::Trapped,
    ),
    (
        "void print(long long);\nstatic void f(int k) { int x; if (k) x = k; print(x); }\nint main(void) { f(7); f(0); }",
        "7\n",
        "trap Unset\n",
        Status::Trapped,
    ),
    (
        "void print(long long);\nint x = 1;\nstatic void g(int y) { x += y; print(x); }\nstatic void f(int x) { g(x); x++; g(x); print(x); }\nint main(void) { int y = 5; f(y); print(y); print(x); }",
        "6\n12\n6\n5\n12\n",
        "",
        Status::Done,
    ),
    (
        "void print(long long);\nstatic void leaf(long long n) { long long m = n; m *= 2; print(m); }\nstatic void up(int n) { int m = n + 1; leaf(m); print(m); leaf(n); }\nint main(void) { int m = 3; for (int i = 0; i < 2; i++) { up(i); leaf(m); } print(m); }",
        "2\n1\n0\n6\n4\n2\n2\n6\n3\n",
        "",
        Status::Done,
    ),
    (
        "#define A 3\nvoid print(long long);\nint a[A];\n#define B (-4)\nint b[2];\nstatic void f(void) { a[2] = B; }\n#define C 5\nint main(void) { f(); print(a[2]); print(A + B + C); }",
        "-4\n4\n",
        "",
        Status::Done,
    ),
    (
        "void print(long long);\nint x = 1;\nint main(void) { { int x = 2; x++; print(x); } x += 4; print(x); }",
        "3\n5\n",
        "",
        Status::Done,
    ),
];

fn runs(rt: &impl Abort, alloc: Global, text: &str, row: &Row) -> Result<(), Fail> {
    let got = answer_to(
        alloc,
        &["run", "100", "21"],
        text.as_bytes(),
        &NOTHING_FAILS,
    )?;
    assert_eq!(rt; got.out.as_slice(), row.1.as_bytes(), "{text}");
    assert_eq!(rt; got.diag.as_slice(), row.2.as_bytes(), "{text}");
    assert_eq!(rt; got.status, row.3, "{text}");
    Ok(())
}

#[test]
fn prints_traps_and_is_cut_as_lines_of_main_mean(rt: HostRuntime) -> Result<(), Fail> {
    for row in &LINES {
        let text = in_main(rt.alloc(), row.0)?;
        runs(&rt, rt.alloc(), text.as_str(), row)?;
    }
    Ok(())
}

#[test]
fn runs_whole_texts_on_their_input(rt: HostRuntime) -> Result<(), Fail> {
    for row in &TEXTS {
        runs(&rt, rt.alloc(), row.0, row)?;
    }
    Ok(())
}

/// Each loop of the kernel takes 16 turns.
#[test]
fn runs_a_kernel_and_is_cut_at_a_lower_bound(rt: HostRuntime) -> Result<(), Fail> {
    for (bound, text, printed, status) in [
        ("100", PLAIN, "6\n", Status::Done),
        ("16", KERNEL, "1240\n-2360\n", Status::Done),
        ("15", KERNEL, "", Status::Cut),
    ] {
        let got = answer_to(rt.alloc(), &["run", bound], text, &NOTHING_FAILS)?;
        assert_eq!(rt; got.out.as_slice(), printed.as_bytes(), "at {bound}");
        assert_eq!(rt; got.status, status, "at {bound}");
    }
    Ok(())
}
