//! Texts whose directives are all `reverse`: they run as their order says, and so do their translations.

use super::{Answer, answer_at_once, in_main, word_list};
use crate::status::Status;
use std::alloc::{AllocError, Global};
use std::process::Abort;
use std::test::Fail;

/// A piece of `main`, what it prints, and what is told of the run.
type Row = (&'static str, &'static str, &'static str);

/// Heads of reversed loops that print their variable.
const HEADS: [Row; 34] = [
    ("int i = 0; i < 4; ++i", "3\n2\n1\n0\n", ""),
    ("int i = 1; i <= 4; i++", "4\n3\n2\n1\n", ""),
    ("int i = 4; i > 0; i--", "1\n2\n3\n4\n", ""),
    ("int i = 3; i >= 0; --i", "0\n1\n2\n3\n", ""),
    ("int i = 2; i != 5; ++i", "4\n3\n2\n", ""),
    ("int i = 5; i != 2; i--", "3\n4\n5\n", ""),
    ("int i = 0; 10 > i; i += 3", "9\n6\n3\n0\n", ""),
    ("int i = 0; i <= 9; i = 3 + i", "9\n6\n3\n0\n", ""),
    ("int i = 20; i > -5; i -= 7", "-1\n6\n13\n20\n", ""),
    ("int i = 20; -1 <= i; i = i - 7", "-1\n6\n13\n20\n", ""),
    ("int i = 20; i >= 0; i += -7", "6\n13\n20\n", ""),
    ("int i = 0; i < N; i += N - 1", "2\n0\n", ""),
    ("int i = 5; i < 5; i++", "", ""),
    ("int i = 5; i <= 4; i++", "", ""),
    ("int i = 3; i > 5; i--", "", ""),
    (
        "int i = 2147483645; i < 2147483647; i++",
        "2147483646\n2147483645\n",
        "",
    ),
    (
        "int i = 2147483646; i <= 2147483647; i++",
        "2147483647\n2147483646\n",
        "",
    ),
    (
        "int i = -2147483647; i >= -2147483647 - 1; i--",
        "-2147483648\n-2147483647\n",
        "",
    ),
    (
        "int i = -2147483647 - 1; i <= 2147483647; i += 1073741824",
        "1073741824\n0\n-1073741824\n-2147483648\n",
        "",
    ),
    (
        "int i = -2147483647 - 1; i < 2147483647; i += 2147483647",
        "2147483646\n-1\n-2147483648\n",
        "",
    ),
    (
        "long long i = 9223372036854775805; i < 9223372036854775807; i++",
        "9223372036854775806\n9223372036854775805\n",
        "",
    ),
    (
        "long long i = 9223372036854775806; i <= 9223372036854775807; i++",
        "9223372036854775807\n9223372036854775806\n",
        "",
    ),
    (
        "long long i = -9223372036854775807 - 1; i < -9223372036854775806; i++",
        "-9223372036854775807\n-9223372036854775808\n",
        "",
    ),
    (
        "long long i = -9223372036854775807; i >= -9223372036854775807 - 1; i--",
        "-9223372036854775808\n-9223372036854775807\n",
        "",
    ),
    (
        "long long i = 9223372036854775807; i >= 0; i -= 9223372036854775807",
        "0\n9223372036854775807\n",
        "",
    ),
    // A distance or a count above 2^63 - 1.
    (
        "long long i = -1; i < 9223372036854775807; i += 9223372036854775807",
        "",
        "trap Overflow\n",
    ),
    (
        "long long i = -9223372036854775807 - 1; i < 9223372036854775807; i++",
        "",
        "trap Overflow\n",
    ),
    (
        "long long i = 0; i <= 9223372036854775807; i++",
        "",
        "trap Overflow\n",
    ),
    // Bounds that trap, or don't fit the variable's type.
    ("int i = 0; i < 1 / zero; i++", "", "trap DivideByZero\n"),
    ("int i = a[4]; i < 9; i++", "", "trap Index\n"),
    ("int i = 0; i < unset; i++", "", "trap Unset\n"),
    ("int i = 2147483648; i < 3; i++", "", "trap Narrow\n"),
    ("int i = 0; i < 3000000000; i++", "", "trap Narrow\n"),
    ("int i = a[-1]; i < 1 / zero; i++", "", "trap Index\n"),
];

/// Where reversed loops may stand, and what may stand in them.
const PLACES: [Row; 21] = [
    (
        "#pragma omp reverse\n#pragma omp reverse\nfor (int i = 0; i < 3; i++) print(i);",
        "0\n1\n2\n",
        "",
    ),
    (
        "#pragma omp reverse\n#pragma omp reverse\n#pragma omp reverse\nfor (int i = 0; i < 3; i++) print(i);",
        "2\n1\n0\n",
        "",
    ),
    (
        "#pragma omp reverse\n{ {\n#pragma omp reverse\n{ for (int i = 0; i < 3; i++) print(i); }\n} }",
        "0\n1\n2\n",
        "",
    ),
    (
        "#pragma omp reverse\nfor (int i = 0; i < 2; i++) {\n#pragma omp reverse\nfor (int j = 0; j < 3; j++) print(10 * i + j);\n}",
        "12\n11\n10\n2\n1\n0\n",
        "",
    ),
    (
        "#pragma omp reverse\nfor (int i = 0; i < 2; i++) {\nfor (int j = 0; j < 2; j++) print(10 * i + j);\n#pragma omp reverse\nfor (int j = i; j < 2; j++) print(10 * i + j);\n}",
        "10\n11\n11\n0\n1\n1\n0\n",
        "",
    ),
    (
        "for (int i = 0; i < 2; i++)\n#pragma omp reverse\nfor (int j = 0; j <= i; j++) print(10 * i + j);",
        "0\n11\n10\n",
        "",
    ),
    ("down(3); down(0); down(2);", "2\n1\n0\n1\n0\n", ""),
    (
        "#pragma omp reverse\nfor (int n = 1; n < 4; n++) down(n);",
        "2\n1\n0\n1\n0\n0\n",
        "",
    ),
    (
        "int k = 2;\nwhile (k) {\nk--;\nif (k)\n#pragma omp reverse\nfor (int i = 0; i < 3; i++) print(i + k);\nelse\n#pragma omp reverse\nfor (int i = 5; i < 7; i++) print(i);\n}",
        "3\n2\n1\n6\n5\n",
        "",
    ),
    (
        "int k = 0;\ndo {\n#pragma omp reverse\nfor (int i = 0; i < 2; i++) print(i - k);\nk++;\n} while (k < 2);",
        "1\n0\n0\n-1\n",
        "",
    ),
    (
        "#pragma omp reverse\nfor (int i = 1; i < 4; i++) a[i] = a[i - 1] + i;\nfor (int i = 1; i < 4; i++) print(a[i]);",
        "1\n2\n3\n",
        "",
    ),
    (
        "#pragma omp reverse\nfor (int i = 0; i < 5; i++) { if (i % 2) continue; print(i); }",
        "4\n2\n0\n",
        "",
    ),
    (
        "#pragma omp reverse\nfor (int i = 0; i < 2; i++) while (1) { print(i); if (i < 9) break; }",
        "1\n0\n",
        "",
    ),
    (
        "int i = 9;\n#pragma omp reverse\nfor (int i = 0; i < 2; i++) print(i);\nprint(i);",
        "1\n0\n9\n",
        "",
    ),
    (
        "int omp_t0 = 7;\n#pragma omp reverse\nfor (int omp_t1 = 0; omp_t1 < omp_t3; omp_t1++) { long long omp_t5 = omp_t0; print(omp_t1 + omp_t5); }",
        "8\n7\n",
        "",
    ),
    (
        "int n = input();\n#pragma omp reverse\nfor (int i = 0; i < n; i++) { int x = input(); print(10 * i + x); }",
        "24\n15\n",
        "trap InputEnd\n",
    ),
    (
        "print(1);\n#pragma omp reverse\nfor (long long i = -9223372036854775807LL - 1LL; i <= 9223372036854775807LL; i++) print(i);",
        "1\n",
        "trap Overflow\n",
    ),
    (
        "print(7);\n#pragma omp reverse\nfor (int i = 0; i < 3; i++) { print(i); if (i == 1) zero = 1 / zero; }",
        "7\n2\n1\n",
        "trap DivideByZero\n",
    ),
    (
        "#pragma omp reverse\nfor (int i = 0; i < 3; i++) { print(i); while (i == 1) ; }",
        "2\n1\n",
        "cut\n",
    ),
    // A hundred turns are the most; the bound is tested where the next one is due.
    (
        "int s = 0;\n#pragma omp reverse\nfor (int i = 0; i < 100; i++) s = i;\nprint(s);",
        "0\n",
        "",
    ),
    (
        "#pragma omp reverse\nfor (int i = 0; i < 101; i++) if (i == 1) print(i);",
        "1\n",
        "cut\n",
    ),
];

/// Directives with items, and stacks with such.
const ITEMS: [Row; 18] = [
    (
        "#pragma omp reverse apply(nothing)\nfor (int i = 0; i < 3; i++) print(i);",
        "2\n1\n0\n",
        "",
    ),
    (
        "#pragma omp reverse apply(reversed: nothing)\nfor (int i = 0; i < 3; i++) print(i);",
        "2\n1\n0\n",
        "",
    ),
    (
        "#pragma omp reverse apply(reverse)\nfor (int i = 0; i < 3; i++) print(i);",
        "0\n1\n2\n",
        "",
    ),
    (
        "#pragma omp reverse apply(reversed: reverse)\nfor (int i = 0; i < 3; i++) print(i);",
        "0\n1\n2\n",
        "",
    ),
    (
        "#pragma omp reverse apply(reversed(N - 2): reverse)\nfor (int i = 0; i < 3; i++) print(i);",
        "0\n1\n2\n",
        "",
    ),
    (
        "#pragma omp reverse apply(reverse apply(reverse))\nfor (int i = 0; i < 3; i++) print(i);",
        "2\n1\n0\n",
        "",
    ),
    (
        "#pragma omp reverse apply(reverse apply(nothing))\nfor (int i = 0; i < 3; i++) print(i);",
        "0\n1\n2\n",
        "",
    ),
    (
        "#pragma omp reverse apply(reversed: reverse)\n#pragma omp reverse\nfor (int i = 0; i < 3; i++) print(i);",
        "2\n1\n0\n",
        "",
    ),
    (
        "#pragma omp reverse\n#pragma omp reverse apply(reversed: reverse)\nfor (int i = 0; i < 3; i++) print(i);",
        "2\n1\n0\n",
        "",
    ),
    (
        "#pragma omp reverse\n{ {\n#pragma omp reverse apply(reverse apply(reverse apply(reverse)))\n{ for (int i = 0; i < 3; i++) print(i); }\n} }",
        "2\n1\n0\n",
        "",
    ),
    (
        "#pragma omp reverse apply(reverse apply(reverse apply(reverse)))\n#pragma omp reverse apply(reverse)\nfor (int i = 0; i < 3; i++) print(i);",
        "0\n1\n2\n",
        "",
    ),
    (
        "#pragma omp reverse apply(nothing) apply(reverse)\nfor (int i = 0; i < 3; i++) print(i);",
        "0\n1\n2\n",
        "",
    ),
    (
        "#pragma omp reverse apply(reverse)\nfor (int i = 0; i < 2; i++) {\n#pragma omp reverse\nfor (int j = 0; j < 2; j++) print(10 * i + j);\n#pragma omp reverse apply(reverse)\nfor (int j = i; j < 2; j++) print(10 * i + j);\n}",
        "1\n0\n0\n1\n11\n10\n11\n",
        "",
    ),
    (
        "#pragma omp reverse apply(reverse)\nfor (int i = 0; i < 5; i++) { if (i % 2) continue; print(i); }",
        "0\n2\n4\n",
        "",
    ),
    (
        "#pragma omp reverse\nfor (int i = 0; i < 3; i++) {\n#pragma omp reverse\nfor (int j = 0; j < 3; j++) { if (j == i) continue; print(10 * i + j); }\nif (i == 1) continue;\nprint(i);\n}",
        "21\n20\n2\n12\n10\n2\n1\n0\n",
        "",
    ),
    (
        "int n = input();\n#pragma omp reverse apply(reverse)\nfor (int i = 0; i < n; i++) { int x = input(); print(10 * i + x); }",
        "4\n15\n",
        "trap InputEnd\n",
    ),
    (
        "print(7);\n#pragma omp reverse apply(reverse)\nfor (int i = 0; i < 3; i++) { print(i); if (i == 1) zero = 1 / zero; }",
        "7\n0\n1\n",
        "trap DivideByZero\n",
    ),
    (
        "#pragma omp reverse apply(reverse)\nfor (int i = 0; i < 101; i++) if (i == 99) print(i);",
        "99\n",
        "cut\n",
    ),
];

/// Loops over a variable that stands outside, and what it is worth afterwards.
const OUTER: [Row; 13] = [
    (
        "int i = 9;\n#pragma omp reverse\nfor (i = 0; i < 3; i++) print(i);\nprint(i);",
        "2\n1\n0\n9\n",
        "",
    ),
    (
        "int omp_t0 = 9; int i = 9;\n#pragma omp reverse\nfor (i = 0; i < 2; i++) print(i + omp_t0);\nprint(i);",
        "10\n9\n9\n",
        "",
    ),
    (
        "int i;\n#pragma omp reverse\nfor (i = 0; i < 2; i++) print(i);\nprint(i);",
        "1\n0\n",
        "trap Unset\n",
    ),
    (
        "#pragma omp reverse\nfor (zero = 5; zero < 7; zero++) print(zero);\nprint(zero);",
        "6\n5\n0\n",
        "",
    ),
    ("over(7, 3); over(-9, 0);", "1\n3\n7\n-2\n0\n-9\n", ""),
    (
        "int i = 9;\n#pragma omp reverse apply(reverse)\nfor (i = 2; i <= 8; i += 3) print(i);\nprint(i);",
        "2\n5\n8\n9\n",
        "",
    ),
    (
        "int i = 9;\n#pragma omp reverse\nfor (i = 3; i <= 2; i++) print(i);\nprint(i);",
        "9\n",
        "",
    ),
    (
        "int k = 2, i = 9;\nwhile (k) {\n#pragma omp reverse apply(reverse)\nfor (i = 0; i < k; i++) print(i);\nk--;\n}\nprint(i);",
        "0\n1\n0\n9\n",
        "",
    ),
    (
        "int i = 5, j = 6;\n#pragma omp reverse\nfor (i = 0; i < 2; i++) {\n#pragma omp reverse\nfor (j = i; j < 3; j++) print(10 * i + j);\nprint(j);\n}\nprint(i + j);",
        "12\n11\n6\n2\n1\n0\n6\n11\n",
        "",
    ),
    (
        "int i = 5;\n#pragma omp reverse\nfor (i = 0; i < 2; i++) {\n#pragma omp reverse\nfor (int i = 7; i < 9; i++) print(i);\nprint(i);\n}\nprint(i);",
        "8\n7\n1\n8\n7\n0\n5\n",
        "",
    ),
    (
        "long long i = 9223372036854775807;\n{\nint i = 1;\n#pragma omp reverse\nfor (i = 2147483646; i <= 2147483647; i++) print(i);\nprint(i);\n}\n#pragma omp reverse\nfor (i = 2147483647; i <= 2147483648; i++) print(i);\nprint(i);",
        "2147483647\n2147483646\n1\n2147483648\n2147483647\n9223372036854775807\n",
        "",
    ),
    (
        "int i;\n{\nlong long i;\ni = 4;\n}\n#pragma omp reverse\nfor (i = 0; i < 3000000000; i++) print(i);",
        "",
        "trap Narrow\n",
    ),
    (
        "int i = 3;\n#pragma omp reverse\nfor (i = 0; i < 3; i++) { int i = 8; i++; print(i); }\nprint(i);",
        "9\n9\n9\n3\n",
        "",
    ),
];

/// What stands before the pieces.
const DECLARED: &str =
    "void print(long long);\nlong long input(void);\n#define N 3\nint a[4], zero, omp_t3 = 2;\nstatic void down(int n) {\n#pragma omp reverse\nfor (int i = 0; i < n; i++) print(i);\n}\nstatic void over(long long n, int k) {\n#pragma omp reverse\nfor (n = k; n > k - 3; n -= 2) print(n);\nprint(n);\n}\nint main(void) {\nint unset;\n";

/// A stack over a loop downwards, in a program that has a name like a fresh one.
const STACK: &[u8] =
    b"void print(long long);\nstatic void down(long long from) {\n#pragma omp reverse\n{\n#pragma omp reverse\nfor (long long omp_t0 = from; omp_t0 >= 0; omp_t0 -= 7) { if (omp_t0 % 2) continue; print(omp_t0); }\n}\n}\nint main(void) { down(20); }\n";

/// What it is translated to.
const STACK_IN_PLAIN_C: &[u8] =
    b"extern void print(long long);\nstatic void down(long long from) {\n    {\n        long long omp_t1 = from;\n        long long omp_t2 = 0;\n        long long omp_t3 = omp_t1 >= omp_t2 ? ((long long)omp_t1 - (long long)omp_t2) / 7LL + 1LL : 0LL;\n        for (long long omp_t6 = 0LL; omp_t6 < omp_t3; omp_t6++) {\n            long long omp_t5 = omp_t3 - 1LL - omp_t6;\n            long long omp_t4 = omp_t3 - 1LL - omp_t5;\n            long long omp_t0 = (long long)((long long)omp_t1 + omp_t4 * -7LL);\n            {\n                if (omp_t0 % 2) {\n                    continue;\n                }\n                print(omp_t0);\n            }\n        }\n    }\n}\nint main(void) {\n    down(20);\n    return 0;\n}\n";

fn answer(alloc: Global, words: &[&str], text: &[u8]) -> Result<Answer, AllocError> {
    let words = word_list(alloc, words)?;
    let text = Vec::from_slice(alloc, text)?;
    answer_at_once(alloc, words.as_slice(), text, 1 << 16)
}

fn runs(rt: &impl Abort, alloc: Global, text: &[u8], row: &Row) -> Result<(), Fail> {
    let got = answer(alloc, &["run", "100", "3", "4", "5"], text)?;
    assert_eq!(rt; got.diag.as_slice(), row.2.as_bytes(), "{}", row.0);
    assert_eq!(rt; got.out.as_slice(), row.1.as_bytes(), "{}", row.0);
    Ok(())
}

/// The text is run, translated, and its translation is run and translated.
fn runs_as_translated(rt: &impl Abort, alloc: Global, text: &[u8], row: &Row) -> Result<(), Fail> {
    runs(rt, alloc, text, row)?;
    let plain = answer(alloc, &["translate"], text)?;
    assert_eq!(rt; plain.status, Status::Done, "{}", row.0);
    runs(rt, alloc, plain.out.as_slice(), row)?;
    let again = answer(alloc, &["translate"], plain.out.as_slice())?;
    assert_eq!(rt; again.out.as_slice(), plain.out.as_slice(), "{}", row.0);
    Ok(())
}

#[test]
fn reverses_loops_with_all_tests_and_bounds(rt: HostRuntime) -> Result<(), Fail> {
    for row in &HEADS {
        let head = row.0;
        let text = format!(in rt.alloc();
            "{DECLARED}#pragma omp reverse\nfor ({head}) print(i);\n}}\n"
        )?;
        runs_as_translated(&rt, rt.alloc(), text.as_bytes(), row)?;
    }
    Ok(())
}

/// The same loops over a variable that stands outside, turned round three times; it is worth 77 before and after.
#[test]
fn loops_leave_a_variable_that_stands_outside(rt: HostRuntime) -> Result<(), Fail> {
    for row in &HEADS {
        let (ty, head) = row.0.split_once(" i = ").unwrap_or((row.0, ""));
        let text = format!(in rt.alloc();
            "{DECLARED}{ty} i = 77;\n#pragma omp reverse apply(reverse)\n#pragma omp reverse\nfor (i = {head}) print(i);\nif (i != 77) print(i);\n}}\n"
        )?;
        runs_as_translated(&rt, rt.alloc(), text.as_bytes(), row)?;
    }
    Ok(())
}

fn pieces_run_as_translated(rt: &impl Abort, alloc: Global, rows: &[Row]) -> Result<(), Fail> {
    for row in rows {
        let piece = row.0;
        let text = format!(in alloc; "{DECLARED}{piece}\n}}\n")?;
        runs_as_translated(rt, alloc, text.as_bytes(), row)?;
    }
    Ok(())
}

#[test]
fn reverses_loops_wherever_they_stand(rt: HostRuntime) -> Result<(), Fail> {
    pieces_run_as_translated(&rt, rt.alloc(), &PLACES)
}

#[test]
fn items_act_on_reversed_loops(rt: HostRuntime) -> Result<(), Fail> {
    pieces_run_as_translated(&rt, rt.alloc(), &ITEMS)
}

#[test]
fn loops_have_their_own_copy_of_a_variable(rt: HostRuntime) -> Result<(), Fail> {
    pieces_run_as_translated(&rt, rt.alloc(), &OUTER)
}

/// A loop under so many directives.
fn under(alloc: Global, directives: usize) -> Result<String, AllocError> {
    let mut lines = String::new(alloc);
    for _ in 0..directives {
        lines.push_str("#pragma omp reverse\n")?;
    }
    lines.push_str("for (int i = 0; i < 5; i++) print(i);")?;
    in_main(alloc, lines.as_str())
}

/// The result of 18 has height 256.
#[test]
fn reverses_a_loop_up_to_18_times(rt: HostRuntime) -> Result<(), Fail> {
    let most = under(rt.alloc(), 18)?;
    let row = ("18 directives", "0\n1\n2\n3\n4\n", "");
    runs_as_translated(&rt, rt.alloc(), most.as_bytes(), &row)?;
    let more = under(rt.alloc(), 19)?;
    let row = ("19 directives", "", "3:13: L26 result too deep\n");
    runs(&rt, rt.alloc(), more.as_bytes(), &row)
}

#[test]
fn writes_a_stack_in_plain_c(rt: HostRuntime) -> Result<(), Fail> {
    let row = ("the stack", "20\n6\n", "");
    let got = answer(rt.alloc(), &["translate"], STACK)?;
    assert_eq!(rt; got.out.as_slice(), STACK_IN_PLAIN_C);
    assert_eq!(rt; got.diag.len(), 0);
    runs_as_translated(&rt, rt.alloc(), STACK, &row)
}
