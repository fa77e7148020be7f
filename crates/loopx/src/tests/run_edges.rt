//! Runs at the ends of the types and of the input, at subscripts that are the dimension, and at the least and the greatest
//! bound.

use super::{NOTHING_FAILS, answer_to};
use crate::status::Status;
use std::alloc::{AllocError, Global};
use std::process::Abort;
use std::test::Fail;

/// Lines of `main`, what they print, and what is told of the run.
type Row = (&'static str, &'static str, &'static str);

/// The operators at the least and the greatest value of each type, and the types of results.
const OPERATORS: [Row; 30] = [
    ("print(I / -1);", "", "trap Overflow\n"),
    ("print(I % -1);", "", "trap Overflow\n"),
    ("print(I / -1LL); print(I % -1LL);", "2147483648\n0\n", ""),
    ("print(L / -1);", "", "trap Overflow\n"),
    ("print(L % -1);", "", "trap Overflow\n"),
    (
        "print(L / 1); print(L % 1);",
        "-9223372036854775808\n0\n",
        "",
    ),
    ("print(-7 / 3); print(-7 % 3);", "-2\n-1\n", ""),
    ("print(7 / -3); print(7 % -3);", "-2\n1\n", ""),
    ("print(-7 / -3); print(-7 % -3);", "2\n-1\n", ""),
    (
        "print(L / 10); print(L % 10);",
        "-922337203685477580\n-8\n",
        "",
    ),
    ("print(1 % z);", "", "trap DivideByZero\n"),
    ("print(L / (L - L));", "", "trap DivideByZero\n"),
    ("print(-I);", "", "trap Overflow\n"),
    ("print(-(long long)I);", "2147483648\n", ""),
    ("print(-L);", "", "trap Overflow\n"),
    (
        "print(+I); print(+L);",
        "-2147483648\n-9223372036854775808\n",
        "",
    ),
    (
        "print(!I); print(!L); print(!0LL); print(!!L);",
        "0\n0\n1\n1\n",
        "",
    ),
    ("print(-2147483648);", "-2147483648\n", ""),
    ("print(I - 1);", "", "trap Overflow\n"),
    ("print(I - 1LL);", "-2147483649\n", ""),
    ("print(I * -1);", "", "trap Overflow\n"),
    ("print(9223372036854775807 + 1);", "", "trap Overflow\n"),
    ("print(L - 1);", "", "trap Overflow\n"),
    ("print(4294967296 * 2147483648);", "", "trap Overflow\n"),
    (
        "print(-4294967296 * 2147483648);",
        "-9223372036854775808\n",
        "",
    ),
    (
        "print(3037000499 * 3037000499);",
        "9223372030926249001\n",
        "",
    ),
    ("print(3037000500 * 3037000500);", "", "trap Overflow\n"),
    (
        "print(-1 < 2147483648); print(L < 9223372036854775807); print(I == -2147483648);",
        "1\n1\n1\n",
        "",
    ),
    (
        "print((1 ? 2147483647 : 0LL) + 1); print((1 < 2LL) + 2147483646);",
        "2147483648\n2147483647\n",
        "",
    ),
    ("print((1 ? 2147483647 : 0) + 1);", "", "trap Overflow\n"),
];

/// Conversions, compound assignments and steps.
const CONVERSIONS: [Row; 27] = [
    (
        "print((int)2147483647LL); print((int)-2147483648);",
        "2147483647\n-2147483648\n",
        "",
    ),
    ("print((int)2147483648);", "", "trap Narrow\n"),
    ("print((int)-2147483649);", "", "trap Narrow\n"),
    ("print((int)L);", "", "trap Narrow\n"),
    (
        "print((long long)I - 1); print((int)(long long)I);",
        "-2147483649\n-2147483648\n",
        "",
    ),
    ("print((int)(2147483647 + 1));", "", "trap Overflow\n"),
    ("int x = 2147483648;", "", "trap Narrow\n"),
    ("int x; x = -2147483649;", "", "trap Narrow\n"),
    ("int x = 2147483647; x += 1;", "", "trap Overflow\n"),
    ("int x = 2147483647; x += 1LL;", "", "trap Narrow\n"),
    (
        "int x = 2147483647; x += 1LL - 2; print(x);",
        "2147483646\n",
        "",
    ),
    (
        "int x = 2; x -= 2147483650LL; print(x);",
        "-2147483648\n",
        "",
    ),
    ("int x = 1; x -= 2147483650LL;", "", "trap Narrow\n"),
    ("int x = 1073741824; x *= 2;", "", "trap Overflow\n"),
    (
        "long long x = 1073741824; x *= 2; print(x);",
        "2147483648\n",
        "",
    ),
    ("int x = I; x /= -1;", "", "trap Overflow\n"),
    ("int x = I; x %= -1;", "", "trap Overflow\n"),
    ("long long x = L; x /= -1;", "", "trap Overflow\n"),
    ("long long x = L; x %= -1;", "", "trap Overflow\n"),
    ("int x = I; x %= -1LL; print(x);", "0\n", ""),
    ("int x = 7; x %= z;", "", "trap DivideByZero\n"),
    ("int x = 2147483647; x++;", "", "trap Overflow\n"),
    ("int x = I; --x;", "", "trap Overflow\n"),
    (
        "long long x = 2147483647; x++; print(x);",
        "2147483648\n",
        "",
    ),
    (
        "long long x = 9223372036854775807; ++x;",
        "",
        "trap Overflow\n",
    ),
    ("long long x = L; x--;", "", "trap Overflow\n"),
    ("narrow(1LL); narrow(2147483648);", "1\n", "trap Narrow\n"),
];

/// Subscripts, variables without a value, and what is evaluated first.
const PLACES: [Row; 29] = [
    ("a[1][2] = 5; print(a[1][2]); print(a[0][0]);", "5\n0\n", ""),
    ("print(a[2][0]);", "", "trap Index\n"),
    ("print(a[1][3]);", "", "trap Index\n"),
    ("print(a[-1][0]);", "", "trap Index\n"),
    ("print(a[0][-1]);", "", "trap Index\n"),
    ("print(a[4294967296][0]);", "", "trap Index\n"),
    ("print(a[L][0]);", "", "trap Index\n"),
    ("a[2][0] = 1;", "", "trap Index\n"),
    ("a[0][3] += 1;", "", "trap Index\n"),
    ("a[2][0]++;", "", "trap Index\n"),
    (
        "a[1][1] = 4; a[1][1] *= 3; a[1][1]--; print(a[1][1]);",
        "11\n",
        "",
    ),
    ("print(a[2][1 / z]);", "", "trap Index\n"),
    ("print(a[1 / z][3]);", "", "trap DivideByZero\n"),
    ("a[0][3] = 1 / z;", "", "trap Index\n"),
    ("a[0][0] = 1 / z;", "", "trap DivideByZero\n"),
    ("int x; x += 1 / z;", "", "trap Unset\n"),
    ("int x; x++;", "", "trap Unset\n"),
    ("int x = x;", "", "trap Unset\n"),
    ("int x; if (z) x = 1; print(x);", "", "trap Unset\n"),
    (
        "for (int i = 0; i < 2; i++) { int x; if (i) print(x); x = i; print(x); }",
        "0\n",
        "trap Unset\n",
    ),
    (
        "int x; print(1 || x); print(0 && x); print(1 ? 2 : x);",
        "1\n0\n2\n",
        "",
    ),
    ("int x; print(0 || x);", "", "trap Unset\n"),
    (
        "print(1 / z + (2147483647 + 1));",
        "",
        "trap DivideByZero\n",
    ),
    ("print((2147483647 + 1) + 1 / z);", "", "trap Overflow\n"),
    ("both(1 / z, 2147483648);", "", "trap DivideByZero\n"),
    ("both(2147483648, 1 / z);", "", "trap Narrow\n"),
    (
        "int x = 1; { int x = 2; x++; print(x); } print(x); both(x, 5); print(x);",
        "3\n1\n6\n1\n",
        "",
    ),
    (
        "int x = 1; { int x = 2; { int x = 3; print(x); } print(x); x = 4; print(x); } print(x);",
        "3\n2\n4\n1\n",
        "",
    ),
    (
        "int i = 9; for (int i = 0; i < 2; i++) print(i); print(i);",
        "0\n1\n9\n",
        "",
    ),
];

/// Jumps.
const JUMPS: [Row; 9] = [
    (
        "for (int i = 0; i < 5; i++) { if (i % 2) continue; if (i > 3) break; print(i); }",
        "0\n2\n",
        "",
    ),
    (
        "int i = 0; while (i < 5) { i++; if (i % 2) continue; print(i); }",
        "2\n4\n",
        "",
    ),
    (
        "int i = 0; do { i++; if (i < 3) continue; print(i); } while (i < 4);",
        "3\n4\n",
        "",
    ),
    (
        "for (int i = 0; i < 2; i++) for (int j = 0; j < 9; j++) { if (j == 1) break; print(10 * i + j); }",
        "0\n10\n",
        "",
    ),
    (
        "for (int i = 0; i < 2; i++) { while (1) { break; } print(i); }",
        "0\n1\n",
        "",
    ),
    ("int i = 7; for (i = 2; i > 0; i--) ; print(i);", "0\n", ""),
    (
        "for (int i = 2147483647; i > 0; i++) print(i);",
        "2147483647\n",
        "trap Overflow\n",
    ),
    (
        "for (int i = 0; i < 2; i++) { int i = 5; print(i); }",
        "5\n5\n",
        "",
    ),
    (
        "if (z) print(1); else if (!z) print(2); else print(3);",
        "2\n",
        "",
    ),
];

/// The program with these lines in `main`. `I` and `L` are the least values of the types, and `z` is 0.
fn in_program(alloc: Global, lines: &str) -> Result<String, AllocError> {
    format!(in alloc;
        "void print(long long);\nint a[2][3], z;\nstatic void narrow(int x) {{ print(x); }}\nstatic void both(int x, long long y) {{ x += 1; print(x + y - 1); }}\nint main(void) {{\nint I = -2147483647 - 1;\nlong long L = -9223372036854775807LL - 1;\n{lines}\n}}\n"
    )
}

/// The status of a run of which the line is told.
fn status_of(told: &str) -> Status {
    if told.is_empty() {
        Status::Done
    } else if told == "cut\n" {
        Status::Cut
    } else {
        Status::Trapped
    }
}

fn run_alike(rt: &impl Abort, alloc: Global, rows: &[Row]) -> Result<(), Fail> {
    for (lines, printed, told) in rows {
        let text = in_program(alloc, lines)?;
        let got = answer_to(alloc, &["run", "9"], text.as_bytes(), &NOTHING_FAILS)?;
        assert_eq!(rt; got.out.as_slice(), printed.as_bytes(), "{lines}");
        assert_eq!(rt; got.diag.as_slice(), told.as_bytes(), "{lines}");
        assert_eq!(rt; got.status, status_of(told), "{lines}");
    }
    Ok(())
}

#[test]
fn operators_trap_or_are_exact_at_the_ends_of_their_types(rt: HostRuntime) -> Result<(), Fail> {
    run_alike(&rt, rt.alloc(), &OPERATORS)
}

#[test]
fn conversions_trap_or_are_exact_at_the_ends_of_their_types(rt: HostRuntime) -> Result<(), Fail> {
    run_alike(&rt, rt.alloc(), &CONVERSIONS)
}

#[test]
fn places_are_tested_and_evaluated_from_left_to_right(rt: HostRuntime) -> Result<(), Fail> {
    run_alike(&rt, rt.alloc(), &PLACES)
}

#[test]
fn jumps_leave_or_go_on_with_the_innermost_loop(rt: HostRuntime) -> Result<(), Fail> {
    run_alike(&rt, rt.alloc(), &JUMPS)
}

/// A bound, lines of `main`, what they print, and what is told of the run.
type BoundRow = (&'static str, &'static str, &'static str, &'static str);

const BOUNDS: [BoundRow; 23] = [
    ("0", "print(1);", "1\n", ""),
    (
        "0",
        "for (int i = 0; i < 0; i++) print(1); print(2);",
        "2\n",
        "",
    ),
    ("0", "for (int i = 0; i < 1; i++) print(1);", "", "cut\n"),
    ("0", "for (;;) break;", "", "cut\n"),
    ("0", "while (0) print(1); print(2);", "2\n", ""),
    ("0", "while (1) print(1);", "", "cut\n"),
    ("0", "print(2); do print(1); while (0);", "2\n", "cut\n"),
    ("0", "while (1 / z) ;", "", "trap DivideByZero\n"),
    ("1", "do print(1); while (0);", "1\n", ""),
    ("1", "do print(1); while (1);", "1\n", "cut\n"),
    (
        "1",
        "do print(1); while (1 / z);",
        "1\n",
        "trap DivideByZero\n",
    ),
    ("1", "for (;;) break; print(2);", "2\n", ""),
    (
        "1",
        "for (int i = 0; i < 1; i++) for (int j = 0; j < 1; j++) print(i + j);",
        "0\n",
        "",
    ),
    ("1", "for (int i = 0; i < 2; i++) print(i);", "0\n", "cut\n"),
    (
        "2",
        "for (int i = 0; i < 2; i++) while (i < 1) { print(i); i++; } print(3);",
        "0\n3\n",
        "",
    ),
    ("3", "int i = 0; while (i < 3) i++; print(i);", "3\n", ""),
    ("2", "int i = 0; while (i < 3) i++; print(i);", "", "cut\n"),
    (
        "3",
        "int i = 0; do { i++; continue; } while (i < 4); print(i);",
        "",
        "cut\n",
    ),
    ("10", "print(3); while (1) ;", "3\n", "cut\n"),
    ("007", "for (int i = 0; i < 7; i++) ; print(7);", "7\n", ""),
    (
        "18446744073709551615",
        "for (int i = 0; i < 3; i++) print(i);",
        "0\n1\n2\n",
        "",
    ),
    ("18446744073709551615", "do print(1); while (0);", "1\n", ""),
    (
        "18446744073709551615",
        "int i = 0; while (i < 3) i++; print(i);",
        "3\n",
        "",
    ),
];

#[test]
fn each_execution_of_a_loop_has_its_own_turns(rt: HostRuntime) -> Result<(), Fail> {
    for (bound, lines, printed, told) in BOUNDS {
        let text = in_program(rt.alloc(), lines)?;
        let got = answer_to(rt.alloc(), &["run", bound], text.as_bytes(), &NOTHING_FAILS)?;
        assert_eq!(rt; got.out.as_slice(), printed.as_bytes(), "{bound} {lines}");
        assert_eq!(rt; got.diag.as_slice(), told.as_bytes(), "{bound} {lines}");
        assert_eq!(rt; got.status, status_of(told), "{bound} {lines}");
    }
    Ok(())
}

/// The words, lines of `main`, what they print, and what is told of the run.
type InputRow = (
    &'static [&'static str],
    &'static str,
    &'static str,
    &'static str,
);

const INPUTS: [InputRow; 11] = [
    (&["run", "9"], "int n; n = input();", "", "trap InputEnd\n"),
    (
        &["run", "9"],
        "int n = 1; if (z) n = input(); print(n);",
        "1\n",
        "",
    ),
    (
        &["run", "9", "5"],
        "int n = input(), k = input();",
        "",
        "trap InputEnd\n",
    ),
    (
        &["run", "9", "5", "7"],
        "int n = input(), k = input(); print(n - k);",
        "-2\n",
        "",
    ),
    (
        &["run", "9", "-0", "007"],
        "int n = input(), k = input(); print(n - k);",
        "-7\n",
        "",
    ),
    (
        &["run", "9", "9223372036854775807", "-9223372036854775808"],
        "long long n = input(), k = input(); print(n); print(k);",
        "9223372036854775807\n-9223372036854775808\n",
        "",
    ),
    (
        &["run", "9", "2147483647", "-2147483648"],
        "int n = input(), k = input(); print(n + k);",
        "-1\n",
        "",
    ),
    (
        &["run", "9", "2147483648"],
        "print(1); int n = input();",
        "1\n",
        "trap Narrow\n",
    ),
    (
        &["run", "9", "-2147483649"],
        "a[0][0] = input();",
        "",
        "trap Narrow\n",
    ),
    (&["run", "9"], "a[0][3] = input();", "", "trap Index\n"),
    (
        &["run", "9", "4", "8"],
        "a[1][2] = input(); print(a[1][2]);",
        "4\n",
        "",
    ),
];

#[test]
fn input_is_taken_in_order_and_converted(rt: HostRuntime) -> Result<(), Fail> {
    for (words, lines, printed, told) in INPUTS {
        let program = in_program(rt.alloc(), lines)?;
        let text = format!(in rt.alloc(); "long long input(void);\n{program}")?;
        let got = answer_to(rt.alloc(), words, text.as_bytes(), &NOTHING_FAILS)?;
        assert_eq!(rt; got.out.as_slice(), printed.as_bytes(), "{lines}");
        assert_eq!(rt; got.diag.as_slice(), told.as_bytes(), "{lines}");
        assert_eq!(rt; got.status, status_of(told), "{lines}");
    }
    Ok(())
}
