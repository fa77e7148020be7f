//! The name rules but for those of declared names: texts that break one, each with the line that says where, beside texts
//! that don't.

use super::{NOTHING_FAILS, answer_to};
use crate::status::Status;
use std::alloc::Global;
use std::process::Abort;
use std::test::Fail;

/// A text, and the line that it is refused with; none where it is translated.
pub type Row = (&'static str, &'static str);

const N3: [Row; 19] = [
    (
        "void print(long long);\nint main(void) {\nint x;\nx[0] = 1;\n}\n",
        "4:1: N3 wrong number of subscripts\n",
    ),
    ("int x[1];\nint main(void) { x[0] = 1; }\n", ""),
    (
        "int a[2];\nint main(void) { a = 1; }\n",
        "2:18: N3 wrong number of subscripts\n",
    ),
    ("int a[2];\nint main(void) { a[1] = 1; }\n", ""),
    (
        "int a[2][3];\nint main(void) { a[1] = 1; }\n",
        "2:18: N3 wrong number of subscripts\n",
    ),
    ("int a[2][3];\nint main(void) { a[1][2] = 1; }\n", ""),
    (
        "int a[2][3];\nint main(void) { a[1][2][0] = 1; }\n",
        "2:18: N3 wrong number of subscripts\n",
    ),
    ("int a[2][3][1];\nint main(void) { a[1][2][0] = 1; }\n", ""),
    (
        "#define N 3\nvoid print(long long);\nlong long input(void);\nint main(void) {\nprint(N[0]);\n}\n",
        "5:7: N3 wrong number of subscripts\n",
    ),
    (
        "#define N 3\nvoid print(long long);\nlong long input(void);\nint main(void) {\nprint(N);\n}\n",
        "",
    ),
    (
        "int a[2];\nint b[2];\nint main(void) { a[b] = 1; }\n",
        "3:20: N3 wrong number of subscripts\n",
    ),
    (
        "int a[2];\nint b[2];\nint main(void) { a[b[0]] = 1; }\n",
        "",
    ),
    (
        "int a[a];\nint main(void) {}\n",
        "1:7: N3 wrong number of subscripts\n",
    ),
    ("int a[1];\nint main(void) {}\n", ""),
    (
        "int a[2];\nint main(void) { int a; a[0] = 1; }\n",
        "2:25: N3 wrong number of subscripts\n",
    ),
    (
        "int a[2];\nint main(void) { { int a; a = 1; } a[0] = 1; }\n",
        "",
    ),
    (
        "long long input(void);\nint a[2];\nint main(void) { a = input(); }\n",
        "3:18: N3 wrong number of subscripts\n",
    ),
    (
        "long long input(void);\nint a[2];\nint main(void) { a[0] = input(); }\n",
        "",
    ),
    (
        "#define N 3\nvoid print(long long);\nlong long input(void);\nint main(void) {\nN[0] = 1;\n}\n",
        "5:1: N3 wrong number of subscripts\n",
    ),
];

const N4: [Row; 11] = [
    (
        "#define N 3\nvoid print(long long);\nlong long input(void);\nint main(void) {\nN = 1;\n}\n",
        "5:1: N4 constant assigned\n",
    ),
    (
        "#define N 3\nvoid print(long long);\nlong long input(void);\nint main(void) {\nint M; M = N;\n}\n",
        "",
    ),
    (
        "#define N 3\nvoid print(long long);\nlong long input(void);\nint main(void) {\nN += 1;\n}\n",
        "5:1: N4 constant assigned\n",
    ),
    (
        "#define N 3\nvoid print(long long);\nlong long input(void);\nint main(void) {\nint M = 1; M += N;\n}\n",
        "",
    ),
    (
        "#define N 3\nvoid print(long long);\nlong long input(void);\nint main(void) {\nN++;\n}\n",
        "5:1: N4 constant assigned\n",
    ),
    (
        "#define N 3\nvoid print(long long);\nlong long input(void);\nint main(void) {\nint M = 1; M++;\n}\n",
        "",
    ),
    (
        "#define N 3\nvoid print(long long);\nlong long input(void);\nint main(void) {\nN = input();\n}\n",
        "5:1: N4 constant assigned\n",
    ),
    (
        "#define N 3\nvoid print(long long);\nlong long input(void);\nint main(void) {\nint M; M = input();\n}\n",
        "",
    ),
    (
        "#define N 3\nvoid print(long long);\nlong long input(void);\nint main(void) {\nfor (N = 0; ; ) break;\n}\n",
        "5:6: N4 constant assigned\n",
    ),
    (
        "#define N 3\nvoid print(long long);\nlong long input(void);\nint main(void) {\nint M; for (M = 0; ; ) break;\n}\n",
        "",
    ),
    (
        "#define N 3\nvoid print(long long);\nlong long input(void);\nint main(void) {\nN = x;\n}\n",
        "5:1: N4 constant assigned\n",
    ),
];

const N5: [Row; 17] = [
    ("int a[0];\nint main(void) {}\n", "1:7: N5 bad dimension\n"),
    ("int a[-1];\nint main(void) {}\n", "1:7: N5 bad dimension\n"),
    ("int a[-(-1)];\nint main(void) {}\n", ""),
    (
        "int a[16777217];\nint main(void) {}\n",
        "1:7: N5 bad dimension\n",
    ),
    ("int a[16777216];\nint main(void) {}\n", ""),
    (
        "int n;\nint a[n];\nint main(void) {}\n",
        "2:7: N5 bad dimension\n",
    ),
    ("#define n 3\nint a[n];\nint main(void) {}\n", ""),
    (
        "int a[2147483647 + 1];\nint main(void) {}\n",
        "1:7: N5 bad dimension\n",
    ),
    ("int a[2147483647 - 2147483646];\nint main(void) {}\n", ""),
    (
        "int a[1 / 0];\nint main(void) {}\n",
        "1:7: N5 bad dimension\n",
    ),
    ("int a[1 / 1];\nint main(void) {}\n", ""),
    (
        "int a[2][0];\nint main(void) {}\n",
        "1:10: N5 bad dimension\n",
    ),
    ("int a[2][1];\nint main(void) {}\n", ""),
    (
        "int a[(0)];\nint main(void) {}\n",
        "1:8: N5 bad dimension\n",
    ),
    ("int a[(1)];\nint main(void) {}\n", ""),
    (
        "int a[1][1][1][1][1][1][1][1][1];\nint main(void) {}\n",
        "1:31: N5 bad dimension\n",
    ),
    ("int a[1][1][1][1][1][1][1][1];\nint main(void) {}\n", ""),
];

const N6: [Row; 11] = [
    (
        "void print(long long);\nint main(void) {\nbreak;\n}\n",
        "3:1: N6 break outside a loop\n",
    ),
    (
        "void print(long long);\nint main(void) {\nwhile (0) break;\n}\n",
        "",
    ),
    (
        "void print(long long);\nint main(void) {\ndo break; while (0);\n}\n",
        "",
    ),
    (
        "void print(long long);\nint main(void) {\nfor (;0;) break;\n}\n",
        "",
    ),
    (
        "void print(long long);\nint main(void) {\nif (1) break;\n}\n",
        "3:8: N6 break outside a loop\n",
    ),
    (
        "void print(long long);\nint main(void) {\nwhile (0) if (1) { break; }\n}\n",
        "",
    ),
    (
        "void print(long long);\nint main(void) {\nwhile (0) break;\nbreak;\n}\n",
        "4:1: N6 break outside a loop\n",
    ),
    (
        "void print(long long);\nint main(void) {\nwhile (0) { while (0) break; break; }\n}\n",
        "",
    ),
    (
        "static void f(void) { break; }\nint main(void) { while (0) f(); }\n",
        "1:23: N6 break outside a loop\n",
    ),
    (
        "static void f(void) { while (0) break; }\nint main(void) { while (0) f(); }\n",
        "",
    ),
    (
        "void print(long long);\nint main(void) {\nbreak;\nprint(x);\n}\n",
        "3:1: N6 break outside a loop\n",
    ),
];

const N7: [Row; 11] = [
    (
        "void print(long long);\nint main(void) {\ncontinue;\n}\n",
        "3:1: N7 continue outside a loop\n",
    ),
    (
        "void print(long long);\nint main(void) {\nwhile (0) continue;\n}\n",
        "",
    ),
    (
        "void print(long long);\nint main(void) {\ndo continue; while (0);\n}\n",
        "",
    ),
    (
        "void print(long long);\nint main(void) {\nfor (;0;) continue;\n}\n",
        "",
    ),
    (
        "void print(long long);\nint main(void) {\nif (1) continue;\n}\n",
        "3:8: N7 continue outside a loop\n",
    ),
    (
        "void print(long long);\nint main(void) {\nwhile (0) if (1) { continue; }\n}\n",
        "",
    ),
    (
        "void print(long long);\nint main(void) {\nwhile (0) continue;\ncontinue;\n}\n",
        "4:1: N7 continue outside a loop\n",
    ),
    (
        "void print(long long);\nint main(void) {\nwhile (0) { while (0) continue; continue; }\n}\n",
        "",
    ),
    (
        "static void f(void) { continue; }\nint main(void) { while (0) f(); }\n",
        "1:23: N7 continue outside a loop\n",
    ),
    (
        "static void f(void) { while (0) continue; }\nint main(void) { while (0) f(); }\n",
        "",
    ),
    (
        "static void f(void) { continue; }\nint main(void) { x = 1; }\n",
        "1:23: N7 continue outside a loop\n",
    ),
];

const N8: [Row; 13] = [
    (
        "int a[16777216];\nint b[1];\nint main(void) {}\n",
        "2:5: N8 arrays too large\n",
    ),
    ("int a[16777216];\nint b;\nint main(void) {}\n", ""),
    ("int a[16777215];\nint b[1];\nint main(void) {}\n", ""),
    (
        "int a[4096][4097];\nint main(void) {}\n",
        "1:5: N8 arrays too large\n",
    ),
    ("int a[4096][4096];\nint main(void) {}\n", ""),
    (
        "int a[8][8][8][8][8][8][8][9];\nint main(void) {}\n",
        "1:5: N8 arrays too large\n",
    ),
    ("int a[8][8][8][8][8][8][8][8];\nint main(void) {}\n", ""),
    (
        "int a[16777216][16777216][16777216][16777216];\nint main(void) {}\n",
        "1:5: N8 arrays too large\n",
    ),
    ("int a[16777216][1][1][1];\nint main(void) {}\n", ""),
    (
        "int a[8388608], b[8388607], c[2];\nint main(void) {}\n",
        "1:29: N8 arrays too large\n",
    ),
    ("int a[8388608], b[8388607], c[1];\nint main(void) {}\n", ""),
    (
        "long long a[8388608];\nint b[8388609];\nint main(void) {}\n",
        "2:5: N8 arrays too large\n",
    ),
    (
        "long long a[8388608];\nint b[8388608];\nint main(void) {}\n",
        "",
    ),
];

const N9: [Row; 15] = [
    (
        "int n;\nint s = n;\nint main(void) {}\n",
        "2:9: N9 bad initial value\n",
    ),
    ("#define n 3\nint s = n;\nint main(void) {}\n", ""),
    (
        "int s = s;\nint main(void) {}\n",
        "1:9: N9 bad initial value\n",
    ),
    (
        "void print(long long);\nint main(void) {\nint s = s;\n}\n",
        "",
    ),
    (
        "int s = 2147483648;\nint main(void) {}\n",
        "1:9: N9 bad initial value\n",
    ),
    ("int s = 2147483647;\nint main(void) {}\n", ""),
    ("long long s = 2147483648;\nint main(void) {}\n", ""),
    (
        "int s = -2147483649;\nint main(void) {}\n",
        "1:9: N9 bad initial value\n",
    ),
    ("int s = -2147483648;\nint main(void) {}\n", ""),
    (
        "long long s = 9223372036854775807LL + 1;\nint main(void) {}\n",
        "1:15: N9 bad initial value\n",
    ),
    (
        "long long s = 9223372036854775807LL - 1;\nint main(void) {}\n",
        "",
    ),
    (
        "int s = 1 % 0;\nint main(void) {}\n",
        "1:9: N9 bad initial value\n",
    ),
    ("int s = 1 % 1;\nint main(void) {}\n", ""),
    (
        "int s = (2147483648);\nint main(void) {}\n",
        "1:10: N9 bad initial value\n",
    ),
    ("int s = (2147483647);\nint main(void) {}\n", ""),
];

const N10: [Row; 16] = [
    (
        "void print(long long);\nstatic void f(int x) { print(x); }\nint main(void) {\nprint(f);\n}\n",
        "4:7: N10 function name misused\n",
    ),
    (
        "void print(long long);\nstatic void f(int x) { print(x); }\nint main(void) {\nint f = 1; print(f);\n}\n",
        "",
    ),
    (
        "void print(long long);\nstatic void f(int x) { print(x); }\nint main(void) {\nf = 1;\n}\n",
        "4:1: N10 function name misused\n",
    ),
    (
        "void print(long long);\nstatic void f(int x) { print(x); }\nint main(void) {\nint f; f = 1;\n}\n",
        "",
    ),
    (
        "void print(long long);\nstatic void f(int x) { print(x); }\nint main(void) {\nf[0] = 1;\n}\n",
        "4:1: N10 function name misused\n",
    ),
    ("int f[1];\nint main(void) { f[0] = 1; }\n", ""),
    (
        "void print(long long);\nstatic void f(int x) { print(x); }\nint main(void) {\nf++;\n}\n",
        "4:1: N10 function name misused\n",
    ),
    (
        "void print(long long);\nstatic void f(int x) { print(x); }\nint main(void) {\nint f = 1; f++;\n}\n",
        "",
    ),
    (
        "void print(long long);\nstatic void f(int x) { print(x); }\nint main(void) {\nint f; f(1);\n}\n",
        "4:8: N10 function name misused\n",
    ),
    (
        "void print(long long);\nstatic void f(int x) { print(x); }\nint main(void) {\n{ int f; } f(1);\n}\n",
        "",
    ),
    (
        "#define N 3\nvoid print(long long);\nlong long input(void);\nint main(void) {\nN();\n}\n",
        "5:1: N10 function name misused\n",
    ),
    ("static void N(void) {}\nint main(void) { N(); }\n", ""),
    (
        "int a[2];\nint main(void) { a(0); }\n",
        "2:18: N10 function name misused\n",
    ),
    ("int a[2];\nint main(void) { a[0] = 1; }\n", ""),
    (
        "static void f(void) {}\nstatic void g(int f) { f(); }\nint main(void) {}\n",
        "2:24: N10 function name misused\n",
    ),
    (
        "static void f(void) {}\nstatic void g(int h) { f(); }\nint main(void) {}\n",
        "",
    ),
];

const N11: [Row; 7] = [
    (
        "void print(long long);\nstatic void f(int x) { print(x); }\nint main(void) {\nf();\n}\n",
        "4:1: N11 wrong number of arguments\n",
    ),
    (
        "void print(long long);\nstatic void f(int x) { print(x); }\nint main(void) {\nf(1, 2);\n}\n",
        "4:1: N11 wrong number of arguments\n",
    ),
    (
        "void print(long long);\nstatic void f(int x) { print(x); }\nint main(void) {\nf(1 + 2);\n}\n",
        "",
    ),
    (
        "static void g(void) {}\nint main(void) { g(1); }\n",
        "2:18: N11 wrong number of arguments\n",
    ),
    ("static void g(void) {}\nint main(void) { g(); }\n", ""),
    (
        "static void g(int a, int b) {}\nint main(void) { g(1); }\n",
        "2:18: N11 wrong number of arguments\n",
    ),
    (
        "static void g(int a, int b) {}\nint main(void) { g(1, 2); }\n",
        "",
    ),
];

const N12: [Row; 4] = [
    (
        "static void f1(void) { }\nstatic void f2(void) { f1(); }\nstatic void f3(void) { f2(); }\nstatic void f4(void) { f3(); }\nstatic void f5(void) { f4(); }\nstatic void f6(void) { f5(); }\nstatic void f7(void) { f6(); }\nstatic void f8(void) { f7(); }\nstatic void f9(void) { f8(); }\nstatic void f10(void) { f9(); }\nstatic void f11(void) { f10(); }\nstatic void f12(void) { f11(); }\nstatic void f13(void) { f12(); }\nstatic void f14(void) { f13(); }\nstatic void f15(void) { f14(); }\nstatic void f16(void) { f15(); }\nstatic void f17(void) { f16(); }\nint main(void) { f17(); }\n",
        "17:25: N12 calls nested too deeply\n",
    ),
    (
        "static void f1(void) { }\nstatic void f2(void) { f1(); }\nstatic void f3(void) { f2(); }\nstatic void f4(void) { f3(); }\nstatic void f5(void) { f4(); }\nstatic void f6(void) { f5(); }\nstatic void f7(void) { f6(); }\nstatic void f8(void) { f7(); }\nstatic void f9(void) { f8(); }\nstatic void f10(void) { f9(); }\nstatic void f11(void) { f10(); }\nstatic void f12(void) { f11(); }\nstatic void f13(void) { f12(); }\nstatic void f14(void) { f13(); }\nstatic void f15(void) { f14(); }\nstatic void f16(void) { f15(); }\nint main(void) { f16(); }\n",
        "",
    ),
    (
        "static void f1(void) { }\nstatic void f2(void) { f1(); }\nstatic void f3(void) { f2(); }\nstatic void f4(void) { f3(); }\nstatic void f5(void) { f4(); }\nstatic void f6(void) { f5(); }\nstatic void f7(void) { f6(); }\nstatic void f8(void) { f7(); }\nstatic void f9(void) { f8(); }\nstatic void f10(void) { f9(); }\nstatic void f11(void) { f10(); }\nstatic void f12(void) { f11(); }\nstatic void f13(void) { f12(); }\nstatic void f14(void) { f13(); }\nstatic void f15(void) { f14(); }\nstatic void f16(void) { f15(); }\nstatic void g(void) { f1(); f16(); }\nint main(void) { g(); }\n",
        "17:29: N12 calls nested too deeply\n",
    ),
    (
        "static void f1(void) { }\nstatic void f2(void) { f1(); }\nstatic void f3(void) { f2(); }\nstatic void f4(void) { f3(); }\nstatic void f5(void) { f4(); }\nstatic void f6(void) { f5(); }\nstatic void f7(void) { f6(); }\nstatic void f8(void) { f7(); }\nstatic void f9(void) { f8(); }\nstatic void f10(void) { f9(); }\nstatic void f11(void) { f10(); }\nstatic void f12(void) { f11(); }\nstatic void f13(void) { f12(); }\nstatic void f14(void) { f13(); }\nstatic void f15(void) { f14(); }\nstatic void f16(void) { f15(); }\nstatic void g(void) { f1(); f15(); }\nint main(void) { g(); f16(); }\n",
        "",
    ),
];

/// Each text is translated, or refused with its line.
pub fn answers(rt: &impl Abort, alloc: Global, rows: &[Row]) -> Result<(), Fail> {
    for (text, line) in rows {
        let got = answer_to(alloc, &["translate"], text.as_bytes(), &NOTHING_FAILS)?;
        let want = if line.is_empty() {
            Status::Done
        } else {
            Status::Refused
        };
        assert_eq!(rt; got.status, want, "{text}");
        assert_eq!(rt; got.diag.as_slice(), line.as_bytes(), "{text}");
    }
    Ok(())
}

#[test]
fn subscripts_are_as_many_as_dimensions(rt: HostRuntime) -> Result<(), Fail> {
    answers(&rt, rt.alloc(), &N3)
}

#[test]
fn a_define_is_never_assigned(rt: HostRuntime) -> Result<(), Fail> {
    answers(&rt, rt.alloc(), &N4)
}

#[test]
fn dimensions_are_positive_constants(rt: HostRuntime) -> Result<(), Fail> {
    answers(&rt, rt.alloc(), &N5)
}

#[test]
fn break_stands_in_a_loop(rt: HostRuntime) -> Result<(), Fail> {
    answers(&rt, rt.alloc(), &N6)
}

#[test]
fn continue_stands_in_a_loop(rt: HostRuntime) -> Result<(), Fail> {
    answers(&rt, rt.alloc(), &N7)
}

#[test]
fn arrays_have_at_most_two_to_the_24_elements(rt: HostRuntime) -> Result<(), Fail> {
    answers(&rt, rt.alloc(), &N8)
}

#[test]
fn initial_values_of_the_file_are_constants_that_fit(rt: HostRuntime) -> Result<(), Fail> {
    answers(&rt, rt.alloc(), &N9)
}

#[test]
fn functions_are_called_and_nothing_else_is(rt: HostRuntime) -> Result<(), Fail> {
    answers(&rt, rt.alloc(), &N10)
}

#[test]
fn arguments_are_as_many_as_parameters(rt: HostRuntime) -> Result<(), Fail> {
    answers(&rt, rt.alloc(), &N11)
}

#[test]
fn calls_nest_at_most_16_deep(rt: HostRuntime) -> Result<(), Fail> {
    answers(&rt, rt.alloc(), &N12)
}
