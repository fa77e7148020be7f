//! Each kind of item, statement and expression in its printed form, which is translated to itself.

use super::{NOTHING_FAILS, answer_to};
use crate::status::Status;
use std::alloc::{AllocError, Global};
use std::process::Abort;
use std::test::Fail;

/// A text and its printed form.
type Row = (&'static str, &'static str);

/// Items before `main`, whose line is the same in both forms.
const ITEMS: [Row; 17] = [
    ("#define N 3\n", "#define N 3\n"),
    ("#define N(3)\n", "#define N 3\n"),
    ("#define N -3\n", "#define N (-3)\n"),
    ("#define N ( - 0x10 ) // sixteen\n", "#define N (-16)\n"),
    ("#define N 2147483648\n", "#define N 2147483648LL\n"),
    ("#define \\\n  N \\\n  017LL\n", "#define N 15LL\n"),
    (
        "void print(long long);\n",
        "extern void print(long long);\n",
    ),
    (
        "extern void print(long long int value);\n",
        "extern void print(long long);\n",
    ),
    ("long long input();\n", "extern long long input(void);\n"),
    (
        "extern long long int input(void);\n",
        "extern long long input(void);\n",
    ),
    (
        "int a[2][1+2], x, y = -1;\n",
        "int a[2][1 + 2];\nint x;\nint y = -1;\n",
    ),
    ("long long int x = 5ll;\n", "long long x = 5LL;\n"),
    ("static void f() {}\n", "static void f(void) {\n}\n"),
    (
        "static void f(void) {;}\n",
        "static void f(void) {\n    ;\n}\n",
    ),
    (
        "static void f(int a, long long int b) { a = b; }\n",
        "static void f(int a, long long b) {\n    a = b;\n}\n",
    ),
    (
        "static void f(int a) { if (a) { a--; } }\nstatic void g(void) { f(1); }\n",
        "static void f(int a) {\n    if (a) {\n        a--;\n    }\n}\nstatic void g(void) {\n    f(1);\n}\n",
    ),
    ("/* nothing */\r\n", ""),
];

/// What stands before the lines of `main`.
const DECLARED: &str =
    "void print(long long);\nlong long input(void);\nint a[4], b[4][4];\nstatic void f(void) {}\nstatic void g(int p, long long q) {}\nint main() {\nint x = 1, y = 2, z = 3;\n";

/// Its printed form.
const DECLARED_PRINTED: &str =
    "extern void print(long long);\nextern long long input(void);\nint a[4];\nint b[4][4];\nstatic void f(void) {\n}\nstatic void g(int p, long long q) {\n}\nint main(void) {\n    int x = 1;\n    int y = 2;\n    int z = 3;\n";

/// Statements of `main`.
const STATEMENTS: [Row; 40] = [
    (";", "    ;\n"),
    (
        "int u; long long int v=1;",
        "    int u;\n    long long v = 1;\n",
    ),
    (
        "int u = 1, v = input(), w;",
        "    int u = 1;\n    int v;\n    v = input();\n    int w;\n",
    ),
    ("x=y;", "    x = y;\n"),
    ("a[x]=b[y][z];", "    a[x] = b[y][z];\n"),
    (
        "x+=1;x-=1;x*=1;x/=1;x%=1;",
        "    x += 1;\n    x -= 1;\n    x *= 1;\n    x /= 1;\n    x %= 1;\n",
    ),
    (
        "x++; ++x; x--; --x;",
        "    x++;\n    x++;\n    x--;\n    x--;\n",
    ),
    ("++a[1]; b[1][2] --;", "    a[1]++;\n    b[1][2]--;\n"),
    (
        "x = input ( ) ; a[1] = input();",
        "    x = input();\n    a[1] = input();\n",
    ),
    ("print((x));", "    print(x);\n"),
    (
        "f(); f ( ) ; g(1,(x));",
        "    f();\n    f();\n    g(1, x);\n",
    ),
    ("if(x);", "    if (x) {\n        ;\n    }\n"),
    ("if (x) {} else {}", "    if (x) {\n    } else {\n    }\n"),
    (
        "if (x) f(); else if (y) f();",
        "    if (x) {\n        f();\n    } else {\n        if (y) {\n            f();\n        }\n    }\n",
    ),
    (
        "if (x) if (y) f(); else x = 1;",
        "    if (x) {\n        if (y) {\n            f();\n        } else {\n            x = 1;\n        }\n    }\n",
    ),
    (
        "if (x) { if (y) f(); } else x = 1;",
        "    if (x) {\n        if (y) {\n            f();\n        }\n    } else {\n        x = 1;\n    }\n",
    ),
    (
        "if (x) while (y) if (z) f(); else x = 1;",
        "    if (x) {\n        while (y) {\n            if (z) {\n                f();\n            } else {\n                x = 1;\n            }\n        }\n    }\n",
    ),
    (
        "while (x<3) x++;",
        "    while (x < 3) {\n        x++;\n    }\n",
    ),
    ("while (0) {}", "    while (0) {\n    }\n"),
    (
        "while (0) { break; continue; }",
        "    while (0) {\n        break;\n        continue;\n    }\n",
    ),
    (
        "do x--; while(x>0);",
        "    do {\n        x--;\n    } while (x > 0);\n",
    ),
    ("do {} while (0);", "    do {\n    } while (0);\n"),
    (
        "do while (0) ; while (0);",
        "    do {\n        while (0) {\n            ;\n        }\n    } while (0);\n",
    ),
    ("for (;;) break;", "    for (;;) {\n        break;\n    }\n"),
    (
        "for (x=0;;) break;",
        "    for (x = 0;;) {\n        break;\n    }\n",
    ),
    (
        "for (;x;) break;",
        "    for (; x;) {\n        break;\n    }\n",
    ),
    (
        "for (;;x++) break;",
        "    for (;; x++) {\n        break;\n    }\n",
    ),
    ("for (;x;x=1) {}", "    for (; x; x = 1) {\n    }\n"),
    (
        "for (x=0;;--x) break;",
        "    for (x = 0;; x--) {\n        break;\n    }\n",
    ),
    (
        "for (x=0;x<3;) x++;",
        "    for (x = 0; x < 3;) {\n        x++;\n    }\n",
    ),
    (
        "for (int i=0;i<3;++i) ;",
        "    for (int i = 0; i < 3; i++) {\n        ;\n    }\n",
    ),
    (
        "for (long long int i=0;i<3;i+=2) ;",
        "    for (long long i = 0; i < 3; i += 2) {\n        ;\n    }\n",
    ),
    (
        "for (x++;;) break;",
        "    for (x++;;) {\n        break;\n    }\n",
    ),
    (
        "for (a[1]=0;a[1];a[1]-=1) ;",
        "    for (a[1] = 0; a[1]; a[1] -= 1) {\n        ;\n    }\n",
    ),
    (
        "for (x=0;x<2;x++) for (y=0;y<2;y++) f();",
        "    for (x = 0; x < 2; x++) {\n        for (y = 0; y < 2; y++) {\n            f();\n        }\n    }\n",
    ),
    ("{}", "    {\n    }\n"),
    (
        "{ int x; { x = 1; } }",
        "    {\n        int x;\n        {\n            x = 1;\n        }\n    }\n",
    ),
    (
        "{{;}}",
        "    {\n        {\n            ;\n        }\n    }\n",
    ),
    ("return 0;", ""),
    ("/* a */ x = 1; // b", "    x = 1;\n"),
];

/// Expressions that are printed by `main`.
const EXPRESSIONS: [Row; 49] = [
    ("0", "0"),
    ("007", "7"),
    ("0XfF", "255"),
    ("2147483647", "2147483647"),
    ("2147483648", "2147483648LL"),
    ("5ll", "5LL"),
    ("9223372036854775807", "9223372036854775807LL"),
    ("(((x)))", "x"),
    ("a [ (x) ]", "a[x]"),
    ("b[x+1][a[y]]", "b[x + 1][a[y]]"),
    ("(b[1][2])", "b[1][2]"),
    ("- -x", "-(-x)"),
    ("-(-x)", "-(-x)"),
    ("- +x", "-(+x)"),
    ("+ -x", "+(-x)"),
    ("+(+x)", "+(+x)"),
    ("- - -x", "-(-(-x))"),
    ("-!x", "-!x"),
    ("!-x", "!-x"),
    ("!!x", "!!x"),
    ("!(x+y)", "!(x + y)"),
    ("-(x*y)", "-(x * y)"),
    ("-x*y", "-x * y"),
    ("-(int)-x", "-(int)-x"),
    ("(int)(x)", "(int)x"),
    ("(long long int)(int)x", "(long long)(int)x"),
    ("(int)(x+y)", "(int)(x + y)"),
    ("(int)x+y", "(int)x + y"),
    ("(x)-(y)", "x - y"),
    ("x- -y", "x - -y"),
    ("(x-y)-z", "x - y - z"),
    ("x-(y-z)", "x - (y - z)"),
    ("x+(y*z)", "x + y * z"),
    ("(x+y)*z", "(x + y) * z"),
    ("x*(y*z)", "x * (y * z)"),
    ("x/y*z%x", "x / y * z % x"),
    ("x/(y*z)", "x / (y * z)"),
    ("(x<y)<z", "x < y < z"),
    ("x<=(y>=z)", "x <= (y >= z)"),
    ("(x==y)!=z", "x == y != z"),
    ("x==(y>z)", "x == y > z"),
    ("(x==y)>z", "(x == y) > z"),
    ("x&&y||z", "x && y || z"),
    ("x&&(y||z)", "x && (y || z)"),
    ("x||(y||z)", "x || (y || z)"),
    ("x?y:z", "x ? y : z"),
    ("(x?y:z)?x:y", "(x ? y : z) ? x : y"),
    ("x?(y?1:2):(z?3:4)", "x ? y ? 1 : 2 : z ? 3 : 4"),
    ("x+(y?1:2)", "x + (y ? 1 : 2)"),
];

/// The text is translated to its printed form, and this to itself.
fn is_printed(rt: &impl Abort, alloc: Global, text: &str, printed: &str) -> Result<(), Fail> {
    for form in [text, printed] {
        let got = answer_to(alloc, &["translate"], form.as_bytes(), &NOTHING_FAILS)?;
        assert_eq!(rt; got.status, Status::Done, "{form}");
        assert_eq!(rt; got.out.as_slice(), printed.as_bytes(), "{form}");
        assert_eq!(rt; got.diag.len(), 0, "{form}");
    }
    Ok(())
}

/// A program with the items before `main`.
fn with_items(alloc: Global, items: &str) -> Result<String, AllocError> {
    format!(in alloc; "{items}int main(void) {{\n    return 0;\n}}\n")
}

#[test]
fn writes_each_item_in_its_printed_form(rt: HostRuntime) -> Result<(), Fail> {
    for (items, printed) in ITEMS {
        let text = with_items(rt.alloc(), items)?;
        let want = with_items(rt.alloc(), printed)?;
        is_printed(&rt, rt.alloc(), text.as_str(), want.as_str())?;
    }
    Ok(())
}

/// The lines of `main`, and its printed ones, are in their program.
fn are_printed(rt: &impl Abort, alloc: Global, lines: &str, printed: &str) -> Result<(), Fail> {
    let text = format!(in alloc; "{DECLARED}{lines}\n}}\n")?;
    let want = format!(in alloc; "{DECLARED_PRINTED}{printed}    return 0;\n}}\n")?;
    is_printed(rt, alloc, text.as_str(), want.as_str())
}

#[test]
fn writes_each_statement_in_its_printed_form(rt: HostRuntime) -> Result<(), Fail> {
    for (lines, printed) in STATEMENTS {
        are_printed(&rt, rt.alloc(), lines, printed)?;
    }
    Ok(())
}

#[test]
fn writes_each_expression_in_its_printed_form(rt: HostRuntime) -> Result<(), Fail> {
    for (expression, printed) in EXPRESSIONS {
        let lines = format!(in rt.alloc(); "print({expression});")?;
        let want = format!(in rt.alloc(); "    print({printed});\n")?;
        are_printed(&rt, rt.alloc(), lines.as_str(), want.as_str())?;
    }
    Ok(())
}
