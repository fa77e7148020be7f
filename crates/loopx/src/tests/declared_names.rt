//! The rules of declared names: texts that break one, each with the line that says where, beside texts that don't.

use super::name_rules::{Row, answers};
use std::test::Fail;

const N1: [Row; 45] = [
    (
        "void print(long long);\nint main(void) {\nprint(x);\n}\n",
        "3:7: N1 undeclared name\n",
    ),
    (
        "void print(long long);\nint main(void) {\nint x = 1; print(x);\n}\n",
        "",
    ),
    (
        "void print(long long);\nint main(void) {\nprint(x); int x = 1;\n}\n",
        "3:7: N1 undeclared name\n",
    ),
    (
        "void print(long long);\nint main(void) {\nint x = y;\n}\n",
        "3:9: N1 undeclared name\n",
    ),
    (
        "void print(long long);\nint main(void) {\nint x = x;\n}\n",
        "",
    ),
    (
        "void print(long long);\nint main(void) {\nint x = x + 1, y = x;\n}\n",
        "",
    ),
    (
        "void print(long long);\nint main(void) {\nint x = y, y = 1;\n}\n",
        "3:9: N1 undeclared name\n",
    ),
    (
        "void print(long long);\nint main(void) {\nint y = 1, x = y;\n}\n",
        "",
    ),
    (
        "int main(void) { print(1); }\n",
        "1:18: N1 undeclared name\n",
    ),
    ("void print(long long);\nint main(void) { print(1); }\n", ""),
    (
        "static void f(void) { print(1); }\nvoid print(long long);\nint main(void) {}\n",
        "1:23: N1 undeclared name\n",
    ),
    (
        "extern void print(long long value);\nvoid print(long long);\nstatic void f(void) { print(1); }\nint main(void) {}\n",
        "",
    ),
    (
        "int main(void) { int x; x = input(); }\n",
        "1:29: N1 undeclared name\n",
    ),
    (
        "long long input(void);\nint main(void) { int x; x = input(); }\n",
        "",
    ),
    (
        "long long input(void);\nint main(void) { int x = input(); }\n",
        "",
    ),
    (
        "static void f(int a) {}\nint main(void) { a = 1; }\n",
        "2:18: N1 undeclared name\n",
    ),
    (
        "int a;\nstatic void f(int a) {}\nint main(void) { a = 1; }\n",
        "",
    ),
    (
        "static void f(void) { int b; }\nstatic void g(void) { b = 1; }\nint main(void) {}\n",
        "2:23: N1 undeclared name\n",
    ),
    (
        "int b;\nstatic void f(void) { int b; }\nstatic void g(void) { b = 1; }\nint main(void) {}\n",
        "",
    ),
    (
        "static void f(void) { x = 1; }\nint main(void) { int x; }\n",
        "1:23: N1 undeclared name\n",
    ),
    (
        "int x;\nstatic void f(void) { x = 1; }\nint main(void) { int x; }\n",
        "",
    ),
    (
        "void print(long long);\nint main(void) {\n{ int x; }\nx = 1;\n}\n",
        "4:1: N1 undeclared name\n",
    ),
    (
        "void print(long long);\nint main(void) {\nint x;\n{ int x; }\nx = 1;\n}\n",
        "",
    ),
    (
        "void print(long long);\nint main(void) {\nfor (int i = 0; i < 2; i++) print(i);\nprint(i);\n}\n",
        "4:7: N1 undeclared name\n",
    ),
    (
        "void print(long long);\nint main(void) {\nint i;\nfor (i = 0; i < 2; i++) print(i);\nprint(i);\n}\n",
        "",
    ),
    (
        "void print(long long);\nint main(void) {\ndo { int x = 0; } while (x);\n}\n",
        "3:26: N1 undeclared name\n",
    ),
    (
        "void print(long long);\nint main(void) {\nint x = 0;\ndo { int x = 1; } while (x);\n}\n",
        "",
    ),
    (
        "void print(long long);\nint main(void) {\nfor (int i = 0; i < 2; k++) { int k; }\n}\n",
        "3:24: N1 undeclared name\n",
    ),
    (
        "void print(long long);\nint main(void) {\nint k = 0;\nfor (int i = 0; i < 2; k++) { int k; i = 3; }\n}\n",
        "",
    ),
    (
        "void print(long long);\nint main(void) {\nif (1) { int x; } else { x = 1; }\n}\n",
        "3:26: N1 undeclared name\n",
    ),
    (
        "void print(long long);\nint main(void) {\nif (1) { int x; } else { int x; x = 1; }\n}\n",
        "",
    ),
    (
        "void print(long long);\nstatic void f(int x) { print(x); }\nint main(void) {\ng();\n}\n",
        "4:1: N1 undeclared name\n",
    ),
    (
        "void print(long long);\nstatic void f(int x) { print(x); }\nint main(void) {\nf(1);\n}\n",
        "",
    ),
    (
        "static void f(void) { f(); }\nint main(void) {}\n",
        "1:23: N1 undeclared name\n",
    ),
    (
        "static void f(void) { }\nstatic void g(void) { f(); }\nint main(void) {}\n",
        "",
    ),
    (
        "static void f(void) { g(); }\nstatic void g(void) { }\nint main(void) {}\n",
        "1:23: N1 undeclared name\n",
    ),
    (
        "static void g(void) { }\nstatic void f(void) { g(); }\nint main(void) {}\n",
        "",
    ),
    (
        "int a[N];\n#define N 3\nint main(void) {}\n",
        "1:7: N1 undeclared name\n",
    ),
    ("#define N 3\nint a[N];\nint main(void) {}\n", ""),
    (
        "int a[2];\nint main(void) { a[i] = 1; }\n",
        "2:20: N1 undeclared name\n",
    ),
    ("int a[2];\nint main(void) { int i = 0; a[i] = 1; }\n", ""),
    (
        "void print(long long);\nstatic void f(int x) { print(x); }\nint main(void) {\nf(y);\n}\n",
        "4:3: N1 undeclared name\n",
    ),
    (
        "void print(long long);\nstatic void f(int x) { print(x); }\nint main(void) {\nint y = 1; f(y);\n}\n",
        "",
    ),
    (
        "void print(long long);\nint main(void) {\n#pragma omp tile sizes(n)\nfor (int i = 0; i < 4; i++) print(i);\n}\n",
        "3:24: N1 undeclared name\n",
    ),
    (
        "#define n 2\nvoid print(long long);\nint main(void) {\n#pragma omp tile sizes(n)\nfor (int i = 0; i < 4; i++) print(i);\n}\n",
        "4:13: NotBuilt not built yet\n",
    ),
];

const N2: [Row; 49] = [
    (
        "void print(long long);\nint main(void) {\nint x; int x;\n}\n",
        "3:12: N2 name declared twice\n",
    ),
    (
        "void print(long long);\nint main(void) {\nint x; { int x; }\n}\n",
        "",
    ),
    (
        "void print(long long);\nint main(void) {\nint x; int y;\n}\n",
        "",
    ),
    (
        "void print(long long);\nint main(void) {\nint x, x;\n}\n",
        "3:8: N2 name declared twice\n",
    ),
    (
        "void print(long long);\nint main(void) {\nint x, y;\n}\n",
        "",
    ),
    (
        "void print(long long);\nint main(void) {\nint x; long long x;\n}\n",
        "3:18: N2 name declared twice\n",
    ),
    (
        "void print(long long);\nint main(void) {\nint x; { long long x; }\n}\n",
        "",
    ),
    (
        "void print(long long);\nint main(void) {\nfor (int i = 0; i < 2; i++) { int j; int j; }\n}\n",
        "3:42: N2 name declared twice\n",
    ),
    (
        "void print(long long);\nint main(void) {\nfor (int i = 0; i < 2; i++) { int i = 1; print(i); }\n}\n",
        "",
    ),
    (
        "void print(long long);\nint main(void) {\nint i; for (int i = 0; i < 2; i++) print(i);\n}\n",
        "",
    ),
    (
        "static void f(int a) { int a; }\nint main(void) {}\n",
        "1:28: N2 name declared twice\n",
    ),
    (
        "static void f(int a) { { int a; } }\nint main(void) {}\n",
        "",
    ),
    (
        "static void f(int a) { for (int a = 0; a < 2; a++) ; }\nint main(void) {}\n",
        "",
    ),
    (
        "static void f(int a, long long a) {}\nint main(void) {}\n",
        "1:32: N2 name declared twice\n",
    ),
    (
        "static void f(int a, long long b) {}\nstatic void g(int a) {}\nint main(void) {}\n",
        "",
    ),
    (
        "int x;\nlong long x;\nint main(void) {}\n",
        "2:11: N2 name declared twice\n",
    ),
    (
        "int x;\nstatic void f(int x) {}\nint main(void) { int x; }\n",
        "",
    ),
    (
        "int f;\nstatic void f(void) {}\nint main(void) {}\n",
        "2:13: N2 name declared twice\n",
    ),
    ("int f;\nstatic void g(int f) {}\nint main(void) {}\n", ""),
    (
        "static void f(void) {}\nint f;\nint main(void) {}\n",
        "2:5: N2 name declared twice\n",
    ),
    (
        "static void f(void) {}\nint main(void) { int f; f = 1; }\n",
        "",
    ),
    (
        "static void f(void) {}\nstatic void f(int x) {}\nint main(void) {}\n",
        "2:13: N2 name declared twice\n",
    ),
    (
        "static void f(int f) {}\nstatic void g(void) { int g; g = 1; }\nint main(void) {}\n",
        "",
    ),
    (
        "#define N 1\n#define N 1\nint main(void) {}\n",
        "2:9: N2 name declared twice\n",
    ),
    ("#define N 1\n#define M 1\nint main(void) {}\n", ""),
    (
        "#define N 1\nint N;\nint main(void) {}\n",
        "2:5: N2 name declared twice\n",
    ),
    ("#define N 1\nint M;\nint main(void) {}\n", ""),
    (
        "int N;\n#define N 1\nint main(void) {}\n",
        "2:9: N2 name declared twice\n",
    ),
    ("int M;\n#define N 1\nint main(void) {}\n", ""),
    (
        "#define N 3\nvoid print(long long);\nlong long input(void);\nint main(void) {\nint N;\n}\n",
        "5:5: N2 name declared twice\n",
    ),
    (
        "#define N 3\nvoid print(long long);\nlong long input(void);\nint main(void) {\nint M;\n}\n",
        "",
    ),
    (
        "#define N 3\nvoid print(long long);\nlong long input(void);\nint main(void) {\n{ { int N; } }\n}\n",
        "5:9: N2 name declared twice\n",
    ),
    (
        "#define N 3\nvoid print(long long);\nlong long input(void);\nint main(void) {\n{ { int M; } }\n}\n",
        "",
    ),
    (
        "#define N 3\nvoid print(long long);\nlong long input(void);\nint main(void) {\nfor (int N = 0; ; ) break;\n}\n",
        "5:10: N2 name declared twice\n",
    ),
    (
        "#define N 3\nvoid print(long long);\nlong long input(void);\nint main(void) {\nfor (int M = 0; ; ) break;\n}\n",
        "",
    ),
    (
        "#define N 1\nstatic void f(int N) {}\nint main(void) {}\n",
        "2:19: N2 name declared twice\n",
    ),
    (
        "#define N 1\nstatic void f(int M) {}\nint main(void) {}\n",
        "",
    ),
    (
        "#define N 1\nstatic void N(void) {}\nint main(void) {}\n",
        "2:13: N2 name declared twice\n",
    ),
    (
        "#define N 1\nstatic void M(void) {}\nint main(void) {}\n",
        "",
    ),
    (
        "static void N(void) {}\n#define N 1\nint main(void) {}\n",
        "2:9: N2 name declared twice\n",
    ),
    (
        "static void M(void) {}\n#define N 1\nint main(void) {}\n",
        "",
    ),
    (
        "static void f(void) { int N; }\n#define N 1\nint main(void) {}\n",
        "2:9: N2 name declared twice\n",
    ),
    (
        "static void f(void) { int M; }\n#define N 1\nint main(void) {}\n",
        "",
    ),
    (
        "static void f(void) { while (0) { int N; } }\n#define N 1\nint main(void) {}\n",
        "2:9: N2 name declared twice\n",
    ),
    (
        "static void f(void) { while (0) { int M; } }\n#define N 1\nint main(void) {}\n",
        "",
    ),
    (
        "static void f(void) { for (int N = 0; ; ) break; }\n#define N 1\nint main(void) {}\n",
        "2:9: N2 name declared twice\n",
    ),
    (
        "static void f(void) { for (int M = 0; ; ) break; }\n#define N 1\nint main(void) {}\n",
        "",
    ),
    (
        "static void f(int N) {}\n#define N 1\nint main(void) {}\n",
        "2:9: N2 name declared twice\n",
    ),
    (
        "static void f(int M) {}\n#define N 1\nint main(void) {}\n",
        "",
    ),
];

#[test]
fn a_name_is_declared_before_it_is_used(rt: HostRuntime) -> Result<(), Fail> {
    answers(&rt, rt.alloc(), &N1)
}

#[test]
fn a_name_is_declared_once_in_a_scope(rt: HostRuntime) -> Result<(), Fail> {
    answers(&rt, rt.alloc(), &N2)
}
