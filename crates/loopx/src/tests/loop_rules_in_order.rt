//! Which breach is told: the order of the loop rules, and the rules where functions are called.

use super::loop_rules::{Row, answers, whole_answers};
use super::{answer_at_once, word_list};
use crate::status::Status;
use std::test::Fail;

/// Several breaches, and what comes before and after them.
const ORDER: [Row; 34] = [
    // Clauses, then structure, then heads, then counts.
    (
        "#pragma omp tile sizes(0)\nfor (int i = 0; i < 4; i += 0) { if (i) break; }",
        "3:24: L10 size is not a positive constant\n",
    ),
    (
        "#pragma omp tile sizes(2, 0)\nfor (int i = 0; i < 4; i++) ;",
        "3:27: L10 size is not a positive constant\n",
    ),
    (
        "#pragma omp fuse looprange(1, 1) full\n{ ; }",
        "3:34: L13 clause does not belong here\n",
    ),
    (
        "#pragma omp fuse\n{ for (int i = 0; i + 4; i++) ; print(1); }",
        "4:33: L20 sequence member is not a loop\n",
    ),
    (
        "int n = 4;\n#pragma omp unroll full\nfor (int i = 0; i < n; i++) i++;",
        "5:29: L5 loop variable changed\n",
    ),
    (
        "int n = 4;\n#pragma omp unroll full\nfor (int i = 0; i < n; i++) ;\n#pragma omp reverse\nfor (int i = 0; i < 4; i++) i++;",
        "4:13: L16 full without a constant count\n",
    ),
    // Each construct by itself, those in a body too.
    (
        "#pragma omp reverse\nfor (int i = 0; i < 4; i++) {\n#pragma omp tile sizes(2, 2)\nfor (int j = 0; j < 4; j++) ;\n}",
        "5:13: L7 too few perfectly nested loops\n",
    ),
    (
        "#pragma omp reverse\nfor (int i = 0; i < 4; i++) {\n#pragma omp tile sizes(0)\nfor (int j = 0; j < 4; j++) ;\ni = 1;\n}",
        "5:24: L10 size is not a positive constant\n",
    ),
    (
        "#pragma omp unroll full\nfor (int i = 0; i < 3000000000; i++) {\n#pragma omp tile sizes(0)\nfor (int j = 0; j < 4; j++) ;\n;\n}",
        "3:13: L16 full without a constant count\n",
    ),
    (
        "#pragma omp tile sizes(2, 2)\nfor (int i = 0; i < 4; i++) {\n#pragma omp tile sizes(0)\nfor (int j = 0; j < 4; j++) ;\n}",
        "5:24: L10 size is not a positive constant\n",
    ),
    (
        "if (1)\n#pragma omp reverse\n;\nelse\n#pragma omp tile\nfor (int i = 0; i < 4; i++) ;",
        "5:1: L1 not a loop\n",
    ),
    (
        "while (0) do {\n#pragma omp reverse\n;\n} while (0);",
        "5:1: L1 not a loop\n",
    ),
    // The least place, and at one place the least rule.
    (
        "#pragma omp reverse\nfor (int i = 0; i < 4; i++) { i++; if (i) break; }",
        "4:31: L5 loop variable changed\n",
    ),
    (
        "#pragma omp reverse\nfor (int i = 0; i < 4; i++) { if (i) break; i++; }",
        "4:38: L9 break leaves an affected loop\n",
    ),
    (
        "#pragma omp reverse\nfor (int i = 0; i + 4; i += 0) ;",
        "4:17: L3 test is not canonical\n",
    ),
    (
        "#pragma omp split\nfor (int i = 0; i < 4; i++) ;\n#pragma omp tile sizes(0)\nfor (int i = 0; i < 4; i++) ;",
        "3:13: L11 clause is missing\n",
    ),
    // Name rules come before loop rules, and what isn't built after them.
    (
        "#pragma omp tile sizes(0)\nfor (int i = 0; i < 4; i += 0) { if (i) break; }\nprint(x);",
        "5:7: N1 undeclared name\n",
    ),
    (
        "#pragma omp tile sizes(2)\nfor (int i = 0; i < 4; i++) ;\n#pragma omp reverse\nfor (int i = 0; i < 4; i++) i++;",
        "6:29: L5 loop variable changed\n",
    ),
    // A result is too deep or too large only where no other rule is broken.
    (
        "#pragma omp reverse\n#pragma omp reverse\n#pragma omp reverse\n#pragma omp reverse\n#pragma omp reverse\n#pragma omp reverse\n#pragma omp reverse\n#pragma omp reverse\n#pragma omp reverse\n#pragma omp reverse\n#pragma omp reverse\n#pragma omp reverse\n#pragma omp reverse\n#pragma omp reverse\n#pragma omp reverse\n#pragma omp reverse\n#pragma omp reverse\n#pragma omp reverse\n#pragma omp reverse\nfor (int i = 0; i < 5; i++) print(i);",
        "3:13: L26 result too deep\n",
    ),
    (
        "#pragma omp reverse\n#pragma omp reverse\n#pragma omp reverse\n#pragma omp reverse\n#pragma omp reverse\n#pragma omp reverse\n#pragma omp reverse\n#pragma omp reverse\n#pragma omp reverse\n#pragma omp reverse\n#pragma omp reverse\n#pragma omp reverse\n#pragma omp reverse\n#pragma omp reverse\n#pragma omp reverse\n#pragma omp reverse\n#pragma omp reverse\n#pragma omp reverse\n#pragma omp reverse\nfor (int i = 0; i < 5; i++) i++;",
        "22:29: L5 loop variable changed\n",
    ),
    (
        "#pragma omp reverse\n#pragma omp reverse\n#pragma omp reverse\n#pragma omp reverse\n#pragma omp reverse\n#pragma omp reverse\n#pragma omp reverse\n#pragma omp reverse\n#pragma omp reverse\n#pragma omp reverse\n#pragma omp reverse\n#pragma omp reverse\n#pragma omp reverse\n#pragma omp reverse\n#pragma omp reverse\n#pragma omp reverse\n#pragma omp reverse\n#pragma omp reverse\n#pragma omp reverse\nfor (int i = 0; i < 4; i++) ;\n#pragma omp unroll partial(20000)\nfor (int i = 0; i < 4; i++) ;\n#pragma omp tile sizes(0)\nfor (int i = 0; i < 4; i++) ;",
        "25:24: L10 size is not a positive constant\n",
    ),
    (
        "#pragma omp unroll partial(20000)\nfor (int i = 0; i < 4; i++) ;\n#pragma omp reverse\n#pragma omp reverse\n#pragma omp reverse\n#pragma omp reverse\n#pragma omp reverse\n#pragma omp reverse\n#pragma omp reverse\n#pragma omp reverse\n#pragma omp reverse\n#pragma omp reverse\n#pragma omp reverse\n#pragma omp reverse\n#pragma omp reverse\n#pragma omp reverse\n#pragma omp reverse\n#pragma omp reverse\n#pragma omp reverse\n#pragma omp reverse\n#pragma omp reverse\nfor (int i = 0; i < 4; i++) ;",
        "3:13: L26 result too deep\n",
    ),
    (
        "#pragma omp unroll partial(5000)\nfor (int i = 0; i < 5; i++) print(i);",
        "3:13: NotBuilt not built yet\n",
    ),
    (
        "#pragma omp unroll partial(20000)\nfor (int i = 0; i < 5; i++) print(i);",
        "3:13: L27 result too large\n",
    ),
    (
        "#pragma omp unroll partial(1000)\n#pragma omp unroll partial(1000)\nfor (int i = 0; i < 5; i++) print(i);",
        "3:13: L27 result too large\n",
    ),
    (
        "#pragma omp unroll full\nfor (long long i = 0; i < 1099511627776; i++) ;",
        "3:13: L27 result too large\n",
    ),
    (
        "#pragma omp reverse\nfor (int i = 0; i < 4; i++) ;\n#pragma omp unroll partial(9223372036854775807)\n#pragma omp unroll partial(9223372036854775807)\nfor (int i = 0; i < 4; i++) ;",
        "3:13: L27 result too large\n",
    ),
    // What isn't built yet is named by the first directive or item other than `reverse` and `nothing`.
    (
        "#pragma omp reverse\nfor (int i = 0; i < 4; i++) ;\n#pragma omp tile sizes(2)\nfor (int i = 0; i < 4; i++) ;",
        "5:13: NotBuilt not built yet\n",
    ),
    (
        "#pragma omp reverse\n#pragma omp reverse\n#pragma omp unroll\nfor (int i = 0; i < 4; i++) ;",
        "5:13: NotBuilt not built yet\n",
    ),
    (
        "#pragma omp reverse apply(reverse apply(unroll))\n#pragma omp tile sizes(2)\nfor (int i = 0; i < 4; i++) ;",
        "3:41: NotBuilt not built yet\n",
    ),
    (
        "#pragma omp reverse\nfor (int i = 0; i < 4; i++) {\n#pragma omp fuse\nfor (int j = 0; j < 4; j++) ;\n}",
        "5:13: NotBuilt not built yet\n",
    ),
    (
        "if (0)\n#pragma omp reverse\nfor (int i = 0; i < 4; i++) ;\nelse\n#pragma omp interchange\nfor (int i = 0; i < 4; i++) for (int j = 0; j < 4; j++) ;",
        "7:13: NotBuilt not built yet\n",
    ),
    (
        "#pragma omp reverse apply(nothing)\nfor (int i = 0; i < 4; i++) ;",
        "",
    ),
    (
        "int i;\n#pragma omp reverse\nfor (int i = 0; i < 4; i++) ;\n#pragma omp reverse\nfor (i = 0; i < 4; i++) ;",
        "",
    ),
];

/// Whole texts with functions.
const FUNCTIONS: [Row; 25] = [
    // What a called function assigns and reads.
    (
        "void print(long long);\nint i = 7; int n = 3;\nstatic void f(void) { print(i); }\nint main(void) {\n#pragma omp reverse\nfor (i = 0; i < 2; i++) f();\n}\n",
        "6:25: L28 function not allowed here\n",
    ),
    (
        "void print(long long);\nint i = 7; int n = 3;\nstatic void f(void) { i = 5; }\nint main(void) {\n#pragma omp reverse\nfor (i = 0; i < 2; i++) f();\n}\n",
        "6:25: L5 loop variable changed\n",
    ),
    (
        "void print(long long);\nint i = 7; int n = 3;\nstatic void f(void) { n = 1; }\nint main(void) {\n#pragma omp reverse\nfor (int i = 0; i < n; i++) f();\n}\n",
        "6:21: L6 bound is not invariant\n",
    ),
    (
        "void print(long long);\nint i = 7; int n = 3;\nstatic void f(void) { print(n); }\nint main(void) {\n#pragma omp reverse\nfor (int i = 0; i < n; i++) f();\n}\n",
        "",
    ),
    (
        "void print(long long);\nint i = 7; int n = 3;\nstatic void f(void) { i++; }\nint main(void) {\n#pragma omp reverse\nfor (i = 0; i < 2; i++) f();\n}\n",
        "6:25: L5 loop variable changed\n",
    ),
    (
        "void print(long long);\nint i = 7; int n = 3;\nstatic void f(void) { int i = 5; i++; print(i); }\nint main(void) {\n#pragma omp reverse\nfor (i = 0; i < 2; i++) f();\n}\n",
        "",
    ),
    (
        "void print(long long);\nint i = 7; int n = 3;\nstatic void f(void) { print(i); i = 5; }\nint main(void) {\n#pragma omp reverse\nfor (int i = 0; i < 2; i++) f();\n}\n",
        "",
    ),
    (
        "void print(long long);\nint i = 7; int n = 3;\nstatic void f(void) { print(i); } static void g(int i) { f(); print(i); }\nint main(void) {\n#pragma omp reverse\nfor (i = 0; i < 2; i++) if (i) g(1);\n}\n",
        "6:32: L28 function not allowed here\n",
    ),
    (
        "void print(long long);\nint i = 7; int n = 3;\nstatic void f(void) { i = 5; } static void g(int i) { f(); print(i); }\nint main(void) {\n#pragma omp reverse\nfor (i = 0; i < 2; i++) g(1);\n}\n",
        "6:25: L5 loop variable changed\n",
    ),
    (
        "void print(long long);\nint i = 7; int n = 3;\nstatic void f(void) { n = 5; } static void g(int n) { f(); print(n); }\nint main(void) {\n#pragma omp reverse\nfor (int i = 0; i < 2 + n; i++) g(1);\n}\n",
        "6:25: L6 bound is not invariant\n",
    ),
    (
        "void print(long long);\nint i = 7; int n = 3;\nstatic void f(int n) { n = 5; print(n); }\nint main(void) {\n#pragma omp reverse\nfor (int i = 0; i < n; i++) f(i);\n}\n",
        "",
    ),
    (
        "void print(long long);\nint i = 7; int n = 3;\nstatic void f(void) { for (i = 0; i < 2; i++) ; }\nint main(void) {\n#pragma omp reverse\nfor (i = 0; i < 2; i++) f();\n}\n",
        "6:25: L5 loop variable changed\n",
    ),
    // Constructs in functions.
    (
        "void print(long long);\nint i = 7; int n = 3;\nstatic void f(int n) {\n#pragma omp reverse\nfor (int i = 0; i < n; i++) n = i;\n}\nint main(void) { f(2); }\n",
        "5:21: L6 bound is not invariant\n",
    ),
    (
        "void print(long long);\nint i = 7; int n = 3;\nstatic void f(int n) {\n#pragma omp reverse\nfor (int i = 0; i < n; i++) print(i);\nn = 1;\n}\nint main(void) { f(2); }\n",
        "",
    ),
    (
        "void print(long long);\nint i = 7; int n = 3;\nstatic void f(int n) {\n#pragma omp reverse\nfor (n = 0; n < 4; n++) n = 1;\n}\nint main(void) {\n#pragma omp tile\n;\n}\n",
        "5:25: L5 loop variable changed\n",
    ),
    (
        "void print(long long);\nint i = 7; int n = 3;\nstatic void f(void) {\n#pragma omp reverse\nfor (int i = 0; i < 4; i++) ;\n}\nint main(void) {\n#pragma omp reverse\nfor (int i = 0; i < 4; i++) { i = 1; f(); }\n}\n",
        "9:31: L5 loop variable changed\n",
    ),
    (
        "void print(long long);\nint i = 7; int n = 3;\nstatic void f(void) {\n#pragma omp tile sizes(2)\nfor (int i = 0; i < 4; i++) ;\n}\nint main(void) {\n#pragma omp unroll\nfor (int i = 0; i < 4; i++) ;\n}\n",
        "4:13: NotBuilt not built yet\n",
    ),
    (
        "void print(long long);\nstatic void f(int x) { print(x); }\nint main(void) {\n#pragma omp reverse\nfor (int i = 0; i < 2; i++) f(i);\n}\n",
        "",
    ),
    (
        "void print(long long);\nstatic void row(int i) {\n#pragma omp reverse\nfor (int j = 0; j < 2; j++) print(10 * i + j);\n}\nint main(void) {\n#pragma omp reverse\nfor (int i = 0; i < 2; i++) row(i);\n}\n",
        "",
    ),
    // Arrays of the file.
    (
        "int a[4];\nint main(void) {\n#pragma omp reverse\nfor (a[0] = 0; a[0] < 4; a[0]++) ;\n}\n",
        "4:6: L2 init is not canonical\n",
    ),
    (
        "int a[2];\nint main(void) {\n#pragma omp reverse\nfor (int i = 0; i < a[0]; i++) a[1] = 2;\n}\n",
        "4:21: L6 bound is not invariant\n",
    ),
    (
        "int a[2], b[2];\nint main(void) {\n#pragma omp reverse\nfor (int i = 0; i < a[0]; i++) b[0] = a[1];\n}\n",
        "",
    ),
    // Defines are constants, also where a function stands between.
    (
        "#define N 2\nstatic void f(void) {}\nint main(void) {\n#pragma omp tile sizes(N)\nfor (int i = 0; i < 4; i++) ;\n}\n",
        "4:13: NotBuilt not built yet\n",
    ),
    (
        "#define N 0\nint main(void) {\n#pragma omp tile sizes(N)\nfor (int i = 0; i < 4; i++) ;\n}\n",
        "3:24: L10 size is not a positive constant\n",
    ),
    (
        "#define N 4\nint main(void) {\n#pragma omp unroll full\nfor (int i = 0; i < N; i++) ;\n}\n",
        "3:13: NotBuilt not built yet\n",
    ),
];

/// Whole texts, and what they print.
const RUNS: [Row; 5] = [
    // As many directives as the height of the result allows.
    (
        "void print(long long);\nint main(void) {\n#pragma omp reverse\n#pragma omp reverse\n#pragma omp reverse\n#pragma omp reverse\n#pragma omp reverse\n#pragma omp reverse\n#pragma omp reverse\n#pragma omp reverse\n#pragma omp reverse\n#pragma omp reverse\n#pragma omp reverse\n#pragma omp reverse\n#pragma omp reverse\n#pragma omp reverse\n#pragma omp reverse\n#pragma omp reverse\n#pragma omp reverse\n#pragma omp reverse\nfor (int i = 0; i < 5; i++) print(i);\n}\n",
        "0\n1\n2\n3\n4\n",
    ),
    // Calls in reversed loops.
    (
        "void print(long long);\nstatic void f(int x) { print(x); }\nint main(void) {\n#pragma omp reverse\nfor (int i = 0; i < 2; i++) f(i);\n}\n",
        "1\n0\n",
    ),
    (
        "void print(long long);\nint i = 7; int n = 3;\nstatic void f(void) { print(n); }\nint main(void) {\n#pragma omp reverse\nfor (int i = 0; i < n; i++) f();\n}\n",
        "3\n3\n3\n",
    ),
    (
        "void print(long long);\nint i = 7; int n = 3;\nstatic void f(void) { print(i); i++; }\nint main(void) {\n#pragma omp reverse\nfor (int i = 0; i < 2; i++) f();\n}\n",
        "7\n8\n",
    ),
    (
        "void print(long long);\nstatic void row(int i) {\n#pragma omp reverse\nfor (int j = 0; j < 2; j++) print(10 * i + j);\n}\nint main(void) {\n#pragma omp reverse\nfor (int i = 0; i < 2; i++) row(i);\n}\n",
        "11\n10\n1\n0\n",
    ),
];

#[test]
fn tells_the_first_breach(rt: HostRuntime) -> Result<(), Fail> {
    answers(&rt, rt.alloc(), &ORDER)
}

#[test]
fn calls_may_change_and_read_file_scope_variables(rt: HostRuntime) -> Result<(), Fail> {
    whole_answers(&rt, rt.alloc(), &FUNCTIONS)
}

#[test]
fn texts_at_the_edge_of_a_rule_are_run(rt: HostRuntime) -> Result<(), Fail> {
    for (text, lines) in RUNS {
        let words = word_list(rt.alloc(), &["run", "100"])?;
        let bytes = Vec::from_slice(rt.alloc(), text.as_bytes())?;
        let got = answer_at_once(rt.alloc(), words.as_slice(), bytes, 1 << 16)?;
        assert_eq!(rt; got.diag.len(), 0, "{text}");
        assert_eq!(rt; got.status, Status::Done, "{text}");
        assert_eq!(rt; got.out.as_slice(), lines.as_bytes(), "{text}");
    }
    Ok(())
}
