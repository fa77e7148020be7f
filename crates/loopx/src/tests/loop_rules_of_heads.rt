//! The loop rules of the heads of affected loops, of their variables and of their bounds.

use super::loop_rules::{Row, answers};
use std::test::Fail;

/// Heads and what stands in the loops' bodies.
const HEADS: [Row; 58] = [
    // init gives a scalar variable its first value.
    (
        "int i = 0;\n#pragma omp reverse\nfor (i += 0; i < 4; i++) ;",
        "5:6: L2 init is not canonical\n",
    ),
    (
        "int i = 0;\n#pragma omp reverse\nfor (i++; i < 4; i++) ;",
        "5:6: L2 init is not canonical\n",
    ),
    (
        "int i = 0;\n#pragma omp reverse\nfor (; i < 4; i++) ;",
        "5:6: L2 init is not canonical\n",
    ),
    (
        "int i = 0;\n#pragma omp interchange\nfor (int j = 0; j < 4; j++) for (i += 0; i < 4; i++) ;",
        "5:34: L2 init is not canonical\n",
    ),
    (
        "int i = 0;\n#pragma omp reverse\nfor (i = 0; i < 4; i++) ;",
        "",
    ),
    (
        "int i = 0;\n#pragma omp reverse\nfor (int j = 0; j < 4; j++) for (i += 0; i < 4; i++) ;",
        "",
    ),
    // The test compares the variable with a bound.
    (
        "#pragma omp reverse\nfor (int i = 0; i; i++) ;",
        "4:17: L3 test is not canonical\n",
    ),
    (
        "#pragma omp reverse\nfor (int i = 0; (i + 4); i++) ;",
        "4:17: L3 test is not canonical\n",
    ),
    (
        "#pragma omp reverse\nfor (int i = 0; i == 4; i++) ;",
        "4:17: L3 test is not canonical\n",
    ),
    (
        "#pragma omp reverse\nfor (int i = 0; ; i++) ;",
        "4:17: L3 test is not canonical\n",
    ),
    (
        "int j = 0;\n#pragma omp reverse\nfor (int i = 0; j < 4; i++) ;",
        "5:17: L3 test is not canonical\n",
    ),
    (
        "#pragma omp reverse\nfor (int i = 0; i < 4 && 1; i++) ;",
        "4:17: L3 test is not canonical\n",
    ),
    (
        "#pragma omp reverse\nfor (int i = 0; i + 0 < 4; i++) ;",
        "4:17: L3 test is not canonical\n",
    ),
    ("#pragma omp reverse\nfor (int i = 0; (4 > (i)); i++) ;", ""),
    // The increment adds a constant whose sign fits the test.
    (
        "#pragma omp reverse\nfor (int i = 0; i < 4; i--) ;",
        "4:24: L4 increment is not canonical\n",
    ),
    (
        "#pragma omp reverse\nfor (int i = 4; i >= 0; i++) ;",
        "4:25: L4 increment is not canonical\n",
    ),
    (
        "#pragma omp reverse\nfor (int i = 0; i < 4; i += 0) ;",
        "4:24: L4 increment is not canonical\n",
    ),
    (
        "int n = 1;\n#pragma omp reverse\nfor (int i = 0; i < 4; i += n) ;",
        "5:24: L4 increment is not canonical\n",
    ),
    (
        "#pragma omp reverse\nfor (int i = 0; i != 4; i += 2) ;",
        "4:25: L4 increment is not canonical\n",
    ),
    (
        "#pragma omp reverse\nfor (int i = 0; i < 4; i *= 2) ;",
        "4:24: L4 increment is not canonical\n",
    ),
    (
        "#pragma omp reverse\nfor (int i = 0; i < 4; i = 1 - i) ;",
        "4:24: L4 increment is not canonical\n",
    ),
    (
        "#pragma omp reverse\nfor (int i = 0; i < 4; i = 4) ;",
        "4:24: L4 increment is not canonical\n",
    ),
    (
        "#pragma omp reverse\nfor (int i = 0; i < 4; ) ;",
        "4:24: L4 increment is not canonical\n",
    ),
    (
        "int j = 0;\n#pragma omp reverse\nfor (int i = 0; i < 4; j++) ;",
        "5:24: L4 increment is not canonical\n",
    ),
    (
        "#pragma omp reverse\nfor (long long i = 0; i > -4; i += -9223372036854775807 - 1) ;",
        "4:31: L4 increment is not canonical\n",
    ),
    (
        "#pragma omp reverse\nfor (long long i = 0; i > -4; i += -9223372036854775807) ;",
        "",
    ),
    ("#pragma omp reverse\nfor (int i = 0; i < 4; i -= -1) ;", ""),
    // Nothing in a loop's body assigns its variable.
    (
        "#pragma omp reverse\nfor (int i = 0; i < 4; i++) i++;",
        "4:29: L5 loop variable changed\n",
    ),
    (
        "#pragma omp reverse\nfor (int i = 0; i < 4; i++) { if (i) while (0) i = 1; }",
        "4:48: L5 loop variable changed\n",
    ),
    (
        "#pragma omp interchange\nfor (int i = 0; i < 4; i++) for (int j = 0; j < 4; j++) i = 1;",
        "4:57: L5 loop variable changed\n",
    ),
    (
        "int i;\n#pragma omp reverse\nfor (i = 0; i < 4; i++) { for (i = 0; i < 4; i++) ; }",
        "5:32: L5 loop variable changed\n",
    ),
    (
        "int i;\n#pragma omp interchange\nfor (i = 0; i < 4; i++) for (i = 0; i < 4; i++) ;",
        "5:30: L5 loop variable changed\n",
    ),
    (
        "#pragma omp reverse\nfor (int i = 0; i < 4; i++) {\n#pragma omp reverse\nfor (int j = 0; j < 4; j++) i -= 1; }",
        "6:29: L5 loop variable changed\n",
    ),
    (
        "int i = 7;\n#pragma omp reverse\nfor (int i = 0; i < 4; i++) { int i = 1; i++; }",
        "",
    ),
    (
        "int i = 7;\ni++;\n#pragma omp reverse\nfor (int j = 0; j < 4; j++) i++;",
        "",
    ),
    // Nothing in a construct assigns what a bound reads.
    (
        "int n = 4;\n#pragma omp reverse\nfor (int i = 0; i < n; i++) n = 1;",
        "5:21: L6 bound is not invariant\n",
    ),
    (
        "int n = 4;\n#pragma omp reverse\nfor (int i = n; i > 0; i--) { if (i) n--; }",
        "5:14: L6 bound is not invariant\n",
    ),
    (
        "int n = 4;\n#pragma omp interchange\nfor (int i = 0; i < 4; i++) for (int j = 0; j < 2 * n; j++) n = 2;",
        "5:53: L6 bound is not invariant\n",
    ),
    (
        "int n = 4;\n#pragma omp fuse\n{ for (int i = 0; i < n; i++) ; for (int j = 0; j < 4; j++) n = 1; }",
        "5:23: L6 bound is not invariant\n",
    ),
    (
        "int i = 0;\n#pragma omp reverse\nfor (i = i; i < 4; i++) ;",
        "5:10: L6 bound is not invariant\n",
    ),
    (
        "#pragma omp reverse\nfor (int i = 0; i < i; i++) ;",
        "4:21: L6 bound is not invariant\n",
    ),
    (
        "int i, j = 4;\n#pragma omp interchange\nfor (i = 0; i < j; i++) for (j = 0; j < 4; j++) ;",
        "5:17: L6 bound is not invariant\n",
    ),
    (
        "int n = 4;\nn = 3;\n#pragma omp reverse\nfor (int i = 0; i < n; i++) { int n = 1; n++; }",
        "",
    ),
    (
        "int n = 4;\n#pragma omp reverse\nfor (int i = 0; i < 4; i++) { n = i; for (int j = 0; j < n; j++) ; }",
        "",
    ),
    // No bound reads the variable of an affected loop round it.
    (
        "#pragma omp interchange\nfor (int i = 0; i < 4; i++) for (int j = 0; j < i; j++) ;",
        "4:49: L8 bounds depend on another affected loop\n",
    ),
    (
        "#pragma omp tile sizes(2, 2)\nfor (int i = 0; i < 4; i++) for (int j = 3 - i; j < 4; j++) ;",
        "4:46: L8 bounds depend on another affected loop\n",
    ),
    (
        "#pragma omp reverse apply(interchange)\nfor (int i = 0; i < 4; i++) for (int j = i; j < 4; j++) ;",
        "4:42: L8 bounds depend on another affected loop\n",
    ),
    (
        "int i;\n#pragma omp tile sizes(2, 2)\nfor (i = 0; i < 4; i++) for (int j = 0; j < i; j++) ;",
        "5:45: L8 bounds depend on another affected loop\n",
    ),
    (
        "#pragma omp interchange\n#pragma omp reverse\nfor (int i = 0; i < 4; i++) for (int j = 0; j < i; j++) ;",
        "5:49: L8 bounds depend on another affected loop\n",
    ),
    (
        "#pragma omp reverse\nfor (int i = 0; i < 4; i++) for (int j = 0; j < i; j++) ;",
        "",
    ),
    (
        "#pragma omp reverse\nfor (int i = 0; i < 4; i++)\n#pragma omp reverse\nfor (int j = 0; j < i; j++) ;",
        "",
    ),
    (
        "#pragma omp tile sizes(2)\nfor (int i = 0; i < 4; i++) for (int j = 0; j < i; j++) ;",
        "3:13: NotBuilt not built yet\n",
    ),
    // No `break` leaves an affected loop.
    (
        "#pragma omp reverse\nfor (int i = 0; i < 4; i++) { if (i) break; }",
        "4:38: L9 break leaves an affected loop\n",
    ),
    (
        "#pragma omp interchange\nfor (int i = 0; i < 4; i++) for (int j = 0; j < 4; j++) { if (i) { break; } }",
        "4:68: L9 break leaves an affected loop\n",
    ),
    (
        "#pragma omp fuse\n{ for (int i = 0; i < 4; i++) ; for (int j = 0; j < 4; j++) break; }",
        "4:61: L9 break leaves an affected loop\n",
    ),
    (
        "#pragma omp reverse apply(interchange)\nfor (int i = 0; i < 4; i++) for (int j = 0; j < 4; j++) break;",
        "4:57: L9 break leaves an affected loop\n",
    ),
    (
        "#pragma omp reverse\nfor (int i = 0; i < 4; i++) for (int j = 0; j < 4; j++) break;",
        "",
    ),
    (
        "#pragma omp reverse\nfor (int i = 0; i < 4; i++) { while (1) break; do { break; } while (1); }",
        "",
    ),
];

#[test]
fn affected_loops_are_canonical(rt: HostRuntime) -> Result<(), Fail> {
    answers(&rt, rt.alloc(), &HEADS)
}
