//! The loop rules of counts: which loops have constant counts, and which depend on others.

use super::loop_rules::{Row, answers};
use std::test::Fail;

/// Counts of loops.
const COUNTS: [Row; 60] = [
    // What a directive takes doesn't depend on one another.
    (
        "#pragma omp interchange\n#pragma omp tile sizes(4)\nfor (int i = 0; i < 10; i++) print(i);",
        "3:13: L8 bounds depend on another affected loop\n",
    ),
    (
        "#pragma omp interchange\n#pragma omp tile sizes(4)\nfor (int i = 0; i < 8; i++) print(i);",
        "3:13: NotBuilt not built yet\n",
    ),
    (
        "#pragma omp interchange\n#pragma omp tile sizes(4)\nfor (int i = 0; i < 3; i++) ;",
        "3:13: NotBuilt not built yet\n",
    ),
    (
        "int n = 8;\n#pragma omp interchange\n#pragma omp tile sizes(4)\nfor (int i = 0; i < n; i++) ;",
        "4:13: L8 bounds depend on another affected loop\n",
    ),
    (
        "#pragma omp tile sizes(2, 2)\n#pragma omp tile sizes(4)\nfor (int i = 0; i < 10; i++) ;",
        "3:13: L8 bounds depend on another affected loop\n",
    ),
    (
        "#pragma omp tile sizes(2, 2)\n#pragma omp tile sizes(4)\nfor (int i = 0; i < 12; i++) ;",
        "3:13: NotBuilt not built yet\n",
    ),
    (
        "int n = 8;\n#pragma omp interchange\nfor (int i = 0; i < n; i++) for (int j = 0; j < n; j++) ;",
        "4:13: NotBuilt not built yet\n",
    ),
    (
        "#pragma omp tile sizes(2, 2, 2)\n#pragma omp tile sizes(4) apply(grid: tile sizes(2))\nfor (int i = 0; i < 10; i++) ;",
        "3:13: L8 bounds depend on another affected loop\n",
    ),
    (
        "#pragma omp tile sizes(2, 2, 2)\n#pragma omp tile sizes(4) apply(grid: tile sizes(2))\nfor (int i = 0; i < 16; i++) ;",
        "3:13: NotBuilt not built yet\n",
    ),
    (
        "#pragma omp interchange permutation(1, 3, 2)\n#pragma omp tile sizes(4)\nfor (int i = 0; i < 10; i++) for (int j = 0; j < 4; j++) ;",
        "3:13: L8 bounds depend on another affected loop\n",
    ),
    // What is fully unrolled has a constant count.
    (
        "int n = 4;\n#pragma omp unroll full\nfor (int i = 0; i < n; i++) ;",
        "4:13: L16 full without a constant count\n",
    ),
    (
        "#pragma omp unroll full\nfor (int i = 0; i < 4; i++) ;",
        "3:13: NotBuilt not built yet\n",
    ),
    (
        "#pragma omp unroll full\nfor (int i = 0; i < 3000000000; i++) ;",
        "3:13: L16 full without a constant count\n",
    ),
    (
        "#pragma omp unroll full\nfor (int i = 4; i < 4; i++) ;",
        "3:13: NotBuilt not built yet\n",
    ),
    (
        "#pragma omp unroll full\n#pragma omp tile sizes(4)\nfor (int i = 0; i < 10; i++) ;",
        "3:13: NotBuilt not built yet\n",
    ),
    (
        "int n = 4;\n#pragma omp unroll full\n#pragma omp tile sizes(4)\nfor (int i = 0; i < n; i++) ;",
        "4:13: L16 full without a constant count\n",
    ),
    (
        "int n = 4;\n#pragma omp unroll full\n#pragma omp fuse\n{ for (int i = 0; i < 4; i++) ; for (int j = 0; j < n; j++) ; }",
        "4:13: L16 full without a constant count\n",
    ),
    (
        "int n = 4;\n#pragma omp unroll full\n#pragma omp fuse\n{ for (int i = 0; i < 4; i++) ; for (int j = 0; j < 5; j++) ; }",
        "4:13: NotBuilt not built yet\n",
    ),
    (
        "#pragma omp unroll full\n#pragma omp interchange\nfor (int i = 0; i < 4; i++) for (int j = 0; j < 0; j++) ;",
        "3:13: NotBuilt not built yet\n",
    ),
    (
        "int n = 4;\n#pragma omp unroll full\n#pragma omp interchange\nfor (int i = 0; i < n; i++) for (int j = 0; j < 4; j++) ;",
        "4:13: L16 full without a constant count\n",
    ),
    (
        "#pragma omp unroll full\n#pragma omp unroll partial(3)\nfor (int i = 0; i < 10; i++) ;",
        "3:13: NotBuilt not built yet\n",
    ),
    (
        "#pragma omp unroll full\n#pragma omp reverse\n#pragma omp split counts(omp_fill)\nfor (int i = 0; i < 10; i++) ;",
        "3:13: NotBuilt not built yet\n",
    ),
    // Items act on the loops that their directives give.
    (
        "#pragma omp tile sizes(4) apply(intratile: unroll full)\nfor (int i = 0; i < 10; i++) ;",
        "3:44: L16 full without a constant count\n",
    ),
    (
        "#pragma omp tile sizes(4) apply(intratile: unroll full)\nfor (int i = 0; i < 8; i++) ;",
        "3:13: NotBuilt not built yet\n",
    ),
    (
        "#pragma omp tile sizes(4) apply(grid: unroll full)\nfor (int i = 0; i < 10; i++) ;",
        "3:13: NotBuilt not built yet\n",
    ),
    (
        "#pragma omp tile sizes(4) apply(intratile: unroll full)\nfor (int i = 0; i < 3; i++) ;",
        "3:13: NotBuilt not built yet\n",
    ),
    (
        "#pragma omp tile sizes(4) apply(grid: interchange)\nfor (int i = 0; i < 10; i++) ;",
        "3:39: L8 bounds depend on another affected loop\n",
    ),
    (
        "#pragma omp tile sizes(4) apply(grid: interchange)\nfor (int i = 0; i < 8; i++) ;",
        "3:13: NotBuilt not built yet\n",
    ),
    (
        "int n = 4;\n#pragma omp split counts(1, omp_fill) apply(nothing, unroll full)\nfor (int i = 0; i < n; i++) ;",
        "4:54: L16 full without a constant count\n",
    ),
    (
        "#pragma omp split counts(1, omp_fill) apply(nothing, unroll full)\nfor (int i = 0; i < 4; i++) ;",
        "3:13: NotBuilt not built yet\n",
    ),
    (
        "int n = 4;\n#pragma omp interchange apply(nothing, unroll full)\nfor (int i = 0; i < n; i++) for (int j = 0; j < 4; j++) ;",
        "4:40: L16 full without a constant count\n",
    ),
    (
        "int n = 4;\n#pragma omp interchange apply(nothing, unroll full)\nfor (int i = 0; i < 4; i++) for (int j = 0; j < n; j++) ;",
        "4:13: NotBuilt not built yet\n",
    ),
    (
        "int n = 4;\n#pragma omp reverse apply(unroll full)\nfor (int i = 0; i < n; i++) ;",
        "4:27: L16 full without a constant count\n",
    ),
    (
        "#pragma omp reverse apply(unroll full)\nfor (int i = 0; i < 4; i++) ;",
        "3:27: NotBuilt not built yet\n",
    ),
    (
        "int n = 4;\n#pragma omp unroll partial(2) apply(unroll full)\nfor (int i = 0; i < n; i++) ;",
        "4:37: L16 full without a constant count\n",
    ),
    (
        "int n = 4;\n#pragma omp fuse apply(unroll full)\nfor (int i = 0; i < n; i++) ;",
        "4:24: L16 full without a constant count\n",
    ),
    (
        "#pragma omp fuse apply(unroll full)\nfor (int i = 0; i < 4; i++) ;",
        "3:13: NotBuilt not built yet\n",
    ),
    // An interchanged first loop depends on what the taken ones depend on.
    (
        "#pragma omp tile sizes(4) apply(grid: interchange) apply(intratile: interchange)\nfor (int i = 0; i < 10; i++) for (int j = 0; j < 4; j++) ;",
        "3:39: L8 bounds depend on another affected loop\n",
    ),
    (
        "#pragma omp tile sizes(4) apply(grid: interchange) apply(intratile: interchange)\nfor (int i = 0; i < 8; i++) for (int j = 0; j < 4; j++) ;",
        "3:13: NotBuilt not built yet\n",
    ),
    // Items of items.
    (
        "#pragma omp tile sizes(4) apply(intratile: reverse apply(unroll full))\nfor (int i = 0; i < 10; i++) ;",
        "3:58: L16 full without a constant count\n",
    ),
    (
        "#pragma omp tile sizes(4) apply(intratile: reverse apply(unroll full))\nfor (int i = 0; i < 8; i++) ;",
        "3:13: NotBuilt not built yet\n",
    ),
    (
        "#pragma omp tile sizes(4) apply(grid: tile sizes(2) apply(intratile: interchange))\nfor (int i = 0; i < 10; i++) ;",
        "3:70: L8 bounds depend on another affected loop\n",
    ),
    (
        "#pragma omp tile sizes(4) apply(grid: tile sizes(2) apply(intratile: interchange))\nfor (int i = 0; i < 12; i++) ;",
        "3:13: NotBuilt not built yet\n",
    ),
    (
        "#pragma omp tile sizes(4) apply(grid: tile sizes(2) apply(grid: interchange))\nfor (int i = 0; i < 12; i++) ;",
        "3:65: L8 bounds depend on another affected loop\n",
    ),
    (
        "#pragma omp tile sizes(4) apply(grid: tile sizes(2) apply(grid: interchange))\nfor (int i = 0; i < 16; i++) ;",
        "3:13: NotBuilt not built yet\n",
    ),
    (
        "#pragma omp tile sizes(4) apply(grid: tile sizes(2) apply(intratile: unroll full))\nfor (int i = 0; i < 12; i++) ;",
        "3:70: L16 full without a constant count\n",
    ),
    (
        "#pragma omp tile sizes(4) apply(grid: tile sizes(2) apply(intratile: unroll full))\nfor (int i = 0; i < 16; i++) ;",
        "3:13: NotBuilt not built yet\n",
    ),
    (
        "#pragma omp tile sizes(4) apply(grid: tile sizes(2) apply(grid: unroll full))\nfor (int i = 0; i < 10; i++) ;",
        "3:13: NotBuilt not built yet\n",
    ),
    // A count that depends on a loop which is gone is that of a loop at the entry.
    (
        "#pragma omp tile sizes(4) apply(grid: reverse apply(unroll full)) apply(intratile: unroll partial(2))\nfor (int i = 0; i < 10; i++) ;",
        "3:13: NotBuilt not built yet\n",
    ),
    // Loops that don't depend on another loop which is taken, though on loops of the nest.
    (
        "#pragma omp interchange\n#pragma omp tile sizes(4, 4)\nfor (int i = 0; i < 10; i++) for (int j = 0; j < 10; j++) ;",
        "3:13: NotBuilt not built yet\n",
    ),
    (
        "#pragma omp interchange permutation(1, 3, 2)\n#pragma omp tile sizes(4, 4)\nfor (int i = 0; i < 10; i++) for (int j = 0; j < 10; j++) ;",
        "3:13: L8 bounds depend on another affected loop\n",
    ),
    (
        "#pragma omp tile sizes(4, 4) apply(intratile: interchange)\nfor (int i = 0; i < 10; i++) for (int j = 0; j < 10; j++) ;",
        "3:13: NotBuilt not built yet\n",
    ),
    (
        "#pragma omp tile sizes(4, 4) apply(grid(2): interchange)\nfor (int i = 0; i < 10; i++) for (int j = 0; j < 10; j++) ;",
        "3:13: NotBuilt not built yet\n",
    ),
    (
        "#pragma omp tile sizes(4, 4) apply(grid(2): interchange permutation(3, 2, 1))\nfor (int i = 0; i < 10; i++) for (int j = 0; j < 10; j++) ;",
        "3:45: L8 bounds depend on another affected loop\n",
    ),
    (
        "#pragma omp tile sizes(2)\n#pragma omp tile sizes(4)\nfor (int i = 0; i < 10; i++) ;",
        "3:13: NotBuilt not built yet\n",
    ),
    (
        "int n = 8;\n#pragma omp tile sizes(2, 2)\n#pragma omp interchange\nfor (int i = 0; i < n; i++) for (int j = 0; j < n; j++) ;",
        "4:13: NotBuilt not built yet\n",
    ),
    // Items of `split` and of a `fuse` with a range.
    (
        "int n = 4;\n#pragma omp split counts(1, omp_fill, 1) apply(nothing, nothing, unroll full)\nfor (int i = 0; i < n; i++) ;",
        "4:66: L16 full without a constant count\n",
    ),
    (
        "#pragma omp split counts(1, omp_fill, 1) apply(nothing, nothing, unroll full)\nfor (int i = 0; i < 4; i++) ;",
        "3:13: NotBuilt not built yet\n",
    ),
    (
        "int n = 4;\n#pragma omp fuse looprange(1, 1) apply(unroll full)\n{ for (int i = 0; i < n; i++) ; for (int j = 0; j < 4; j++) ; }",
        "4:40: L16 full without a constant count\n",
    ),
    (
        "int n = 4;\n#pragma omp fuse looprange(2, 1) apply(unroll full)\n{ for (int i = 0; i < n; i++) ; for (int j = 0; j < 4; j++) ; }",
        "4:13: NotBuilt not built yet\n",
    ),
];

#[test]
fn counts_of_generated_loops_are_known(rt: HostRuntime) -> Result<(), Fail> {
    answers(&rt, rt.alloc(), &COUNTS)
}
