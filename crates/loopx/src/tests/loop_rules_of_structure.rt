//! The loop rules of structure: what a directive stands before, and the loops that it and its items find.

use super::loop_rules::{Row, answers};
use std::test::Fail;

/// What directives stand before.
const BODIES: [Row; 49] = [
    // Before a directive's end stands a loop or a directive.
    ("#pragma omp reverse\nwhile (1) ;", "4:1: L1 not a loop\n"),
    ("#pragma omp reverse\n;", "4:1: L1 not a loop\n"),
    (
        "#pragma omp reverse\nif (1) for (int i = 0; i < 4; i++) ;",
        "4:1: L1 not a loop\n",
    ),
    (
        "#pragma omp reverse\n{ { print(1); } }",
        "4:5: L1 not a loop\n",
    ),
    (
        "#pragma omp unroll\n#pragma omp reverse\ndo ; while (1);",
        "5:1: L1 not a loop\n",
    ),
    ("#pragma omp reverse\n{ }", "3:13: L1 not a loop\n"),
    (
        "#pragma omp tile sizes(2)\n{ { } }",
        "3:13: L1 not a loop\n",
    ),
    ("#pragma omp fuse\n{ }", "3:13: L1 not a loop\n"),
    (
        "#pragma omp reverse\n{ { for (int i = 0; i < 4; i++) ; } }",
        "",
    ),
    // The nest is as deep as the directive takes.
    (
        "#pragma omp tile sizes(2, 2)\nfor (int i = 0; i < 4; i++) ;",
        "3:13: L7 too few perfectly nested loops\n",
    ),
    (
        "#pragma omp interchange\nfor (int i = 0; i < 4; i++) ;",
        "3:13: L7 too few perfectly nested loops\n",
    ),
    (
        "#pragma omp interchange permutation(3, 1, 2)\nfor (int i = 0; i < 4; i++) for (int j = 0; j < 4; j++) ;",
        "3:13: L7 too few perfectly nested loops\n",
    ),
    (
        "#pragma omp tile sizes(2, 2)\nfor (int i = 0; i < 4; i++) { for (int j = 0; j < 4; j++) ; ; }",
        "3:13: L7 too few perfectly nested loops\n",
    ),
    (
        "#pragma omp tile sizes(2, 2)\nfor (int i = 0; i < 4; i++) { int x; for (int j = 0; j < 4; j++) ; }",
        "3:13: L7 too few perfectly nested loops\n",
    ),
    (
        "#pragma omp tile sizes(2, 2)\nfor (int i = 0; i < 4; i++) if (i) for (int j = 0; j < 4; j++) ;",
        "3:13: L7 too few perfectly nested loops\n",
    ),
    (
        "#pragma omp interchange\n#pragma omp unroll partial(2)\nfor (int i = 0; i < 4; i++) for (int j = 0; j < 4; j++) ;",
        "3:13: L7 too few perfectly nested loops\n",
    ),
    (
        "#pragma omp interchange\n#pragma omp fuse\nfor (int i = 0; i < 4; i++) for (int j = 0; j < 4; j++) ;",
        "3:13: L7 too few perfectly nested loops\n",
    ),
    (
        "#pragma omp reverse\n#pragma omp interchange\nfor (int i = 0; i < 4; i++) ;",
        "4:13: L7 too few perfectly nested loops\n",
    ),
    (
        "#pragma omp tile sizes(2, 2)\nfor (int i = 0; i < 4; i++) { { for (int j = 0; j < 4; j++) ; } }",
        "3:13: NotBuilt not built yet\n",
    ),
    (
        "#pragma omp interchange\n#pragma omp reverse\nfor (int i = 0; i < 4; i++) for (int j = 0; j < 4; j++) ;",
        "3:13: NotBuilt not built yet\n",
    ),
    (
        "#pragma omp tile sizes(2, 2)\n#pragma omp tile sizes(2)\nfor (int i = 0; i < 4; i++) ;",
        "3:13: NotBuilt not built yet\n",
    ),
    (
        "#pragma omp interchange\n#pragma omp split counts(omp_fill)\nfor (int i = 0; i < 4; i++) for (int j = 0; j < 4; j++) ;",
        "3:13: NotBuilt not built yet\n",
    ),
    (
        "#pragma omp tile sizes(2, 2)\nfor (int i = 0; i < 4; i++)\n#pragma omp reverse\nfor (int j = 0; j < 4; j++) ;",
        "3:13: NotBuilt not built yet\n",
    ),
    // A range ends with the sequence at the latest.
    (
        "#pragma omp fuse looprange(2, 2)\n{ for (int i = 0; i < 4; i++) ; for (int i = 0; i < 4; i++) ; }",
        "3:18: L19 range outside the sequence\n",
    ),
    (
        "#pragma omp fuse looprange(9223372036854775807, 9223372036854775807)\nfor (int i = 0; i < 4; i++) ;",
        "3:18: L19 range outside the sequence\n",
    ),
    (
        "#pragma omp fuse looprange(4, 1)\n{\n#pragma omp split counts(1, omp_fill)\nfor (int i = 0; i < 4; i++) ;\nfor (int i = 0; i < 4; i++) ; }",
        "3:18: L19 range outside the sequence\n",
    ),
    (
        "#pragma omp fuse looprange(2, 1)\n{ for (int i = 0; i < 4; i++) ; for (int i = 0; i < 4; i++) ; }",
        "3:13: NotBuilt not built yet\n",
    ),
    (
        "#pragma omp fuse looprange(3, 1)\n{\n#pragma omp split counts(1, omp_fill)\nfor (int i = 0; i < 4; i++) ;\nfor (int i = 0; i < 4; i++) ; }",
        "3:13: NotBuilt not built yet\n",
    ),
    // A member of a sequence is a loop or a directive.
    (
        "#pragma omp fuse\n{ for (int i = 0; i < 4; i++) ; print(1); }",
        "4:33: L20 sequence member is not a loop\n",
    ),
    (
        "#pragma omp fuse\n{ int x; for (int i = 0; i < 4; i++) ; }",
        "4:3: L20 sequence member is not a loop\n",
    ),
    (
        "#pragma omp fuse\n;",
        "4:1: L20 sequence member is not a loop\n",
    ),
    (
        "#pragma omp fuse\n{ for (int i = 0; i < 4; i++) ; { for (int i = 0; i < 4; i++) ; } }",
        "4:33: L20 sequence member is not a loop\n",
    ),
    (
        "#pragma omp fuse\n{ { for (int i = 0; i < 4; i++) ; for (int i = 0; i < 4; i++) ; } }",
        "3:13: NotBuilt not built yet\n",
    ),
    // Any other directive has one loop to act on.
    (
        "#pragma omp reverse\n{ for (int i = 0; i < 4; i++) ; for (int i = 0; i < 4; i++) ; }",
        "3:13: L21 more than one loop\n",
    ),
    (
        "#pragma omp reverse\n{ for (int i = 0; i < 4; i++) ; ; }",
        "3:13: L21 more than one loop\n",
    ),
    (
        "#pragma omp reverse\n{ int x; for (int i = 0; i < 4; i++) ; }",
        "3:13: L21 more than one loop\n",
    ),
    (
        "#pragma omp tile sizes(2)\n#pragma omp split counts(1, omp_fill)\nfor (int i = 0; i < 4; i++) ;",
        "3:13: L21 more than one loop\n",
    ),
    (
        "#pragma omp reverse\n#pragma omp fuse looprange(1, 1)\n{ for (int i = 0; i < 4; i++) ; for (int i = 0; i < 4; i++) ; }",
        "3:13: L21 more than one loop\n",
    ),
    (
        "#pragma omp tile sizes(2)\n#pragma omp reverse apply(split counts(1, omp_fill))\nfor (int i = 0; i < 4; i++) ;",
        "3:13: L21 more than one loop\n",
    ),
    (
        "#pragma omp fuse\n#pragma omp split counts(1, omp_fill)\nfor (int i = 0; i < 4; i++) ;",
        "3:13: NotBuilt not built yet\n",
    ),
    (
        "#pragma omp reverse\n#pragma omp fuse\n{ for (int i = 0; i < 4; i++) ; for (int i = 0; i < 4; i++) ; }",
        "4:13: NotBuilt not built yet\n",
    ),
    // And one that is left by what it stands round.
    (
        "#pragma omp tile sizes(2)\n#pragma omp unroll full\nfor (int i = 0; i < 4; i++) ;",
        "3:13: L22 no loop left\n",
    ),
    (
        "#pragma omp unroll full\n#pragma omp unroll full\nfor (int i = 0; i < 4; i++) ;",
        "3:13: L22 no loop left\n",
    ),
    (
        "#pragma omp fuse\n{\n#pragma omp unroll full\nfor (int i = 0; i < 4; i++) ;\nfor (int i = 0; i < 4; i++) ; }",
        "3:13: L22 no loop left\n",
    ),
    (
        "#pragma omp fuse looprange(2, 1)\n{\n#pragma omp unroll full\nfor (int i = 0; i < 4; i++) ;\nfor (int i = 0; i < 4; i++) ; }",
        "3:13: L22 no loop left\n",
    ),
    (
        "#pragma omp reverse\n#pragma omp unroll partial apply(unroll full)\nfor (int i = 0; i < 4; i++) ;",
        "3:13: L22 no loop left\n",
    ),
    (
        "#pragma omp reverse\n#pragma omp tile sizes(2) apply(grid: unroll full)\nfor (int i = 0; i < 4; i++) ;",
        "3:13: L22 no loop left\n",
    ),
    (
        "#pragma omp unroll full\n#pragma omp tile sizes(2)\nfor (int i = 0; i < 4; i++) ;",
        "3:13: NotBuilt not built yet\n",
    ),
    (
        "#pragma omp reverse\n#pragma omp tile sizes(2) apply(intratile: unroll full)\nfor (int i = 0; i < 4; i++) ;",
        "4:13: NotBuilt not built yet\n",
    ),
];

/// What items act on.
const ITEMS: [Row; 35] = [
    // The k-th item acts from the k-th loop downwards.
    (
        "#pragma omp tile sizes(2, 2) apply(intratile: nothing, interchange)\nfor (int i = 0; i < 4; i++) for (int j = 0; j < 4; j++) ;",
        "3:56: L7 too few perfectly nested loops\n",
    ),
    (
        "#pragma omp tile sizes(2, 2) apply(intratile: nothing, interchange)\nfor (int i = 0; i < 4; i++) for (int j = 0; j < 4; j++) for (int k = 0; k < 4; k++) ;",
        "3:13: NotBuilt not built yet\n",
    ),
    (
        "#pragma omp tile sizes(2, 2) apply(intratile: interchange)\nfor (int i = 0; i < 4; i++) for (int j = 0; j < 4; j++) ;",
        "3:13: NotBuilt not built yet\n",
    ),
    (
        "#pragma omp tile sizes(2, 2) apply(grid: interchange permutation(2, 3, 1))\nfor (int i = 0; i < 4; i++) for (int j = 0; j < 4; j++) ;",
        "3:13: NotBuilt not built yet\n",
    ),
    (
        "#pragma omp tile sizes(2) apply(grid: tile sizes(2, 2, 2))\nfor (int i = 0; i < 4; i++) ;",
        "3:39: L7 too few perfectly nested loops\n",
    ),
    (
        "#pragma omp tile sizes(2) apply(grid: tile sizes(2, 2, 2))\nfor (int i = 0; i < 4; i++) for (int j = 0; j < 4; j++) ;",
        "3:13: NotBuilt not built yet\n",
    ),
    (
        "#pragma omp interchange apply(nothing, tile sizes(2, 2))\nfor (int i = 0; i < 4; i++) for (int j = 0; j < 4; j++) ;",
        "3:40: L7 too few perfectly nested loops\n",
    ),
    (
        "#pragma omp interchange apply(nothing, tile sizes(2, 2))\nfor (int i = 0; i < 4; i++) for (int j = 0; j < 4; j++) for (int k = 0; k < 4; k++) ;",
        "3:13: NotBuilt not built yet\n",
    ),
    (
        "#pragma omp reverse apply(interchange)\nfor (int i = 0; i < 4; i++) ;",
        "3:27: L7 too few perfectly nested loops\n",
    ),
    (
        "#pragma omp reverse apply(interchange)\nfor (int i = 0; i < 4; i++) for (int j = 0; j < 4; j++) ;",
        "3:27: NotBuilt not built yet\n",
    ),
    (
        "#pragma omp split counts(1, omp_fill) apply(nothing, interchange)\nfor (int i = 0; i < 4; i++) ;",
        "3:54: L7 too few perfectly nested loops\n",
    ),
    (
        "#pragma omp split counts(1, omp_fill) apply(nothing, interchange)\nfor (int i = 0; i < 4; i++) for (int j = 0; j < 4; j++) ;",
        "3:13: NotBuilt not built yet\n",
    ),
    (
        "#pragma omp fuse apply(interchange)\n{ for (int i = 0; i < 4; i++) for (int j = 0; j < 4; j++) ; for (int i = 0; i < 4; i++) for (int j = 0; j < 4; j++) ; }",
        "3:24: L7 too few perfectly nested loops\n",
    ),
    (
        "#pragma omp fuse apply(tile sizes(2))\n{ for (int i = 0; i < 4; i++) for (int j = 0; j < 4; j++) ; for (int i = 0; i < 4; i++) for (int j = 0; j < 4; j++) ; }",
        "3:13: NotBuilt not built yet\n",
    ),
    (
        "#pragma omp unroll partial(2) apply(interchange)\nfor (int i = 0; i < 4; i++) for (int j = 0; j < 4; j++) ;",
        "3:37: L7 too few perfectly nested loops\n",
    ),
    (
        "#pragma omp unroll partial(2) apply(unroll full)\nfor (int i = 0; i < 4; i++) for (int j = 0; j < 4; j++) ;",
        "3:13: NotBuilt not built yet\n",
    ),
    // Items act from the last loop to the first.
    (
        "#pragma omp tile sizes(2) apply(grid: interchange) apply(intratile: unroll full)\nfor (int i = 0; i < 4; i++) ;",
        "3:39: L7 too few perfectly nested loops\n",
    ),
    (
        "#pragma omp tile sizes(2) apply(intratile: unroll full) apply(grid: interchange)\nfor (int i = 0; i < 4; i++) for (int j = 0; j < 4; j++) ;",
        "3:69: L7 too few perfectly nested loops\n",
    ),
    (
        "#pragma omp tile sizes(2) apply(grid: interchange) apply(intratile: reverse)\nfor (int i = 0; i < 4; i++) ;",
        "3:13: NotBuilt not built yet\n",
    ),
    (
        "#pragma omp tile sizes(2) apply(grid: unroll full) apply(intratile: interchange)\nfor (int i = 0; i < 4; i++) for (int j = 0; j < 4; j++) ;",
        "3:13: NotBuilt not built yet\n",
    ),
    // Items of items.
    (
        "#pragma omp tile sizes(2) apply(intratile: reverse apply(interchange))\nfor (int i = 0; i < 4; i++) ;",
        "3:58: L7 too few perfectly nested loops\n",
    ),
    (
        "#pragma omp tile sizes(2) apply(grid: reverse apply(interchange))\nfor (int i = 0; i < 4; i++) ;",
        "3:13: NotBuilt not built yet\n",
    ),
    (
        "#pragma omp reverse apply(split counts(1, omp_fill) apply(nothing, tile sizes(2, 2)))\nfor (int i = 0; i < 4; i++) ;",
        "3:68: L7 too few perfectly nested loops\n",
    ),
    (
        "#pragma omp reverse apply(split counts(1, omp_fill) apply(nothing, tile sizes(2, 2)))\nfor (int i = 0; i < 4; i++) for (int j = 0; j < 4; j++) ;",
        "3:27: NotBuilt not built yet\n",
    ),
    (
        "#pragma omp reverse apply(tile sizes(2) apply(intratile: interchange))\nfor (int i = 0; i < 4; i++) ;",
        "3:58: L7 too few perfectly nested loops\n",
    ),
    (
        "#pragma omp reverse apply(tile sizes(2) apply(intratile: interchange))\nfor (int i = 0; i < 4; i++) for (int j = 0; j < 4; j++) ;",
        "3:27: NotBuilt not built yet\n",
    ),
    // What is given at a deeper position stays below the loops round it, unless it is several loops.
    (
        "#pragma omp tile sizes(2) apply(grid: interchange) apply(intratile: split counts(1, omp_fill))\nfor (int i = 0; i < 4; i++) ;",
        "3:39: L7 too few perfectly nested loops\n",
    ),
    (
        "#pragma omp tile sizes(2) apply(grid: interchange) apply(intratile: split counts(omp_fill))\nfor (int i = 0; i < 4; i++) ;",
        "3:13: NotBuilt not built yet\n",
    ),
    (
        "#pragma omp tile sizes(2, 2)\n#pragma omp interchange apply(nothing, split counts(1, omp_fill))\nfor (int i = 0; i < 4; i++) for (int j = 0; j < 4; j++) ;",
        "3:13: L7 too few perfectly nested loops\n",
    ),
    (
        "#pragma omp tile sizes(2, 2)\n#pragma omp interchange apply(nothing, unroll partial(2))\nfor (int i = 0; i < 4; i++) for (int j = 0; j < 4; j++) ;",
        "3:13: NotBuilt not built yet\n",
    ),
    (
        "#pragma omp tile sizes(2, 2, 2)\n#pragma omp interchange apply(nothing, unroll partial(2))\nfor (int i = 0; i < 4; i++) for (int j = 0; j < 4; j++) for (int k = 0; k < 4; k++) ;",
        "3:13: L7 too few perfectly nested loops\n",
    ),
    (
        "#pragma omp tile sizes(2, 2, 2)\n#pragma omp interchange apply(nothing, reverse)\nfor (int i = 0; i < 4; i++) for (int j = 0; j < 4; j++) for (int k = 0; k < 4; k++) ;",
        "3:13: NotBuilt not built yet\n",
    ),
    (
        "#pragma omp tile sizes(2, 2, 2)\n#pragma omp interchange apply(nothing, tile sizes(2))\nfor (int i = 0; i < 4; i++) for (int j = 0; j < 4; j++) ;",
        "3:13: NotBuilt not built yet\n",
    ),
    (
        "#pragma omp fuse looprange(2, 1) apply(interchange)\n{ for (int i = 0; i < 4; i++) ; for (int i = 0; i < 4; i++) for (int j = 0; j < 4; j++) ; }",
        "3:40: L7 too few perfectly nested loops\n",
    ),
    (
        "#pragma omp fuse looprange(2, 1) apply(unroll full)\n{ for (int i = 0; i < 4; i++) ; for (int i = 0; i < 4; i++) for (int j = 0; j < 4; j++) ; }",
        "3:13: NotBuilt not built yet\n",
    ),
];

#[test]
fn directives_find_the_loops_that_they_take(rt: HostRuntime) -> Result<(), Fail> {
    answers(&rt, rt.alloc(), &BODIES)
}

#[test]
fn items_find_the_loops_that_they_take(rt: HostRuntime) -> Result<(), Fail> {
    answers(&rt, rt.alloc(), &ITEMS)
}
