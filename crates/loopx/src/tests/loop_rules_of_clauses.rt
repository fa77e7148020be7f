//! The loop rules of clauses: each is broken at its place, and kept by a text beside it.

use super::loop_rules::{Row, answers};
use std::test::Fail;

/// Clauses of directives.
const CLAUSES: [Row; 51] = [
    // A size is a constant of at least 1.
    (
        "#pragma omp tile sizes(0)\nfor (int i = 0; i < 4; i++) ;",
        "3:24: L10 size is not a positive constant\n",
    ),
    (
        "#pragma omp tile sizes(2, -1)\nfor (int i = 0; i < 4; i++) for (int j = 0; j < 4; j++) ;",
        "3:27: L10 size is not a positive constant\n",
    ),
    (
        "int n = 2;\n#pragma omp tile sizes(n)\nfor (int i = 0; i < 4; i++) ;",
        "4:24: L10 size is not a positive constant\n",
    ),
    (
        "#pragma omp tile sizes(1 / 0)\nfor (int i = 0; i < 4; i++) ;",
        "3:24: L10 size is not a positive constant\n",
    ),
    (
        "#pragma omp tile sizes(2147483647 + 1)\nfor (int i = 0; i < 4; i++) ;",
        "3:24: L10 size is not a positive constant\n",
    ),
    (
        "#pragma omp tile sizes(2, 1)\nfor (int i = 0; i < 4; i++) for (int j = 0; j < 4; j++) ;",
        "3:13: NotBuilt not built yet\n",
    ),
    (
        "#pragma omp tile sizes(4 - 3)\nfor (int i = 0; i < 4; i++) ;",
        "3:13: NotBuilt not built yet\n",
    ),
    // `tile` has sizes, and `split` counts.
    (
        "#pragma omp tile\nfor (int i = 0; i < 4; i++) ;",
        "3:13: L11 clause is missing\n",
    ),
    (
        "#pragma omp split\nfor (int i = 0; i < 4; i++) ;",
        "3:13: L11 clause is missing\n",
    ),
    (
        "#pragma omp tile apply(grid: reverse)\nfor (int i = 0; i < 4; i++) ;",
        "3:13: L11 clause is missing\n",
    ),
    (
        "#pragma omp tile counts(omp_fill)\nfor (int i = 0; i < 4; i++) ;",
        "3:13: L11 clause is missing\n",
    ),
    (
        "#pragma omp split counts(omp_fill)\nfor (int i = 0; i < 4; i++) ;",
        "3:13: NotBuilt not built yet\n",
    ),
    // A clause other than `apply` stands once, and `full` not beside `partial`.
    (
        "#pragma omp tile sizes(2) sizes(0)\nfor (int i = 0; i < 4; i++) ;",
        "3:27: L12 clause repeated or excluded\n",
    ),
    (
        "#pragma omp interchange permutation(2, 1) permutation(2, 1)\nfor (int i = 0; i < 4; i++) for (int j = 0; j < 4; j++) ;",
        "3:43: L12 clause repeated or excluded\n",
    ),
    (
        "#pragma omp split counts(omp_fill) counts(omp_fill)\nfor (int i = 0; i < 4; i++) ;",
        "3:36: L12 clause repeated or excluded\n",
    ),
    (
        "#pragma omp fuse looprange(1, 1) looprange(1, 1)\nfor (int i = 0; i < 4; i++) ;",
        "3:34: L12 clause repeated or excluded\n",
    ),
    (
        "#pragma omp unroll full full\nfor (int i = 0; i < 4; i++) ;",
        "3:25: L12 clause repeated or excluded\n",
    ),
    (
        "#pragma omp unroll partial partial(2)\nfor (int i = 0; i < 4; i++) ;",
        "3:28: L12 clause repeated or excluded\n",
    ),
    (
        "#pragma omp unroll full partial(2)\nfor (int i = 0; i < 4; i++) ;",
        "3:25: L12 clause repeated or excluded\n",
    ),
    (
        "#pragma omp unroll partial(2) full\nfor (int i = 0; i < 4; i++) ;",
        "3:31: L12 clause repeated or excluded\n",
    ),
    (
        "#pragma omp tile sizes(2) apply(grid: reverse) apply(intratile: reverse)\nfor (int i = 0; i < 4; i++) ;",
        "3:13: NotBuilt not built yet\n",
    ),
    // A clause belongs to its directive.
    (
        "#pragma omp reverse sizes(0)\nfor (int i = 0; i < 4; i++) ;",
        "3:21: L13 clause does not belong here\n",
    ),
    (
        "#pragma omp reverse permutation(2, 1)\nfor (int i = 0; i < 4; i++) ;",
        "3:21: L13 clause does not belong here\n",
    ),
    (
        "#pragma omp tile sizes(2) counts(1, omp_fill)\nfor (int i = 0; i < 4; i++) ;",
        "3:27: L13 clause does not belong here\n",
    ),
    (
        "#pragma omp tile sizes(2) looprange(1, 1)\nfor (int i = 0; i < 4; i++) ;",
        "3:27: L13 clause does not belong here\n",
    ),
    (
        "#pragma omp interchange full\nfor (int i = 0; i < 4; i++) for (int j = 0; j < 4; j++) ;",
        "3:25: L13 clause does not belong here\n",
    ),
    (
        "#pragma omp reverse partial\nfor (int i = 0; i < 4; i++) ;",
        "3:21: L13 clause does not belong here\n",
    ),
    (
        "#pragma omp fuse permutation(2, 1)\nfor (int i = 0; i < 4; i++) ;",
        "3:18: L13 clause does not belong here\n",
    ),
    (
        "#pragma omp unroll full\nfor (int i = 0; i < 4; i++) ;",
        "3:13: NotBuilt not built yet\n",
    ),
    // A permutation has the numbers 1 to n, for n of at least 2.
    (
        "#pragma omp interchange permutation(1, 3)\nfor (int i = 0; i < 4; i++) for (int j = 0; j < 4; j++) ;",
        "3:25: L14 not a permutation\n",
    ),
    (
        "#pragma omp interchange permutation(2, 2)\nfor (int i = 0; i < 4; i++) for (int j = 0; j < 4; j++) ;",
        "3:25: L14 not a permutation\n",
    ),
    (
        "#pragma omp interchange permutation(1)\nfor (int i = 0; i < 4; i++) for (int j = 0; j < 4; j++) ;",
        "3:25: L14 not a permutation\n",
    ),
    (
        "#pragma omp interchange permutation(0, 1)\nfor (int i = 0; i < 4; i++) for (int j = 0; j < 4; j++) ;",
        "3:25: L14 not a permutation\n",
    ),
    (
        "int n = 2;\n#pragma omp interchange permutation(n, 1)\nfor (int i = 0; i < 4; i++) for (int j = 0; j < 4; j++) ;",
        "4:25: L14 not a permutation\n",
    ),
    (
        "#pragma omp interchange permutation(2, 1)\nfor (int i = 0; i < 4; i++) for (int j = 0; j < 4; j++) ;",
        "3:13: NotBuilt not built yet\n",
    ),
    (
        "#pragma omp interchange permutation(3, 1, 2)\nfor (int i = 0; i < 4; i++) for (int j = 0; j < 4; j++) for (int k = 0; k < 4; k++) ;",
        "3:13: NotBuilt not built yet\n",
    ),
    // A factor is a constant of at least 1.
    (
        "#pragma omp unroll partial(0)\nfor (int i = 0; i < 4; i++) ;",
        "3:28: L15 factor is not a positive constant\n",
    ),
    (
        "int n = 2;\n#pragma omp unroll partial(n)\nfor (int i = 0; i < 4; i++) ;",
        "4:28: L15 factor is not a positive constant\n",
    ),
    (
        "#pragma omp unroll partial(1)\nfor (int i = 0; i < 4; i++) ;",
        "3:13: NotBuilt not built yet\n",
    ),
    (
        "#pragma omp unroll\nfor (int i = 0; i < 4; i++) ;",
        "3:13: NotBuilt not built yet\n",
    ),
    // `omp_fill` stands once.
    (
        "#pragma omp split counts(1, 2)\nfor (int i = 0; i < 4; i++) ;",
        "3:19: L17 omp_fill must stand once\n",
    ),
    (
        "#pragma omp split counts(omp_fill, 1, omp_fill)\nfor (int i = 0; i < 4; i++) ;",
        "3:19: L17 omp_fill must stand once\n",
    ),
    (
        "#pragma omp split counts(-1, 2)\nfor (int i = 0; i < 4; i++) ;",
        "3:19: L17 omp_fill must stand once\n",
    ),
    (
        "#pragma omp split counts(omp_fill, 1)\nfor (int i = 0; i < 4; i++) ;",
        "3:13: NotBuilt not built yet\n",
    ),
    // A count is a constant of at least 0.
    (
        "#pragma omp split counts(-1, omp_fill)\nfor (int i = 0; i < 4; i++) ;",
        "3:26: L18 count is not a constant of at least 0\n",
    ),
    (
        "int n = 2;\n#pragma omp split counts(omp_fill, n)\nfor (int i = 0; i < 4; i++) ;",
        "4:36: L18 count is not a constant of at least 0\n",
    ),
    (
        "#pragma omp split counts(0, omp_fill)\nfor (int i = 0; i < 4; i++) ;",
        "3:13: NotBuilt not built yet\n",
    ),
    // The arguments of `looprange` are constants of at least 1.
    (
        "#pragma omp fuse looprange(0, 1)\nfor (int i = 0; i < 4; i++) ;",
        "3:18: L19 range outside the sequence\n",
    ),
    (
        "#pragma omp fuse looprange(1, 0)\nfor (int i = 0; i < 4; i++) ;",
        "3:18: L19 range outside the sequence\n",
    ),
    (
        "int n = 1;\n#pragma omp fuse looprange(n, 1)\nfor (int i = 0; i < 4; i++) ;",
        "4:18: L19 range outside the sequence\n",
    ),
    (
        "#pragma omp fuse looprange(1, 1)\nfor (int i = 0; i < 4; i++) ;",
        "3:13: NotBuilt not built yet\n",
    ),
];

/// The clause `apply`.
const APPLY: [Row; 42] = [
    // The modifier is one of the directive's, and isn't missing on `tile`; no item is `fuse`.
    (
        "#pragma omp reverse apply(grid: reverse)\nfor (int i = 0; i < 4; i++) ;",
        "3:21: L23 wrong apply modifier or item\n",
    ),
    (
        "#pragma omp tile sizes(2) apply(reverse)\nfor (int i = 0; i < 4; i++) ;",
        "3:27: L23 wrong apply modifier or item\n",
    ),
    (
        "#pragma omp tile sizes(2) apply(reversed: reverse)\nfor (int i = 0; i < 4; i++) ;",
        "3:27: L23 wrong apply modifier or item\n",
    ),
    (
        "#pragma omp interchange apply(reversed: nothing)\nfor (int i = 0; i < 4; i++) for (int j = 0; j < 4; j++) ;",
        "3:25: L23 wrong apply modifier or item\n",
    ),
    (
        "#pragma omp split counts(omp_fill) apply(unrolled: reverse)\nfor (int i = 0; i < 4; i++) ;",
        "3:36: L23 wrong apply modifier or item\n",
    ),
    (
        "#pragma omp fuse apply(split: reverse)\nfor (int i = 0; i < 4; i++) ;",
        "3:18: L23 wrong apply modifier or item\n",
    ),
    (
        "#pragma omp unroll partial apply(fused: reverse)\nfor (int i = 0; i < 4; i++) ;",
        "3:28: L23 wrong apply modifier or item\n",
    ),
    (
        "#pragma omp reverse apply(fuse)\nfor (int i = 0; i < 4; i++) ;",
        "3:21: L23 wrong apply modifier or item\n",
    ),
    (
        "#pragma omp reverse apply(reverse apply(reversed: fuse))\nfor (int i = 0; i < 4; i++) ;",
        "3:35: L23 wrong apply modifier or item\n",
    ),
    (
        "#pragma omp tile sizes(2) apply(intratile: reverse)\nfor (int i = 0; i < 4; i++) ;",
        "3:13: NotBuilt not built yet\n",
    ),
    (
        "#pragma omp interchange apply(interchanged: reverse)\nfor (int i = 0; i < 4; i++) for (int j = 0; j < 4; j++) ;",
        "3:13: NotBuilt not built yet\n",
    ),
    (
        "#pragma omp split counts(omp_fill) apply(split: reverse)\nfor (int i = 0; i < 4; i++) ;",
        "3:13: NotBuilt not built yet\n",
    ),
    (
        "#pragma omp fuse apply(fused: reverse)\nfor (int i = 0; i < 4; i++) ;",
        "3:13: NotBuilt not built yet\n",
    ),
    (
        "#pragma omp unroll partial apply(unrolled: reverse)\nfor (int i = 0; i < 4; i++) ;",
        "3:13: NotBuilt not built yet\n",
    ),
    (
        "#pragma omp reverse apply(reverse)\nfor (int i = 0; i < 4; i++) ;",
        "",
    ),
    // There are no more items than loops of that kind.
    (
        "#pragma omp reverse apply(reversed: nothing, reverse)\nfor (int i = 0; i < 4; i++) ;",
        "3:21: L24 more items than loops\n",
    ),
    (
        "#pragma omp tile sizes(2) apply(grid: nothing, reverse)\nfor (int i = 0; i < 4; i++) ;",
        "3:27: L24 more items than loops\n",
    ),
    (
        "#pragma omp interchange apply(reverse, reverse, nothing)\nfor (int i = 0; i < 4; i++) for (int j = 0; j < 4; j++) ;",
        "3:25: L24 more items than loops\n",
    ),
    (
        "#pragma omp split counts(1, omp_fill) apply(nothing, nothing, nothing)\nfor (int i = 0; i < 4; i++) ;",
        "3:39: L24 more items than loops\n",
    ),
    (
        "#pragma omp unroll full apply(nothing)\nfor (int i = 0; i < 4; i++) ;",
        "3:25: L24 more items than loops\n",
    ),
    (
        "#pragma omp fuse apply(nothing, nothing)\nfor (int i = 0; i < 4; i++) ;",
        "3:18: L24 more items than loops\n",
    ),
    (
        "#pragma omp tile sizes(2) apply(grid(1): reverse, reverse)\nfor (int i = 0; i < 4; i++) ;",
        "3:27: L24 more items than loops\n",
    ),
    (
        "#pragma omp split counts(1, omp_fill) apply(nothing, reverse)\nfor (int i = 0; i < 4; i++) ;",
        "3:13: NotBuilt not built yet\n",
    ),
    (
        "#pragma omp unroll partial apply(nothing)\nfor (int i = 0; i < 4; i++) ;",
        "3:13: NotBuilt not built yet\n",
    ),
    // Indices are numbers of loops of that kind, each once, as many as items; and no loop has two directives.
    (
        "#pragma omp tile sizes(2) apply(grid(2): reverse)\nfor (int i = 0; i < 4; i++) ;",
        "3:27: L25 bad apply index\n",
    ),
    (
        "#pragma omp tile sizes(2) apply(grid(0): reverse)\nfor (int i = 0; i < 4; i++) ;",
        "3:27: L25 bad apply index\n",
    ),
    (
        "#pragma omp tile sizes(2) apply(grid(9000000000000000000): reverse)\nfor (int i = 0; i < 4; i++) ;",
        "3:27: L25 bad apply index\n",
    ),
    (
        "int n = 1;\n#pragma omp tile sizes(2) apply(grid(n): reverse)\nfor (int i = 0; i < 4; i++) ;",
        "4:27: L25 bad apply index\n",
    ),
    (
        "#pragma omp tile sizes(2, 2) apply(grid(1, 1): reverse, reverse)\nfor (int i = 0; i < 4; i++) for (int j = 0; j < 4; j++) ;",
        "3:30: L25 bad apply index\n",
    ),
    (
        "#pragma omp tile sizes(2, 2) apply(grid(1, 2): reverse)\nfor (int i = 0; i < 4; i++) for (int j = 0; j < 4; j++) ;",
        "3:30: L25 bad apply index\n",
    ),
    (
        "#pragma omp tile sizes(2) apply(grid: reverse) apply(grid(1): reverse)\nfor (int i = 0; i < 4; i++) ;",
        "3:48: L25 bad apply index\n",
    ),
    (
        "#pragma omp reverse apply(reverse apply(reversed(2): reverse))\nfor (int i = 0; i < 4; i++) ;",
        "3:35: L25 bad apply index\n",
    ),
    (
        "#pragma omp reverse apply(reverse) apply(reversed: reverse)\nfor (int i = 0; i < 4; i++) ;",
        "3:36: L25 bad apply index\n",
    ),
    (
        "#pragma omp tile sizes(2, 2) apply(grid(2, 1): reverse, nothing)\nfor (int i = 0; i < 4; i++) for (int j = 0; j < 4; j++) ;",
        "3:13: NotBuilt not built yet\n",
    ),
    (
        "#pragma omp tile sizes(2) apply(grid: nothing) apply(grid: reverse)\nfor (int i = 0; i < 4; i++) ;",
        "3:13: NotBuilt not built yet\n",
    ),
    (
        "#pragma omp tile sizes(2) apply(grid: reverse) apply(grid: nothing)\nfor (int i = 0; i < 4; i++) ;",
        "3:13: NotBuilt not built yet\n",
    ),
    // The clauses of items, and of directives that another takes.
    (
        "#pragma omp reverse apply(tile)\nfor (int i = 0; i < 4; i++) ;",
        "3:27: L11 clause is missing\n",
    ),
    (
        "#pragma omp reverse apply(tile sizes(0))\nfor (int i = 0; i < 4; i++) ;",
        "3:38: L10 size is not a positive constant\n",
    ),
    (
        "#pragma omp reverse apply(unroll full partial)\nfor (int i = 0; i < 4; i++) ;",
        "3:39: L12 clause repeated or excluded\n",
    ),
    (
        "#pragma omp reverse apply(split counts(2))\nfor (int i = 0; i < 4; i++) ;",
        "3:33: L17 omp_fill must stand once\n",
    ),
    (
        "#pragma omp reverse\n#pragma omp tile sizes(0)\nfor (int i = 0; i < 4; i++) ;",
        "4:24: L10 size is not a positive constant\n",
    ),
    (
        "#pragma omp reverse\n#pragma omp reverse\n#pragma omp reverse full\nfor (int i = 0; i < 4; i++) ;",
        "5:21: L13 clause does not belong here\n",
    ),
];

#[test]
fn clauses_have_constants_and_belong_to_their_directives(rt: HostRuntime) -> Result<(), Fail> {
    answers(&rt, rt.alloc(), &CLAUSES)
}

#[test]
fn items_are_put_on_loops_that_there_are(rt: HostRuntime) -> Result<(), Fail> {
    answers(&rt, rt.alloc(), &APPLY)
}
