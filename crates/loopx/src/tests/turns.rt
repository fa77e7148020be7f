//! How many turns of `for` loops the translation of a text takes, beside what it prints.

use super::in_main;
use c_meaning::directives::holds_no_directive;
use c_meaning::interpret::interpret;
use c_meaning::run::{Run, RunEnd};
use outside_io::CleanSink;
use std::alloc::Global;
use std::process::Abort;
use std::test::Fail;
use translator::tree::translate_tree;

/// A product of matrices, whose loops were tiled by hand: 64 + 64 * 64 turns, and then 4 + 4 * 4 + 4 * 4 * 4 turns over
/// tiles and 64 * 16 + 64 * 16 * 16 + 64 * 64 * 64 within them.
const TILED_PRODUCT: &str =
    "#define N 64\nvoid print(long long);\nint a[N][N];\nint b[N][N];\nint c[N][N];\nint main(void) {\nfor (int i = 0; i < N; i++)\nfor (int j = 0; j < N; j++) {\na[i][j] = i + j;\nb[i][j] = i - j;\n}\nfor (int s = 0; s < N; s += 16)\nfor (int t = 0; t < N; t += 16)\nfor (int u = 0; u < N; u += 16)\nfor (int i = s; i < s + 16; i++)\nfor (int j = t; j < t + 16; j++)\nfor (int k = u; k < u + 16; k++)\nc[i][j] += a[i][k] * b[k][j];\nprint(c[0][0]);\nprint(c[63][63]);\n}\n";

/// A reversed loop that calls a function with another: 2 turns and 2 in each of them.
const REVERSED_CALLS: &str =
    "void print(long long);\nstatic void row(int i) {\n#pragma omp reverse\nfor (int j = 0; j < 2; j++) print(10 * i + j);\n}\nint main(void) {\n#pragma omp reverse\nfor (int i = 0; i < 2; i++) row(i);\n}\n";

/// Lines of `main`, what they print, and their turns.
const TURNS: [(&str, &str, u64); 10] = [
    ("print(1);", "1\n", 0),
    ("for (int i = 0; i < 3; i++) ;", "", 3),
    (
        "for (int i = 0; i < 3; i++) for (int j = 0; j <= i; j++) print(j);",
        "0\n0\n1\n0\n1\n2\n",
        9,
    ),
    ("int i = 0; while (i < 5) i++; do i--; while (i);", "", 0),
    (
        "for (int i = 0; i < 9; i++) { if (i < 2) continue; break; }",
        "",
        3,
    ),
    (
        "#pragma omp reverse\nfor (int i = 0; i < 5; i++) print(i);",
        "4\n3\n2\n1\n0\n",
        5,
    ),
    (
        "#pragma omp reverse\nfor (int i = 5; i < 5; i++) print(i);",
        "",
        0,
    ),
    (
        "#pragma omp reverse apply(reverse)\nfor (int i = 0; i < 3; i++) print(i);",
        "0\n1\n2\n",
        3,
    ),
    (
        "int i;\n#pragma omp reverse\nfor (i = 3; i > 0; i -= 2) {\n#pragma omp reverse apply(reverse)\nfor (int j = 0; j < i; j++) print(i);\n}",
        "1\n3\n3\n3\n",
        6,
    ),
    (
        "int i;\n#pragma omp reverse apply(nothing)\nfor (i = 4; i < 4; i++) print(i);",
        "",
        0,
    ),
];

fn takes(
    rt: &impl Abort,
    alloc: Global,
    text: &str,
    printed: &str,
    turns: u64,
) -> Result<(), Fail> {
    let mut out = CleanSink::new(alloc, 4096, 4096)?;
    let mut answer = None;
    if let Ok(checked) = translate_tree(alloc, text.as_bytes()) {
        if holds_no_directive(checked.program()) {
            answer = Some(interpret(alloc, &checked, 1000, &[], &mut out));
        }
    }
    let end = RunEnd::Ended;
    assert_eq!(rt; answer, Some(Ok(Run { end, turns })), "{text}");
    assert_eq!(rt; out.bytes(), printed.as_bytes(), "{text}");
    Ok(())
}

#[test]
fn takes_as_many_turns_as_its_loops_say(rt: HostRuntime) -> Result<(), Fail> {
    for (lines, printed, turns) in &TURNS {
        let text = in_main(rt.alloc(), lines)?;
        takes(&rt, rt.alloc(), text.as_str(), printed, *turns)?;
    }
    takes(&rt, rt.alloc(), REVERSED_CALLS, "11\n10\n1\n0\n", 6)?;
    takes(&rt, rt.alloc(), TILED_PRODUCT, "85344\n-168672\n", 283796)
}
