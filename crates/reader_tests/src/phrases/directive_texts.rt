//! Texts of `#pragma omp` lines with their directives, or with the place at which they have none.

use super::read::{directive_at, tokens_of};
use super::show::show;
use std::alloc::Global;
use std::process::Abort;
use std::test::Fail;

/// Each text after `#pragma omp ` is the directive that is shown, with the spans of its nodes and then the index of the
/// end of the line.
const DIRECTIVES: [(&str, &str); 29] = [
    ("unroll", "Unroll:12:18 next 4"),
    ("unroll full", "(Unroll full:19:23):12:23 next 5"),
    ("unroll partial", "(Unroll partial:19:26):12:26 next 5"),
    (
        "unroll, partial(4)",
        "(Unroll (partial 4:28:29):20:30):12:30 next 9",
    ),
    (
        "unroll partial full, partial",
        "(Unroll partial:19:26 full:27:31 partial:33:40):12:40 next 8",
    ),
    ("tile sizes(2)", "(Tile (sizes 2:23:24):17:25):12:25 next 8"),
    (
        "tile sizes(n + 1, (m), -1)",
        "(Tile (sizes (Add n:23:24 1:27:28):23:28 m:31:32 (Neg 1:36:37):35:37):17:38):12:38 next 17",
    ),
    (
        "tile sizes((int) -x, a ? b : c)",
        "(Tile (sizes (int (Neg x:30:31):29:31):23:31 (? a:33:34 b:37:38 c:41:42):33:42):17:43):12:43 next 18",
    ),
    (
        "tile sizes((2), 3) sizes(4)",
        "(Tile (sizes 2:24:25 3:28:29):17:30 (sizes 4:37:38):31:39):12:39 next 16",
    ),
    ("interchange", "Interchange:12:23 next 4"),
    (
        "interchange permutation(2, 1)",
        "(Interchange (permutation 2:36:37 1:39:40):24:41):12:41 next 10",
    ),
    ("reverse full", "(Reverse full:20:24):12:24 next 5"),
    (
        "split counts(omp_fill)",
        "(Split (counts omp_fill:25:33):18:34):12:34 next 8",
    ),
    (
        "split counts(2, omp_fill, a[i] * 2)",
        "(Split (counts 2:25:26 omp_fill:28:36 (Mul (a i:40:41):38:42 2:45:46):38:46):18:47):12:47 next 17",
    ),
    (
        "fuse looprange(1, 2)",
        "(Fuse (looprange 1:27:28 2:30:31):17:32):12:32 next 10",
    ),
    (
        "fuse looprange(f ? 1 : 2, (3))",
        "(Fuse (looprange (? f:27:28 1:31:32 2:35:36):27:36 3:39:40):17:42):12:42 next 16",
    ),
    (
        "reverse apply(nothing)",
        "(Reverse (apply nothing:26:33):20:34):12:34 next 8",
    ),
    (
        "reverse apply(reverse)",
        "(Reverse (apply Reverse:26:33):20:34):12:34 next 8",
    ),
    (
        "tile apply(nothing, nothing)",
        "(Tile (apply nothing:23:30 nothing:32:39):17:40):12:40 next 10",
    ),
    (
        "tile sizes(2) apply(grid: reverse)",
        "(Tile (sizes 2:23:24):17:25 (apply grid : Reverse:38:45):26:46):12:46 next 14",
    ),
    (
        "tile apply(nothing: nothing)",
        "(Tile (apply nothing : nothing:32:39):17:40):12:40 next 10",
    ),
    (
        "tile apply(tile: tile)",
        "(Tile (apply tile : Tile:29:33):17:34):12:34 next 10",
    ),
    (
        "tile apply(reverse full, unroll partial(2) full, nothing)",
        "(Tile (apply (Reverse full:31:35):23:35 (Unroll (partial 2:52:53):44:54 full:55:59):37:59 nothing:61:68):17:69):12:69 next 18",
    ),
    (
        "tile sizes(4) apply(grid(1, 2): nothing, reverse)",
        "(Tile (sizes 4:23:24):17:25 (apply grid 1:37:38 2:40:41 : nothing:44:51 Reverse:53:60):26:61):12:61 next 21",
    ),
    (
        "tile apply(full(1): nothing), sizes(4)",
        "(Tile (apply full 1:28:29 : nothing:32:39):17:40 (sizes 4:48:49):42:50):12:50 next 18",
    ),
    (
        "split counts(2, omp_fill), apply(reverse)",
        "(Split (counts 2:25:26 omp_fill:28:36):18:37 (apply Reverse:45:52):39:53):12:53 next 15",
    ),
    (
        "tile sizes(2) apply(tile sizes(3) apply(reverse, nothing), nothing)",
        "(Tile (sizes 2:23:24):17:25 (apply (Tile (sizes 3:43:44):37:45 (apply Reverse:52:59 nothing:61:68):46:69):32:69 nothing:71:78):26:79):12:79 next 24",
    ),
    (
        "tile sizes(2, 2) apply(grid: nothing, reverse) apply(intratile: interchange)",
        "(Tile (sizes 2:23:24 2:26:27):17:28 (apply grid : nothing:41:48 Reverse:50:57):29:58 (apply intratile : Interchange:76:87):59:88):12:88 next 24",
    ),
    (
        "tile apply(intratile: tile sizes(2) apply(grid(1): unroll full), nothing) sizes(3)",
        "(Tile (apply intratile : (Tile (sizes 2:45:46):39:47 (apply grid 1:59:60 : (Unroll full:70:74):63:74):48:75):34:75 nothing:77:84):17:85 (sizes 3:92:93):86:94):12:94 next 30",
    ),
];

/// Each text after `#pragma omp ` has no whole directive on its line, and this is its fault.
const FAULTS: [(&str, &str); 45] = [
    ("", "Syntax 12"),
    ("foo", "Syntax 12"),
    ("nothing", "Outside 12"),
    ("parallel for", "Outside 12"),
    ("for", "Outside 12"),
    ("tile (2)", "Syntax 17"),
    ("tile foo", "Syntax 17"),
    ("tile,, sizes(2)", "Syntax 17"),
    ("tile simd", "Outside 17"),
    ("tile sizes", "Syntax 22"),
    ("tile sizes 2", "Syntax 23"),
    ("tile sizes()", "Syntax 23"),
    ("tile sizes(2", "Syntax 24"),
    ("tile sizes(2, )", "Syntax 26"),
    ("tile sizes(2 3)", "Syntax 25"),
    ("tile sizes(1 + )", "Syntax 27"),
    ("tile sizes(x = 1)", "Syntax 25"),
    ("tile sizes(a & b)", "Outside 25"),
    ("tile sizes(sizeof (int))", "Outside 23"),
    ("tile sizes(omp_fill)", "Syntax 23"),
    ("tile sizes(2),", "Syntax 26"),
    ("tile sizes(2) tile", "Syntax 26"),
    ("tile sizes(2) private(x)", "Outside 26"),
    ("unroll full(2)", "Syntax 23"),
    ("unroll partial()", "Syntax 27"),
    ("unroll partial(2, 3)", "Syntax 28"),
    ("split counts(2, omp_fill + 1)", "Syntax 37"),
    ("split counts(,)", "Syntax 25"),
    ("fuse looprange(1)", "Syntax 28"),
    ("fuse looprange(1, 2, 3)", "Syntax 31"),
    ("tile apply", "Syntax 22"),
    ("tile apply nothing", "Outside 23"),
    ("tile apply()", "Syntax 23"),
    ("tile apply(if)", "Outside 23"),
    ("tile apply(foo)", "Syntax 26"),
    ("tile apply(grid: foo)", "Syntax 29"),
    ("tile apply(reverse: )", "Syntax 32"),
    ("tile apply(grid: grid: reverse)", "Syntax 29"),
    ("tile apply(grid(): nothing)", "Syntax 28"),
    ("tile apply(grid(1) nothing)", "Outside 31"),
    ("tile apply(grid: nothing reverse)", "Syntax 37"),
    ("tile apply(tile sizes(2), full)", "Syntax 38"),
    ("tile apply(reverse,)", "Syntax 31"),
    ("tile apply(reverse", "Syntax 30"),
    ("tile apply(reverse))", "Syntax 31"),
];

fn check_directive(
    rt: &impl Abort,
    alloc: Global,
    directive: &str,
    want: &str,
) -> Result<(), Fail> {
    let text = format!(in alloc; "#pragma omp {directive}\n;")?;
    let tokens = tokens_of(alloc, text.as_bytes())?;
    let shown = show(alloc, directive_at(rt, alloc, &tokens, 3))?;
    assert_eq!(rt; shown.as_str(), want, "of {directive:?}");
    Ok(())
}

fn check(rt: &impl Abort, alloc: Global, table: &[(&str, &str)]) -> Result<(), Fail> {
    for (directive, want) in table {
        check_directive(rt, alloc, directive, want)?;
    }
    Ok(())
}

#[test]
fn lines_are_their_directives(rt: HostRuntime) -> Result<(), Fail> {
    check(&rt, rt.alloc(), &DIRECTIVES)
}

#[test]
fn a_fault_is_the_first_token_that_no_directive_has_there(rt: HostRuntime) -> Result<(), Fail> {
    check(&rt, rt.alloc(), &FAULTS)
}
