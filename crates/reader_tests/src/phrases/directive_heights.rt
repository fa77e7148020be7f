//! Heights of directives around the limit of 256, and what costs no stack.

use super::nest::{Nest, nested, show_height};
use super::read::{directive_at, tokens_of};
use super::show::show_fault;
use std::alloc::Global;
use std::process::Abort;
use std::test::Fail;

/// The height of the directive that the text after `#pragma omp ` is, or else the place of its fault or of what is too
/// deep.
fn height_of(rt: &impl Abort, alloc: Global, directive: &str) -> Result<String, Fail> {
    let text = format!(in alloc; "#pragma omp {directive}\n")?;
    let tokens = tokens_of(alloc, text.as_bytes())?;
    assert!(rt; tokens.len() > 1);
    match directive_at(rt, alloc, &tokens, 3) {
        Ok(phrase) => Ok(show_height(rt, alloc, phrase, tokens.len() - 2)?),
        Err(fault) => Ok(show_fault(alloc, fault)?),
    }
}

fn check_height(
    rt: &impl Abort,
    alloc: Global,
    nest: Nest,
    count: usize,
    want: &str,
) -> Result<(), Fail> {
    let directive = nested(alloc, nest, count)?;
    let height = height_of(rt, alloc, &directive)?;
    let before = nest.before;
    assert_eq!(rt; height.as_str(), want, "{count} times {before:?}");
    Ok(())
}

const APPLY: Nest = Nest {
    before: "tile apply(",
    middle: "reverse",
    after: ")",
};

#[test]
fn a_directive_of_height_256_is_kept_and_257_is_too_deep(rt: HostRuntime) -> Result<(), Fail> {
    check_height(&rt, rt.alloc(), APPLY, 255, "height 256")?;
    check_height(&rt, rt.alloc(), APPLY, 256, "deep 12")?;
    check_height(&rt, rt.alloc(), APPLY, 257, "deep 23")
}

const APPLY_OF_NOTHING: Nest = Nest {
    before: "tile apply(",
    middle: "nothing",
    after: ")",
};

const INDEXED: Nest = Nest {
    before: "tile apply(grid(1): ",
    middle: "reverse",
    after: ", nothing)",
};

#[test]
fn an_item_that_does_nothing_has_no_height(rt: HostRuntime) -> Result<(), Fail> {
    check_height(&rt, rt.alloc(), APPLY_OF_NOTHING, 256, "height 256")?;
    check_height(&rt, rt.alloc(), APPLY_OF_NOTHING, 257, "deep 12")?;
    check_height(&rt, rt.alloc(), INDEXED, 255, "height 256")?;
    check_height(&rt, rt.alloc(), INDEXED, 256, "deep 12")
}

/// The beginning and the end of a directive with an expression between them, and the place of that expression.
const CLAUSES: [(&str, &str, &str); 8] = [
    ("tile sizes(", ")", "deep 23"),
    ("tile sizes(2, ", ")", "deep 26"),
    ("interchange permutation(", ", 1)", "deep 36"),
    ("split counts(", ", omp_fill)", "deep 25"),
    ("fuse looprange(", ", 1)", "deep 27"),
    ("fuse looprange(1, ", ")", "deep 30"),
    ("unroll partial(", ")", "deep 27"),
    ("tile apply(grid(", "): nothing)", "deep 28"),
];

const MINUS: Nest = Nest {
    before: "- ",
    middle: "1",
    after: "",
};

/// A directive with an expression of a height of 1 more than `count` in it.
fn check_clause(
    rt: &impl Abort,
    alloc: Global,
    around: (&str, &str),
    count: usize,
    want: &str,
) -> Result<(), Fail> {
    let (before, after) = around;
    let expr = nested(alloc, MINUS, count)?;
    let directive = format!(in alloc; "{before}{expr}{after}")?;
    let height = height_of(rt, alloc, &directive)?;
    assert_eq!(rt; height.as_str(), want, "{count} times - after {before:?}");
    Ok(())
}

#[test]
fn a_directive_is_higher_than_its_expressions(rt: HostRuntime) -> Result<(), Fail> {
    for (before, after, deeper) in CLAUSES {
        check_clause(&rt, rt.alloc(), (before, after), 254, "height 256")?;
        check_clause(&rt, rt.alloc(), (before, after), 255, "deep 12")?;
        check_clause(&rt, rt.alloc(), (before, after), 256, deeper)?;
    }
    Ok(())
}

const UNCLOSED: Nest = Nest {
    before: "tile apply(",
    middle: "reverse;",
    after: ")",
};

#[test]
fn nested_clauses_cost_no_stack(rt: HostRuntime) -> Result<(), Fail> {
    check_height(&rt, rt.alloc(), APPLY, 100_000, "deep 1097196")?;
    check_height(&rt, rt.alloc(), UNCLOSED, 100_000, "Syntax 1100019")
}
