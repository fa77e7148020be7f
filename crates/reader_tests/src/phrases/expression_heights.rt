//! Heights of expressions around the limit of 256, and what costs no height.

use super::nest::{Nest, nested, show_height};
use super::read::{expr_at, tokens_of};
use super::show::show_fault;
use std::alloc::Global;
use std::process::Abort;
use std::test::Fail;

/// For each kind of node a text of a given depth, with the answer where 258 nodes stand in one another.
const NESTS: [(&str, &str, &str, &str); 7] = [
    ("- ", "1", "", "deep 2"),
    ("(int)", "1", "", "deep 5"),
    ("1?1:", "1", "", "deep 4"),
    ("1?", "1", ":1", "deep 2"),
    ("a[", "0", "]", "deep 2"),
    ("", "1", "+1", "deep 0"),
    ("1+(", "1", ")", "deep 3"),
];

/// The height of the expression that the text is, or else the place of its fault or of what is too deep.
fn height_of(rt: &impl Abort, alloc: Global, text: &str) -> Result<String, Fail> {
    let tokens = tokens_of(alloc, text.as_bytes())?;
    assert!(rt; tokens.len() > 0);
    match expr_at(rt, alloc, &tokens, 0) {
        Ok(phrase) => Ok(show_height(rt, alloc, phrase, tokens.len() - 1)?),
        Err(fault) => Ok(show_fault(alloc, fault)?),
    }
}

fn check_height(
    rt: &impl Abort,
    alloc: Global,
    nest: Nest,
    count: usize,
    want: &str,
) -> Result<(), Fail> {
    let text = nested(alloc, nest, count)?;
    let height = height_of(rt, alloc, &text)?;
    let before = nest.before;
    assert_eq!(rt; height.as_str(), want, "{count} times {before:?}");
    Ok(())
}

#[test]
fn a_height_of_256_is_kept_and_257_is_too_deep(rt: HostRuntime) -> Result<(), Fail> {
    for (before, middle, after, deeper) in NESTS {
        let nest = Nest {
            before,
            middle,
            after,
        };
        check_height(&rt, rt.alloc(), nest, 255, "height 256")?;
        check_height(&rt, rt.alloc(), nest, 256, "deep 0")?;
        check_height(&rt, rt.alloc(), nest, 257, deeper)?;
    }
    Ok(())
}

const PARENTHESES: Nest = Nest {
    before: "(",
    middle: "1",
    after: ")",
};

const OPEN_PARENTHESES: Nest = Nest {
    before: "(",
    middle: "1;",
    after: ")",
};

const MINUS_IN_PARENTHESES: Nest = Nest {
    before: "-(",
    middle: "1",
    after: ")",
};

#[test]
fn parentheses_cost_no_height_and_no_stack(rt: HostRuntime) -> Result<(), Fail> {
    check_height(&rt, rt.alloc(), PARENTHESES, 100_000, "height 1")?;
    check_height(&rt, rt.alloc(), OPEN_PARENTHESES, 100_000, "Syntax 100001")?;
    check_height(
        &rt,
        rt.alloc(),
        MINUS_IN_PARENTHESES,
        100_000,
        "deep 199488",
    )
}

const TWO_NUMBERS: Nest = Nest {
    before: "-",
    middle: "(1 1)",
    after: "",
};

const NO_OPERAND: Nest = Nest {
    before: "- ",
    middle: "1 + ;",
    after: "",
};

#[test]
fn a_fault_outranks_a_tree_that_is_too_deep(rt: HostRuntime) -> Result<(), Fail> {
    check_height(&rt, rt.alloc(), TWO_NUMBERS, 1, "Syntax 4")?;
    check_height(&rt, rt.alloc(), NO_OPERAND, 300, "Syntax 604")
}
