//! A directive as text.

use super::show::{Piece, open, put_off, put_off_all, show_name};
use c_tree::name::Name;
use c_tree::tree::{
    ApplyItem, ApplyList, Clause, ClauseKind, Count, Directive, Expr, ExprList, Span,
};
use std::alloc::AllocError;

/// The directive's name in parentheses with its clauses, or alone.
pub fn show_directive<'a>(
    shown: &mut String,
    work: &mut Vec<Piece<'a>>,
    directive: &'a Directive,
) -> Result<(), AllocError> {
    work.push(Piece::Span(directive.span))?;
    if !directive.clauses.is_empty() {
        open(shown, work)?;
    }
    let kind = directive.kind;
    write!(shown, "{kind:?}")?;
    put_off_all(work, &directive.clauses)
}

/// Begins a clause in parentheses with its word.
fn begin(shown: &mut String, work: &mut Vec<Piece<'_>>, word: &str) -> Result<(), AllocError> {
    open(shown, work)?;
    shown.push_str(word)
}

fn show_partial<'a>(
    shown: &mut String,
    work: &mut Vec<Piece<'a>>,
    factor: &'a Option<Expr>,
) -> Result<(), AllocError> {
    match factor {
        None => shown.push_str("partial"),
        Some(factor) => {
            begin(shown, work, "partial")?;
            put_off(work, Piece::Expr(factor))
        }
    }
}

/// The modifier and its indices stand before a colon.
fn show_apply<'a>(
    shown: &mut String,
    work: &mut Vec<Piece<'a>>,
    modifier: &'a Option<Name>,
    indices: &'a ExprList,
    items: &'a ApplyList,
) -> Result<(), AllocError> {
    begin(shown, work, "apply")?;
    put_off_all(work, items)?;
    if let Some(name) = modifier {
        shown.push(' ')?;
        show_name(shown, name)?;
        work.push(Piece::Text(" :"))?;
    }
    put_off_all(work, indices)
}

fn show_kind<'a>(
    shown: &mut String,
    work: &mut Vec<Piece<'a>>,
    kind: &'a ClauseKind,
) -> Result<(), AllocError> {
    match kind {
        ClauseKind::Sizes(exprs) => {
            begin(shown, work, "sizes")?;
            put_off_all(work, exprs)
        }
        ClauseKind::Permutation(exprs) => {
            begin(shown, work, "permutation")?;
            put_off_all(work, exprs)
        }
        ClauseKind::Counts(counts) => {
            begin(shown, work, "counts")?;
            put_off_all(work, counts)
        }
        ClauseKind::LoopRange(first, count) => {
            begin(shown, work, "looprange")?;
            put_off(work, Piece::Expr(count))?;
            put_off(work, Piece::Expr(first))
        }
        ClauseKind::Full => shown.push_str("full"),
        ClauseKind::Partial(factor) => show_partial(shown, work, factor),
        ClauseKind::Apply {
            modifier,
            indices,
            items,
        } => show_apply(shown, work, modifier, indices, items),
    }
}

pub fn show_clause<'a>(
    shown: &mut String,
    work: &mut Vec<Piece<'a>>,
    clause: &'a Clause,
) -> Result<(), AllocError> {
    work.push(Piece::Span(clause.span))?;
    show_kind(shown, work, &clause.kind)
}

fn show_word(
    shown: &mut String,
    work: &mut Vec<Piece<'_>>,
    word: &str,
    at: Span,
) -> Result<(), AllocError> {
    work.push(Piece::Span(at))?;
    shown.push_str(word)
}

pub fn show_count<'a>(
    shown: &mut String,
    work: &mut Vec<Piece<'a>>,
    count: &'a Count,
) -> Result<(), AllocError> {
    match count {
        Count::Fill(at) => show_word(shown, work, "omp_fill", *at),
        Count::Given(expr) => {
            work.push(Piece::Expr(expr))?;
            Ok(())
        }
    }
}

pub fn show_item<'a>(
    shown: &mut String,
    work: &mut Vec<Piece<'a>>,
    item: &'a ApplyItem,
) -> Result<(), AllocError> {
    match item {
        ApplyItem::Nothing(at) => show_word(shown, work, "nothing", *at),
        ApplyItem::Apply(directive) => {
            work.push(Piece::Directive(directive))?;
            Ok(())
        }
    }
}
