//! What is kept of a directive and of its parts while they are read: a tree with its height, or the place where it is
//! too deep.

ghost use Rattle.std.specs.Prelude.{◌≡◌, ◌+◌, max, IfOk, Some};
ghost use Rattle.c_tree.specs.Placed as placed;
ghost use Rattle.pragma_grammar.specs.DirectiveKept.{one, both, kept, add_kept, keep_directive_of};
ghost use Rattle.pragma_grammar.specs.DirectiveTrees.{add_item, add_count};
ghost use Rattle.pragma_grammar.specs.DirectiveStands.{pushed, clause_at, expr_of, exprs_of, counts_of, count_of, clauses_of, clause_kind_of, items_of, item_of, directive_of};
ghost use Rattle.pragma_grammar.specs.Trees.{join_last};

use crate::operand::{MOST, greater};
use c_tree::items::Items;
use c_tree::name::Name;
use c_tree::tree::{
    ApplyItem, ApplyList, Clause, ClauseKind, ClauseList, Count, CountList, Directive, Expr,
    ExprList, Kind, Span,
};
use std::alloc::{AllocError, Global};

/// A tree of a height of at most 256 (of a list or a clause, the greatest height of what stands directly in it), or the
/// place of the first subtree above it.
#[derive(Drop)]
pub enum Kept<T> {
    Whole { tree: T, height: u64 },
    Deep(u64),
}

/// The list with one more.
pub fn push<T: Drop>(list: Kept<Items<T>>, last: Kept<T>) -> Result<Kept<Items<T>>, AllocError>
    ensures { IfOk result (λ r. r ≡ pushed list last) }
{
    match list {
        Kept::Deep(place) => Ok(Kept::Deep(place)),
        Kept::Whole { tree, height } => push_after(tree, height, last),
    }
}

fn push_after<T: Drop>(
    trees: Items<T>,
    height: u64,
    last: Kept<T>,
) -> Result<Kept<Items<T>>, AllocError>
    ensures { IfOk result (λ r. r ≡ pushed (Kept.Whole trees height) last) }
{
    match last {
        Kept::Deep(place) => Ok(Kept::Deep(place)),
        Kept::Whole {
            tree,
            height: its_height,
        } => {
            let mut trees = trees;
            trees.push(tree)?;
            Ok(Kept::Whole {
                tree: trees,
                height: greater(height, its_height),
            })
        }
    }
}

/// The expressions with one more.
#[tactic(auto, using(crate::proofs::DirectivePushes::exprs_pushed))]
pub fn add_expr(exprs: Kept<ExprList>, last: Kept<Expr>) -> Result<Kept<ExprList>, AllocError>
    ensures { IfOk result (λ r. exprs_of r ≡ both join_last (exprs_of exprs) (expr_of last)) }
{
    let all = push(exprs, last)?;
    Ok(all)
}

/// The counts with one more.
pub fn add_count(counts: Kept<CountList>, last: Kept<Count>) -> Result<Kept<CountList>, AllocError>
    ensures { IfOk result (λ r. counts_of r ≡ both add_count (counts_of counts) (count_of last)) }
{
    push(counts, last)
}

/// The items with one more.
#[tactic(auto, using(crate::proofs::DirectivePushes::items_pushed))]
pub fn add_item(
    items: Kept<ApplyList>,
    last: Kept<ApplyItem>,
) -> Result<Kept<ApplyList>, AllocError>
    ensures { IfOk result (λ r. items_of r ≡ both add_item (items_of items) (item_of last)) }
{
    let all = push(items, last)?;
    Ok(all)
}

/// The clauses with one more, which stands at `span`.
#[tactic(auto, using(crate::proofs::DirectivePushes::clauses_pushed))]
pub fn add_clause(
    clauses: Kept<ClauseList>,
    kind: Kept<ClauseKind>,
    span: Span,
) -> Result<Kept<ClauseList>, AllocError>
    ensures { IfOk result (λ r. clauses_of r ≡ add_kept (clauses_of clauses) (clause_kind_of kind) span) }
{
    let all = push(clauses, clause(kind, span))?;
    Ok(all)
}

fn clause(kind: Kept<ClauseKind>, span: Span) -> Kept<Clause>
    ensures { result ≡ clause_at kind span }
{
    match kind {
        Kept::Whole { tree, height } => Kept::Whole {
            tree: Clause { kind: tree, span },
            height,
        },
        Kept::Deep(place) => Kept::Deep(place),
    }
}

pub fn sizes(exprs: Kept<ExprList>) -> Kept<ClauseKind>
    ensures { clause_kind_of result ≡ one placed.sizes (exprs_of exprs) }
{
    match exprs {
        Kept::Whole { tree, height } => Kept::Whole {
            tree: ClauseKind::Sizes(tree),
            height,
        },
        Kept::Deep(place) => Kept::Deep(place),
    }
}

pub fn permutation(exprs: Kept<ExprList>) -> Kept<ClauseKind>
    ensures { clause_kind_of result ≡ one placed.permutation (exprs_of exprs) }
{
    match exprs {
        Kept::Whole { tree, height } => Kept::Whole {
            tree: ClauseKind::Permutation(tree),
            height,
        },
        Kept::Deep(place) => Kept::Deep(place),
    }
}

pub fn counts(counts: Kept<CountList>) -> Kept<ClauseKind>
    ensures { clause_kind_of result ≡ one placed.counts (counts_of counts) }
{
    match counts {
        Kept::Whole { tree, height } => Kept::Whole {
            tree: ClauseKind::Counts(tree),
            height,
        },
        Kept::Deep(place) => Kept::Deep(place),
    }
}

pub fn looprange(first: Kept<Expr>, count: Kept<Expr>) -> Kept<ClauseKind>
    ensures { clause_kind_of result ≡ both placed.looprange (expr_of first) (expr_of count) }
{
    match first {
        Kept::Deep(place) => Kept::Deep(place),
        Kept::Whole {
            tree: first,
            height: first_height,
        } => match count {
            Kept::Deep(place) => Kept::Deep(place),
            Kept::Whole { tree, height } => Kept::Whole {
                tree: ClauseKind::LoopRange(first, tree),
                height: greater(first_height, height),
            },
        },
    }
}

pub fn factor(factor: Kept<Expr>) -> Kept<ClauseKind>
    ensures { clause_kind_of result ≡ one (λ x. placed.partial (Some x)) (expr_of factor) }
{
    match factor {
        Kept::Whole { tree, height } => Kept::Whole {
            tree: ClauseKind::Partial(Some(tree)),
            height,
        },
        Kept::Deep(place) => Kept::Deep(place),
    }
}

/// A clause that holds no expression.
pub fn plain(kind: ClauseKind) -> Kept<ClauseKind>
    ensures { result ≡ Kept.Whole kind 0 }
{
    Kept::Whole {
        tree: kind,
        height: 0,
    }
}

pub fn apply(
    modifier: Option<Name>,
    indices: Kept<ExprList>,
    items: Kept<ApplyList>,
) -> Kept<ClauseKind>
    ensures { clause_kind_of result ≡ both (λ x y. placed.apply modifier x y) (exprs_of indices) (items_of items) }
{
    match indices {
        Kept::Deep(place) => Kept::Deep(place),
        Kept::Whole {
            tree: indices,
            height: indices_height,
        } => match items {
            Kept::Deep(place) => Kept::Deep(place),
            Kept::Whole {
                tree: items,
                height,
            } => Kept::Whole {
                tree: ClauseKind::Apply {
                    modifier,
                    indices,
                    items,
                },
                height: greater(indices_height, height),
            },
        },
    }
}

pub fn given(count: Kept<Expr>) -> Kept<Count>
    ensures { count_of result ≡ one placed.given (expr_of count) }
{
    match count {
        Kept::Whole { tree, height } => Kept::Whole {
            tree: Count::Given(tree),
            height,
        },
        Kept::Deep(place) => Kept::Deep(place),
    }
}

pub fn acts(directive: Kept<Directive>) -> Kept<ApplyItem>
    ensures { item_of result ≡ one placed.acts (directive_of directive) }
{
    match directive {
        Kept::Whole { tree, height } => Kept::Whole {
            tree: ApplyItem::Apply(tree),
            height,
        },
        Kept::Deep(place) => Kept::Deep(place),
    }
}

/// The directive with these clauses: its height is 1 more than theirs.
pub fn directive(kind: Kind, clauses: Kept<ClauseList>, span: Span) -> Kept<Directive>
    ensures { directive_of result ≡ keep_directive_of kind (clauses_of clauses) span }
{
    match clauses {
        Kept::Deep(place) => Kept::Deep(place),
        Kept::Whole { tree, height } => {
            if height >= MOST {
                Kept::Deep(span.start)
            } else {
                Kept::Whole {
                    tree: Directive {
                        kind,
                        clauses: tree,
                        span,
                    },
                    height: height + 1,
                }
            }
        }
    }
}
