//! What stands in the parentheses of a clause, but for the items of `apply`: what a token does there, and the clause that
//! is whole where they close.

ghost use Rattle.std.specs.Prelude.{◌≡◌, List, IfOk};
ghost use Rattle.c_tree.specs.Bare.{Name};
ghost use Rattle.c_tree.specs.Placed as placed;
ghost use Rattle.pragma_grammar.specs.Symbols.{spanning};
ghost use Rattle.pragma_grammar.specs.DirectiveMachine as machine;
ghost use Rattle.pragma_grammar.specs.DirectiveKept.{keeps, kept, add_kept};
ghost use Rattle.pragma_grammar.specs.DirectiveStands.{KeptOpen, marked, part_of, lists_of, asked_of, held_of, came, expr_of, exprs_of, counts_of, clause_kind_of};

use crate::directive_kept::{
    Kept, add_clause, add_count, add_expr, counts, factor, given, looprange, permutation, sizes,
};
use crate::directive_state::{Asked, Held, Lists, Mark, Move, Part, State};
use crate::operand::spanning;
use c_tree::items::Items;
use c_tree::tree::{ClauseKind, Count, CountList, Expr, ExprList, Span};
use std::alloc::{AllocError, Global};

/// No expressions yet.
pub fn no_exprs(alloc: Global) -> Kept<ExprList>
    ensures { exprs_of result ≡ kept 0 placed.no_exprs }
{
    Kept::Whole {
        tree: Items::new(alloc),
        height: 0,
    }
}

/// The first expression of a list is wanted.
pub fn first_element(alloc: Global, list: Lists) -> Asked
    ensures { asked_of result ≡ machine.element (lists_of list) (kept 0 placed.no_exprs) }
{
    Asked::Element {
        list,
        before: no_exprs(alloc),
    }
}

/// A whole clause, at `span`.
pub fn added(part: Part, kind: Kept<ClauseKind>, span: Span) -> Result<Move, AllocError>
    ensures { IfOk result (λ m. (k : List KeptOpen) → came m k ≡ machine.added keeps (part_of part) (add_kept (part_of part).clauses (clause_kind_of kind) span) span k) }
{
    let Part {
        kind: name,
        at,
        clauses,
    } = part;
    Ok(Move::Leads(State::Clauses {
        part: Part {
            kind: name,
            at,
            clauses: add_clause(clauses, kind, span)?,
        },
        last: span,
    }))
}

/// The token after a whole element of a list.
fn list_step(
    list: Lists,
    exprs: Kept<ExprList>,
    at: Span,
    part: Part,
    mark: Mark,
    place: Span,
) -> Result<Move, AllocError>
    ensures { IfOk result (λ m. (x : Name) (k : List KeptOpen) → came m k ≡ machine.list_step keeps (lists_of list) (exprs_of exprs) at (part_of part) k (marked mark x place)) }
{
    match mark {
        Mark::Comma => Ok(Move::Leads(State::Wanting {
            asked: Asked::Element {
                list,
                before: exprs,
            },
            at,
            part,
        })),
        Mark::Close => end_list(list, exprs, at, part, place),
        Mark::Name | Mark::Open | Mark::Colon | Mark::Fill | Mark::LineEnd | Mark::Other => Ok(
            Move::Stuck,
        ),
    }
}

/// The parenthesis that closes a list.
fn end_list(
    list: Lists,
    exprs: Kept<ExprList>,
    at: Span,
    part: Part,
    place: Span,
) -> Result<Move, AllocError>
    ensures { IfOk result (λ m. (k : List KeptOpen) → came m k ≡ machine.end_list keeps (lists_of list) (exprs_of exprs) place at (part_of part) k) }
{
    match list {
        Lists::Sizes => added(part, sizes(exprs), spanning(at, place)),
        Lists::Permutation => added(part, permutation(exprs), spanning(at, place)),
        Lists::Indices(modifier) => Ok(Move::Leads(State::Indexed {
            modifier,
            indices: exprs,
            at,
            part,
        })),
    }
}

/// The token after a whole count.
fn count_step(
    before: Kept<CountList>,
    at: Span,
    part: Part,
    mark: Mark,
    place: Span,
) -> Result<Move, AllocError>
    ensures { IfOk result (λ m. (x : Name) (k : List KeptOpen) → came m k ≡ machine.count_step keeps (counts_of before) at (part_of part) k (marked mark x place)) }
{
    match mark {
        Mark::Comma => Ok(Move::Leads(State::Wanting {
            asked: Asked::Count { before },
            at,
            part,
        })),
        Mark::Close => added(part, counts(before), spanning(at, place)),
        Mark::Name | Mark::Open | Mark::Colon | Mark::Fill | Mark::LineEnd | Mark::Other => Ok(
            Move::Stuck,
        ),
    }
}

/// The token after the first expression of `looprange`.
fn first_step(first: Kept<Expr>, at: Span, part: Part, mark: Mark, place: Span) -> Move
    ensures { (x : Name) (k : List KeptOpen) → came result k ≡ machine.first_step keeps (expr_of first) at (part_of part) k (marked mark x place) }
{
    match mark {
        Mark::Comma => Move::Leads(State::Wanting {
            asked: Asked::RangeCount { first },
            at,
            part,
        }),
        Mark::Name
        | Mark::Open
        | Mark::Close
        | Mark::Colon
        | Mark::Fill
        | Mark::LineEnd
        | Mark::Other => Move::Stuck,
    }
}

/// The token after the second expression of `looprange`.
fn range_step(
    first: Kept<Expr>,
    count: Kept<Expr>,
    at: Span,
    part: Part,
    mark: Mark,
    place: Span,
) -> Result<Move, AllocError>
    ensures { IfOk result (λ m. (x : Name) (k : List KeptOpen) → came m k ≡ machine.range_step keeps (expr_of first) (expr_of count) at (part_of part) k (marked mark x place)) }
{
    match mark {
        Mark::Close => added(part, looprange(first, count), spanning(at, place)),
        Mark::Name
        | Mark::Open
        | Mark::Comma
        | Mark::Colon
        | Mark::Fill
        | Mark::LineEnd
        | Mark::Other => Ok(Move::Stuck),
    }
}

/// The token after the factor of `partial`.
fn factor_step(
    value: Kept<Expr>,
    at: Span,
    part: Part,
    mark: Mark,
    place: Span,
) -> Result<Move, AllocError>
    ensures { IfOk result (λ m. (x : Name) (k : List KeptOpen) → came m k ≡ machine.factor_step keeps (expr_of value) at (part_of part) k (marked mark x place)) }
{
    match mark {
        Mark::Close => added(part, factor(value), spanning(at, place)),
        Mark::Name
        | Mark::Open
        | Mark::Comma
        | Mark::Colon
        | Mark::Fill
        | Mark::LineEnd
        | Mark::Other => Ok(Move::Stuck),
    }
}

/// The token after a whole expression, or after `omp_fill`.
pub fn have_step(
    held: Held,
    at: Span,
    part: Part,
    mark: Mark,
    place: Span,
) -> Result<Move, AllocError>
    ensures { IfOk result (λ m. (x : Name) (k : List KeptOpen) → came m k ≡ machine.have_step keeps (held_of held) at (part_of part) k (marked mark x place)) }
{
    match held {
        Held::Elements { list, exprs } => list_step(list, exprs, at, part, mark, place),
        Held::Counted { counts } => count_step(counts, at, part, mark, place),
        Held::First { first } => Ok(first_step(first, at, part, mark, place)),
        Held::Range { first, count } => range_step(first, count, at, part, mark, place),
        Held::Factored { factor } => factor_step(factor, at, part, mark, place),
    }
}

/// `omp_fill`, where a count is wanted.
fn fill_step(
    before: Kept<CountList>,
    at: Span,
    part: Part,
    mark: Mark,
    place: Span,
) -> Result<Move, AllocError>
    ensures { IfOk result (λ m. (x : Name) (k : List KeptOpen) → came m k ≡ machine.fill_step keeps (counts_of before) at (part_of part) k (marked mark x place)) }
{
    match mark {
        Mark::Fill => {
            let counts = add_count(
                before,
                Kept::Whole {
                    tree: Count::Fill(place),
                    height: 0,
                },
            )?;
            Ok(Move::Leads(State::Having {
                held: Held::Counted { counts },
                at,
                part,
            }))
        }
        Mark::Name
        | Mark::Open
        | Mark::Close
        | Mark::Comma
        | Mark::Colon
        | Mark::LineEnd
        | Mark::Other => Ok(Move::Stuck),
    }
}

/// A token where an expression is wanted, and that is read for itself.
pub fn want_step(
    asked: Asked,
    at: Span,
    part: Part,
    mark: Mark,
    place: Span,
) -> Result<Move, AllocError>
    ensures { IfOk result (λ m. (x : Name) (k : List KeptOpen) → came m k ≡ machine.want_step keeps (asked_of asked) at (part_of part) k (marked mark x place)) }
{
    match asked {
        Asked::Count { before } => fill_step(before, at, part, mark, place),
        Asked::Element { .. } | Asked::RangeFirst | Asked::RangeCount { .. } | Asked::Factor => Ok(
            Move::Stuck,
        ),
    }
}

/// What a whole expression does, where one is wanted.
pub fn take(asked: Asked, expr: Kept<Expr>) -> Result<Held, AllocError>
    ensures { IfOk result (λ held. held_of held ≡ machine.take keeps (asked_of asked) (expr_of expr)) }
{
    match asked {
        Asked::Element { list, before } => Ok(Held::Elements {
            list,
            exprs: add_expr(before, expr)?,
        }),
        Asked::Count { before } => Ok(Held::Counted {
            counts: add_count(before, given(expr))?,
        }),
        Asked::RangeFirst => Ok(Held::First { first: expr }),
        Asked::RangeCount { first } => Ok(Held::Range { first, count: expr }),
        Asked::Factor => Ok(Held::Factored { factor: expr }),
    }
}

/// Is an expression read, where one is wanted? Only `omp_fill` among counts is not one.
pub fn wants_letter(asked: &Asked, mark: Mark) -> bool
    ensures { (x : Name) (place : Span) → result ≡ machine.wants_letter keeps (asked_of asked.now) (marked mark x place) }
{
    match asked {
        Asked::Count { .. } => match mark {
            Mark::Fill => false,
            Mark::Name
            | Mark::Open
            | Mark::Close
            | Mark::Comma
            | Mark::Colon
            | Mark::LineEnd
            | Mark::Other => true,
        },
        Asked::Element { .. } | Asked::RangeFirst | Asked::RangeCount { .. } | Asked::Factor =>
            true,
    }
}
