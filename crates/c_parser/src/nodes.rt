//! The statements of what was kept of their parts.

ghost use Rattle.std.specs.Prelude.{◌≡◌, IfOk};
ghost use Rattle.c_tree.specs.Placed as placed;
ghost use Rattle.c_tree.specs.PlacedOf.{placed_stmt};
ghost use Rattle.pragma_grammar.specs.DirectiveKept.{one, both};
ghost use Rattle.pragma_grammar.specs.DirectiveStands.{expr_of, exprs_of, directive_of, pushed};
ghost use Rattle.c_parser.specs.Kept.{target_of, stmt_of, stmts_of, head_of, option_of, node, node_of, join_last, pair};

use c_tree::items::Items;
use c_tree::name::Name;
use c_tree::tree::{Directive, Expr, ExprList, ForHead, SetOp, Span, Stmt, StmtList, Target, Ty};
use pragma_grammar::directive_kept::{Kept, push};
use std::alloc::AllocError;

/// The greatest height of a tree that is kept.
const MOST: u64 = 256;

/// A statement over parts of this height.
fn stmt(tree: Stmt, height: u64, span: Span) -> Kept<Stmt>
    ensures { stmt_of result ≡ node height span.start (placed_stmt tree) }
{
    if height >= MOST {
        Kept::Deep(span.start)
    } else {
        Kept::Whole {
            tree,
            height: height + 1,
        }
    }
}

/// A statement that holds no other tree.
pub fn plain(tree: Stmt) -> Kept<Stmt>
    ensures { result ≡ Kept.Whole tree 1 }
{
    Kept::Whole { tree, height: 1 }
}

pub fn set(target: Kept<Target>, op: SetOp, value: Kept<Expr>, span: Span) -> Kept<Stmt>
    ensures { stmt_of result ≡ node_of span.start (both (λ t e. placed.set t op e span) (target_of target) (expr_of value)) }
{
    match target {
        Kept::Deep(place) => Kept::Deep(place),
        Kept::Whole {
            tree: target,
            height: first,
        } => match value {
            Kept::Deep(place) => Kept::Deep(place),
            Kept::Whole {
                tree: value,
                height,
            } => stmt(
                Stmt::Set {
                    target,
                    op,
                    value,
                    span,
                },
                first.max(height),
                span,
            ),
        },
    }
}

pub fn step(target: Kept<Target>, up: bool, span: Span) -> Kept<Stmt>
    ensures { stmt_of result ≡ node_of span.start (one (λ t. placed.step t up span) (target_of target)) }
{
    match target {
        Kept::Deep(place) => Kept::Deep(place),
        Kept::Whole {
            tree: target,
            height,
        } => stmt(Stmt::Step { target, up, span }, height, span),
    }
}

pub fn print(value: Kept<Expr>, span: Span) -> Kept<Stmt>
    ensures { stmt_of result ≡ node_of span.start (one (λ e. placed.print e span) (expr_of value)) }
{
    match value {
        Kept::Deep(place) => Kept::Deep(place),
        Kept::Whole {
            tree: value,
            height,
        } => stmt(Stmt::Print { value, span }, height, span),
    }
}

pub fn input(target: Kept<Target>, input_at: u64, span: Span) -> Kept<Stmt>
    ensures { stmt_of result ≡ node_of span.start (one (λ t. placed.input t input_at span) (target_of target)) }
{
    match target {
        Kept::Deep(place) => Kept::Deep(place),
        Kept::Whole {
            tree: target,
            height,
        } => stmt(
            Stmt::Input {
                target,
                input_at,
                span,
            },
            height,
            span,
        ),
    }
}

pub fn call(name: Name, name_span: Span, args: Kept<ExprList>, span: Span) -> Kept<Stmt>
    ensures { stmt_of result ≡ node_of span.start (one (λ es. placed.call name name_span es span) (exprs_of args)) }
{
    match args {
        Kept::Deep(place) => Kept::Deep(place),
        Kept::Whole { tree: args, height } => stmt(
            Stmt::Call {
                name,
                name_span,
                args,
                span,
            },
            height,
            span,
        ),
    }
}

pub fn declaration(
    ty: Ty,
    name: Name,
    name_span: Span,
    init: Kept<Option<Expr>>,
    span: Span,
) -> Kept<Stmt>
    ensures { stmt_of result ≡ node_of span.start (one (λ i. placed.decl ty name name_span i span) (option_of init)) }
{
    match init {
        Kept::Deep(place) => Kept::Deep(place),
        Kept::Whole { tree: init, height } => stmt(
            Stmt::Decl {
                ty,
                name,
                name_span,
                init,
                span,
            },
            height,
            span,
        ),
    }
}

pub fn if_only(test: Kept<Expr>, yes: Kept<StmtList>, span: Span) -> Kept<Stmt>
    ensures { stmt_of result ≡ node_of span.start (both (λ e ss. placed.if_ e ss span) (expr_of test) (stmts_of yes)) }
{
    match test {
        Kept::Deep(place) => Kept::Deep(place),
        Kept::Whole {
            tree: test,
            height: first,
        } => match yes {
            Kept::Deep(place) => Kept::Deep(place),
            Kept::Whole { tree: yes, height } => stmt(
                Stmt::If {
                    test,
                    yes,
                    no: None,
                    span,
                },
                first.max(height),
                span,
            ),
        },
    }
}

pub fn if_else(test: Kept<Expr>, yes: Kept<StmtList>, no: Kept<StmtList>, span: Span) -> Kept<Stmt>
    ensures { stmt_of result ≡ node_of span.start (both (λ e p. placed.if_else e p.0 p.1 span) (expr_of test) (both pair (stmts_of yes) (stmts_of no))) }
{
    match test {
        Kept::Deep(place) => Kept::Deep(place),
        Kept::Whole {
            tree: test,
            height: first,
        } => match yes {
            Kept::Deep(place) => Kept::Deep(place),
            Kept::Whole {
                tree: yes,
                height: second,
            } => match no {
                Kept::Deep(place) => Kept::Deep(place),
                Kept::Whole { tree: no, height } => stmt(
                    Stmt::If {
                        test,
                        yes,
                        no: Some(no),
                        span,
                    },
                    first.max(second.max(height)),
                    span,
                ),
            },
        },
    }
}

pub fn while_loop(test: Kept<Expr>, body: Kept<StmtList>, span: Span) -> Kept<Stmt>
    ensures { stmt_of result ≡ node_of span.start (both (λ e ss. placed.while_ e ss span) (expr_of test) (stmts_of body)) }
{
    match test {
        Kept::Deep(place) => Kept::Deep(place),
        Kept::Whole {
            tree: test,
            height: first,
        } => match body {
            Kept::Deep(place) => Kept::Deep(place),
            Kept::Whole { tree: body, height } => stmt(
                Stmt::While { test, body, span },
                first.max(height),
                span,
            ),
        },
    }
}

pub fn do_loop(body: Kept<StmtList>, test: Kept<Expr>, span: Span) -> Kept<Stmt>
    ensures { stmt_of result ≡ node_of span.start (both (λ ss e. placed.do_ ss e span) (stmts_of body) (expr_of test)) }
{
    match body {
        Kept::Deep(place) => Kept::Deep(place),
        Kept::Whole {
            tree: body,
            height: first,
        } => match test {
            Kept::Deep(place) => Kept::Deep(place),
            Kept::Whole { tree: test, height } => stmt(
                Stmt::Do { body, test, span },
                first.max(height),
                span,
            ),
        },
    }
}

pub fn for_loop(head: Kept<ForHead>, body: Kept<StmtList>, span: Span) -> Kept<Stmt>
    ensures { stmt_of result ≡ node_of span.start (both (λ h ss. placed.for_ h ss span) (head_of head) (stmts_of body)) }
{
    match head {
        Kept::Deep(place) => Kept::Deep(place),
        Kept::Whole {
            tree: head,
            height: first,
        } => match body {
            Kept::Deep(place) => Kept::Deep(place),
            Kept::Whole { tree: body, height } => stmt(
                Stmt::For { head, body, span },
                first.max(height),
                span,
            ),
        },
    }
}

pub fn block(body: Kept<StmtList>, span: Span) -> Kept<Stmt>
    ensures { stmt_of result ≡ node_of span.start (one (λ ss. placed.block ss span) (stmts_of body)) }
{
    match body {
        Kept::Deep(place) => Kept::Deep(place),
        Kept::Whole { tree: body, height } => stmt(Stmt::Block { body, span }, height, span),
    }
}

pub fn construct(directive: Kept<Directive>, body: Kept<StmtList>, span: Span) -> Kept<Stmt>
    ensures { stmt_of result ≡ node_of span.start (both (λ d ss. placed.omp d ss span) (directive_of directive) (stmts_of body)) }
{
    match directive {
        Kept::Deep(place) => Kept::Deep(place),
        Kept::Whole {
            tree: directive,
            height: first,
        } => match body {
            Kept::Deep(place) => Kept::Deep(place),
            Kept::Whole { tree: body, height } => stmt(
                Stmt::Omp {
                    directive,
                    body,
                    span,
                },
                first.max(height),
                span,
            ),
        },
    }
}

/// The statements with one more.
#[tactic(auto, using(crate::proofs::Pushes::stmts_pushed))]
pub fn add_stmt(stmts: Kept<StmtList>, last: Kept<Stmt>) -> Result<Kept<StmtList>, AllocError>
    ensures { IfOk result (λ r. stmts_of r ≡ both join_last (stmts_of stmts) (stmt_of last)) }
{
    let all = push(stmts, last)?;
    Ok(all)
}
