//! The height of a tree and of its parts, which the limit on nesting goes by.

ghost use Rattle.std.specs.Prelude.{◌≡◌, map};
ghost use Rattle.std.specs.Option.{option_map};
ghost use Rattle.c_tree.specs.BareOf.{bare_expr, bare_exprs, bare_target, bare_count, bare_directive, bare_clause, bare_clauses, bare_items, bare_stmt, bare_stmts, bare_head, bare_top, bare_program, maybe_stmt};
ghost use Rattle.c_tree.specs.Height.{expr_height, exprs_height, option_height, target_height, counts_height, clause_height, clauses_height, items_height, directive_height, stmt_height, stmts_height, head_height, part_height, top_height, program_height, capped};

use crate::boxed::Boxed;
use crate::tree::{
    ApplyItem, Clause, ClauseKind, Count, Directive, Expr, ForHead, Item, Program, Stmt, Target,
};

/// The height of a program: the greatest height of its items, and 2^64 - 1 for any greater one.
///
/// A literal and a read of a scalar have height 1. Every other expression, statement and directive, a file-scope
/// variable, a function and `main` have height 1 plus the greatest height of the expressions, statements and
/// directives directly in it, and 1 where it has none. A define and an `extern` item have height 0.
#[tactic(auto, using(crate::proofs::Heights::heights))]
pub fn height(program: &Program) -> u64
    ensures { result ≡ capped (program_height (bare_program program.now)) }
{
    let mut highest = 0;
    let items = program.items.as_slice();
    'each: for item in items {
        highest = highest.max(item_height(item));
    }
    highest
}

/// The height of an item, and 2^64 - 1 for any greater one.
pub fn item_height(item: &Item) -> u64
    ensures { result ≡ capped (top_height (bare_top item.now)) }
{
    match item {
        Item::Define { .. } | Item::Extern { .. } => 0,
        Item::Global { dims, init, .. } => {
            exprs_height(dims.as_slice())
                .max(option_height(init))
                .saturating_add(1)
        }
        Item::Function { body, .. } | Item::Main { body, .. } => {
            stmts_height(body.as_slice()).saturating_add(1)
        }
    }
}

/// The height of an expression, and 2^64 - 1 for any greater one.
#[cycle(expr_height)]
pub fn expr_height(e: &Expr) -> u64
    ensures { result ≡ capped (expr_height (bare_expr e.now)) }
{
    match e {
        Expr::Num { .. } | Expr::Read { .. } => 1,
        Expr::Item { subs, .. } => exprs_height(subs.as_slice()).saturating_add(1),
        Expr::Un { of, .. } | Expr::Cast { of, .. } => expr_height(of.get()).saturating_add(1),
        Expr::Bin { left, right, .. } => {
            expr_height(left.get())
                .max(expr_height(right.get()))
                .saturating_add(1)
        }
        Expr::Cond { test, yes, no, .. } => expr_height(test.get())
            .max(expr_height(yes.get()))
            .max(expr_height(no.get()))
            .saturating_add(1),
    }
}

/// The greatest height in a list, 0 where it is empty, and 2^64 - 1 for any greater one.
#[tactic(auto, using(crate::proofs::Heights::heights))]
#[cycle(expr_height)]
pub fn exprs_height(es: &[Expr]) -> u64
    ensures { result ≡ capped (exprs_height (bare_exprs es.now)) }
{
    let mut highest = 0;
    'each: for e in es {
        highest = highest.max(expr_height(e));
    }
    highest
}

fn option_height(e: &Option<Expr>) -> u64
    ensures { result ≡ capped (option_height (option_map bare_expr e.now)) }
{
    match e {
        None => 0,
        Some(e) => expr_height(e),
    }
}

fn target_height(target: &Target) -> u64
    ensures { result ≡ capped (target_height (bare_target target.now)) }
{
    exprs_height(target.subs.as_slice())
}

#[tactic(auto, using(crate::proofs::Heights::heights))]
fn counts_height(counts: &[Count]) -> u64
    ensures { result ≡ capped (counts_height (map bare_count counts.now)) }
{
    let mut highest = 0;
    'each: for count in counts {
        if let Count::Given(e) = count {
            highest = highest.max(expr_height(e));
        }
    }
    highest
}

/// The height of a directive, and 2^64 - 1 for any greater one.
#[cycle(directive_height)]
pub fn directive_height(directive: &Directive) -> u64
    ensures { result ≡ capped (directive_height (bare_directive directive.now)) }
{
    clauses_height(directive.clauses.as_slice()).saturating_add(1)
}

#[tactic(auto, using(crate::proofs::Heights::heights))]
#[cycle(directive_height)]
fn clauses_height(clauses: &[Clause]) -> u64
    ensures { result ≡ capped (clauses_height (bare_clauses clauses.now)) }
{
    let mut highest = 0;
    'each: for clause in clauses {
        highest = highest.max(clause_height(clause));
    }
    highest
}

/// The greatest height in a clause, 0 where it holds no expression and no directive, and 2^64 - 1 for any greater one.
#[cycle(directive_height)]
pub fn clause_height(clause: &Clause) -> u64
    ensures { result ≡ capped (clause_height (bare_clause clause.now)) }
{
    match &clause.kind {
        ClauseKind::Sizes(es) | ClauseKind::Permutation(es) => exprs_height(es.as_slice()),
        ClauseKind::Counts(counts) => counts_height(counts.as_slice()),
        ClauseKind::LoopRange(first, count) => expr_height(first).max(expr_height(count)),
        ClauseKind::Full => 0,
        ClauseKind::Partial(factor) => option_height(factor),
        ClauseKind::Apply { indices, items, .. } => {
            exprs_height(indices.as_slice()).max(items_height(items.as_slice()))
        }
    }
}

#[tactic(auto, using(crate::proofs::Heights::heights))]
#[cycle(directive_height)]
fn items_height(items: &[ApplyItem]) -> u64
    ensures { result ≡ capped (items_height (bare_items items.now)) }
{
    let mut highest = 0;
    'each: for item in items {
        if let ApplyItem::Apply(directive) = item {
            highest = highest.max(directive_height(directive));
        }
    }
    highest
}

/// The height of a statement, and 2^64 - 1 for any greater one.
#[cycle(stmt_height)]
pub fn stmt_height(stmt: &Stmt) -> u64
    ensures { result ≡ capped (stmt_height (bare_stmt stmt.now)) }
{
    let below = match stmt {
        Stmt::Decl { init, .. } => option_height(init),
        Stmt::Set { target, value, .. } => target_height(target).max(expr_height(value)),
        Stmt::Step { target, .. } | Stmt::Input { target, .. } => target_height(target),
        Stmt::Print { value, .. } => expr_height(value),
        Stmt::If { test, yes, no, .. } => {
            let below = expr_height(test).max(stmts_height(yes.as_slice()));
            match no {
                None => below,
                Some(no) => below.max(stmts_height(no.as_slice())),
            }
        }
        Stmt::While { test, body, .. } | Stmt::Do { body, test, .. } => {
            expr_height(test).max(stmts_height(body.as_slice()))
        }
        Stmt::For { head, body, .. } => head_height(head).max(stmts_height(body.as_slice())),
        Stmt::Block { body, .. } => stmts_height(body.as_slice()),
        Stmt::Break { .. } | Stmt::Continue { .. } | Stmt::Empty { .. } => 0,
        Stmt::Omp {
            directive,
            body,
            ..
        } => directive_height(directive).max(stmts_height(body.as_slice())),
        Stmt::Call { args, .. } => exprs_height(args.as_slice()),
    };
    below.saturating_add(1)
}

/// The greatest height in a list, 0 where it is empty, and 2^64 - 1 for any greater one.
#[tactic(auto, using(crate::proofs::Heights::heights))]
#[cycle(stmt_height)]
pub fn stmts_height(stmts: &[Stmt]) -> u64
    ensures { result ≡ capped (stmts_height (bare_stmts stmts.now)) }
{
    let mut highest = 0;
    'each: for stmt in stmts {
        highest = highest.max(stmt_height(stmt));
    }
    highest
}

/// The greatest height in a head, 0 where it is empty, and 2^64 - 1 for any greater one.
#[tactic(auto, using(crate::proofs::Heads::heads))]
#[cycle(stmt_height)]
pub fn head_height(head: &ForHead) -> u64
    ensures { result ≡ capped (head_height (bare_head head.now)) }
{
    part_height(&head.init)
        .max(option_height(&head.test))
        .max(part_height(&head.step))
}

#[cycle(stmt_height)]
fn part_height(part: &Option<Boxed<Stmt>>) -> u64
    ensures { result ≡ capped (part_height (maybe_stmt (option_map bare_stmt part.now))) }
{
    match part {
        None => 0,
        Some(stmt) => stmt_height(stmt.get()),
    }
}
