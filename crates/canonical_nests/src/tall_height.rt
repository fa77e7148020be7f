//! The tall height of a program: how high its translation may be.

ghost use Rattle.std.specs.Prelude.{◌≡◌, length, if◌then◌else◌, map};
ghost use Rattle.c_tree.specs.BareOf.{bare_exprs, bare_directive, bare_clause, bare_clauses, bare_item, bare_items, bare_stmt, bare_stmts, bare_top, bare_program};
ghost use Rattle.c_tree.specs.Bare.{expr_list};
ghost use Rattle.c_tree.specs.Height.{capped};
ghost use Rattle.c_semantics.specs.Loops.Directives.{sizes_in, full_in};
ghost use Rattle.canonical_nests.specs.TallHeight as tall;

use c_tree::height::{directive_height, expr_height, head_height, item_height, stmt_height};
use c_tree::tree::{ApplyItem, Clause, ClauseKind, Directive, Expr, Item, Kind, Program, Stmt};

/// How many expressions a list has.
#[tactic(auto, using(crate::proofs::ClauseLists::clauses))]
fn count_of(es: &[Expr]) -> u64
    ensures { result ≡ length (expr_list (bare_exprs es.now)) }
{
    es.len() as u64
}

fn own_sizes(clause: &Clause) -> Option<u64>
    ensures { result ≡ tall.own_sizes (bare_clause clause.now) }
{
    match &clause.kind {
        ClauseKind::Sizes(sizes) => Some(count_of(sizes.as_slice())),
        ClauseKind::Permutation(_)
        | ClauseKind::Counts(_)
        | ClauseKind::LoopRange(_, _)
        | ClauseKind::Full
        | ClauseKind::Partial(_)
        | ClauseKind::Apply { .. } => None,
    }
}

fn own_permutation(clause: &Clause) -> Option<u64>
    ensures { result ≡ tall.own_permutation (bare_clause clause.now) }
{
    match &clause.kind {
        ClauseKind::Permutation(items) => Some(count_of(items.as_slice())),
        ClauseKind::Sizes(_)
        | ClauseKind::Counts(_)
        | ClauseKind::LoopRange(_, _)
        | ClauseKind::Full
        | ClauseKind::Partial(_)
        | ClauseKind::Apply { .. } => None,
    }
}

/// How many sizes the first `sizes` clause has, 0 where there is none.
#[tactic(auto, using(crate::proofs::ClauseLists::clauses))]
pub fn sizes_count(clauses: &[Clause]) -> u64
    ensures { result ≡ length (sizes_in (bare_clauses clauses.now)) }
{
    'each: for clause in clauses {
        if let Some(count) = own_sizes(clause) {
            return count;
        }
    }
    0
}

/// How many items the first `permutation` clause has, 2 where there is none.
#[tactic(auto, using(crate::proofs::ClauseLists::clauses))]
fn permutation_count(clauses: &[Clause]) -> u64
    ensures { result ≡ tall.permutation_length (bare_clauses clauses.now) }
{
    'each: for clause in clauses {
        if let Some(count) = own_permutation(clause) {
            return count;
        }
    }
    2
}

#[tactic(auto, using(crate::proofs::ClauseLists::clauses))]
fn is_full(clauses: &[Clause]) -> bool
    ensures { result ≡ full_in (bare_clauses clauses.now) }
{
    'each: for clause in clauses {
        if let ClauseKind::Full = &clause.kind {
            return true;
        }
    }
    false
}

/// The loops that a directive with these clauses generates: two for each size of `tile`, one for each item of
/// `interchange`, none for a full `unroll`, else one. 2^64 - 1 stands for any greater number.
pub fn generated(kind: Kind, clauses: &[Clause]) -> u64
    ensures { result ≡ capped (tall.generated kind (bare_clauses clauses.now)) }
{
    match kind {
        Kind::Tile => sizes_count(clauses).saturating_mul(2),
        Kind::Interchange => permutation_count(clauses),
        Kind::Unroll => { if is_full(clauses) { 0 } else { 1 } }
        Kind::Reverse | Kind::Split | Kind::Fuse => 1,
    }
}

/// What a directive and its items add to the height of the statement that carries it, and 2^64 - 1 for any greater one.
#[cycle(added_height)]
fn added_height(directive: &Directive) -> u64
    ensures { result ≡ capped (tall.added_height (bare_directive directive.now)) }
{
    generated(directive.kind, directive.clauses.as_slice())
        .saturating_add(12)
        .saturating_add(clauses_added(directive.clauses.as_slice()))
}

#[tactic(auto, using(crate::proofs::ClauseLists::clauses))]
#[cycle(added_height)]
fn clauses_added(clauses: &[Clause]) -> u64
    ensures { result ≡ capped (tall.clauses_added (bare_clauses clauses.now)) }
{
    let mut added: u64 = 0;
    'each: for clause in clauses {
        added = added.saturating_add(clause_added(clause));
    }
    added
}

#[cycle(added_height)]
fn clause_added(clause: &Clause) -> u64
    ensures { result ≡ capped (tall.clause_added (bare_clause clause.now)) }
{
    match &clause.kind {
        ClauseKind::Apply { items, .. } => items_added(items.as_slice()),
        ClauseKind::Sizes(_)
        | ClauseKind::Permutation(_)
        | ClauseKind::Counts(_)
        | ClauseKind::LoopRange(_, _)
        | ClauseKind::Full
        | ClauseKind::Partial(_) => 0,
    }
}

#[tactic(auto, using(crate::proofs::ClauseLists::clauses))]
#[cycle(added_height)]
fn items_added(items: &[ApplyItem]) -> u64
    ensures { result ≡ capped (tall.items_added (bare_items items.now)) }
{
    let mut added: u64 = 0;
    'each: for item in items {
        added = added.saturating_add(item_added(item));
    }
    added
}

#[cycle(added_height)]
fn item_added(item: &ApplyItem) -> u64
    ensures { result ≡ capped (tall.item_added (bare_item item.now)) }
{
    match item {
        ApplyItem::Nothing(_) => 0,
        ApplyItem::Apply(directive) => added_height(directive),
    }
}

/// The tall height of a statement, and 2^64 - 1 for any greater one.
#[cycle(tall_stmt)]
fn tall_stmt(stmt: &Stmt) -> u64
    ensures { result ≡ capped (tall.tall_stmt (bare_stmt stmt.now)) }
{
    match stmt {
        Stmt::If {
            test,
            yes,
            no: None,
            ..
        } => {
            expr_height(test)
                .max(tall_stmts(yes.as_slice()))
                .saturating_add(1)
        }
        Stmt::If {
            test,
            yes,
            no: Some(no),
            ..
        } => {
            expr_height(test)
                .max(tall_stmts(yes.as_slice()))
                .max(tall_stmts(no.as_slice()))
                .saturating_add(1)
        }
        Stmt::While { test, body, .. } | Stmt::Do { body, test, .. } => {
            expr_height(test)
                .max(tall_stmts(body.as_slice()))
                .saturating_add(1)
        }
        Stmt::For { head, body, .. } => {
            head_height(head)
                .max(tall_stmts(body.as_slice()))
                .saturating_add(1)
        }
        Stmt::Block { body, .. } => tall_stmts(body.as_slice()).saturating_add(1),
        Stmt::Omp {
            directive,
            body,
            ..
        } => {
            directive_height(directive)
                .max(tall_stmts(body.as_slice()))
                .saturating_add(1)
                .saturating_add(added_height(directive))
        }
        Stmt::Decl { .. }
        | Stmt::Set { .. }
        | Stmt::Step { .. }
        | Stmt::Print { .. }
        | Stmt::Input { .. }
        | Stmt::Break { .. }
        | Stmt::Continue { .. }
        | Stmt::Empty { .. }
        | Stmt::Call { .. } => stmt_height(stmt),
    }
}

#[tactic(auto, using(crate::proofs::Statements::statements))]
#[cycle(tall_stmt)]
fn tall_stmts(stmts: &[Stmt]) -> u64
    ensures { result ≡ capped (tall.tall_stmts (bare_stmts stmts.now)) }
{
    let mut highest = 0;
    'each: for stmt in stmts {
        highest = highest.max(tall_stmt(stmt));
    }
    highest
}

fn tall_item(item: &Item) -> u64
    ensures { result ≡ capped (tall.tall_top (bare_top item.now)) }
{
    match item {
        Item::Function { body, .. } | Item::Main { body, .. } => {
            tall_stmts(body.as_slice()).saturating_add(1)
        }
        Item::Define { .. } | Item::Extern { .. } | Item::Global { .. } => item_height(item),
    }
}

/// The tall height of a program, and 2^64 - 1 for any greater one: its height, where each directive and each item of
/// `apply` adds 12 and the loops that it generates to the statement that carries it. It takes no memory.
#[tactic(auto, using(crate::proofs::Statements::statements))]
pub fn tall_height(program: &Program) -> u64
    ensures { result ≡ capped (tall.tall_height (bare_program program.now)) }
{
    let mut highest = 0;
    let items = program.items.as_slice();
    'each: for item in items {
        highest = highest.max(tall_item(item));
    }
    highest
}
