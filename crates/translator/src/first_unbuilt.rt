//! The first directive or item of a program that isn't carried out yet.

ghost use Rattle.std.specs.Prelude.{◌≡◌};
ghost use Rattle.c_tree.specs.PlacedOf.{placed_directive, placed_clauses, placed_clause, placed_items, placed_item, placed_stmt, placed_stmts, placed_top, placed_program};
ghost use Rattle.translator.specs.Unbuilt as unbuilt;

use c_tree::tree::{ApplyItem, Clause, ClauseKind, Directive, Item, Kind, Program, Stmt};

/// The place of the first one that isn't carried out yet, of a directive and its items.
#[cycle(directive_unbuilt)]
fn directive_unbuilt(directive: &Directive) -> Option<u64>
    ensures { result ≡ unbuilt.directive_unbuilt (placed_directive directive.now) }
{
    match directive.kind {
        Kind::Reverse => clauses_unbuilt(directive.clauses.as_slice()),
        Kind::Tile | Kind::Unroll | Kind::Interchange | Kind::Split | Kind::Fuse => {
            Some(directive.span.start)
        }
    }
}

#[tactic(auto, using(crate::proofs::Unbuilt::unbuilt))]
#[cycle(directive_unbuilt)]
fn clauses_unbuilt(clauses: &[Clause]) -> Option<u64>
    ensures { result ≡ unbuilt.clauses_unbuilt (placed_clauses clauses.now) }
{
    'each: for clause in clauses {
        if let Some(place) = clause_unbuilt(clause) {
            return Some(place);
        }
    }
    None
}

#[cycle(directive_unbuilt)]
fn clause_unbuilt(clause: &Clause) -> Option<u64>
    ensures { result ≡ unbuilt.clause_unbuilt (placed_clause clause.now) }
{
    match &clause.kind {
        ClauseKind::Apply { items, .. } => items_unbuilt(items.as_slice()),
        ClauseKind::Sizes(_)
        | ClauseKind::Permutation(_)
        | ClauseKind::Counts(_)
        | ClauseKind::LoopRange(_, _)
        | ClauseKind::Full
        | ClauseKind::Partial(_) => None,
    }
}

#[tactic(auto, using(crate::proofs::Unbuilt::unbuilt))]
#[cycle(directive_unbuilt)]
fn items_unbuilt(items: &[ApplyItem]) -> Option<u64>
    ensures { result ≡ unbuilt.items_unbuilt (placed_items items.now) }
{
    'each: for item in items {
        if let Some(place) = item_unbuilt(item) {
            return Some(place);
        }
    }
    None
}

#[cycle(directive_unbuilt)]
fn item_unbuilt(item: &ApplyItem) -> Option<u64>
    ensures { result ≡ unbuilt.item_unbuilt (placed_item item.now) }
{
    match item {
        ApplyItem::Nothing(_) => None,
        ApplyItem::Apply(directive) => directive_unbuilt(directive),
    }
}

#[cycle(stmt_unbuilt)]
fn stmt_unbuilt(stmt: &Stmt) -> Option<u64>
    ensures { result ≡ unbuilt.stmt_unbuilt (placed_stmt stmt.now) }
{
    match stmt {
        Stmt::If { yes, no: None, .. } => stmts_unbuilt(yes.as_slice()),
        Stmt::If {
            yes,
            no: Some(no),
            ..
        } => match stmts_unbuilt(yes.as_slice()) {
            None => stmts_unbuilt(no.as_slice()),
            Some(place) => Some(place),
        },
        Stmt::While { body, .. }
        | Stmt::Do { body, .. }
        | Stmt::For { body, .. }
        | Stmt::Block { body, .. } => stmts_unbuilt(body.as_slice()),
        Stmt::Omp {
            directive,
            body,
            ..
        } => match directive_unbuilt(directive) {
            None => stmts_unbuilt(body.as_slice()),
            Some(place) => Some(place),
        },
        Stmt::Decl { .. }
        | Stmt::Set { .. }
        | Stmt::Step { .. }
        | Stmt::Print { .. }
        | Stmt::Input { .. }
        | Stmt::Break { .. }
        | Stmt::Continue { .. }
        | Stmt::Empty { .. }
        | Stmt::Call { .. } => None,
    }
}

#[tactic(auto, using(crate::proofs::Unbuilt::unbuilt))]
#[cycle(stmt_unbuilt)]
fn stmts_unbuilt(stmts: &[Stmt]) -> Option<u64>
    ensures { result ≡ unbuilt.stmts_unbuilt (placed_stmts stmts.now) }
{
    'each: for stmt in stmts {
        if let Some(place) = stmt_unbuilt(stmt) {
            return Some(place);
        }
    }
    None
}

fn top_unbuilt(item: &Item) -> Option<u64>
    ensures { result ≡ unbuilt.top_unbuilt (placed_top item.now) }
{
    match item {
        Item::Function { body, .. } | Item::Main { body, .. } => stmts_unbuilt(body.as_slice()),
        Item::Define { .. } | Item::Extern { .. } | Item::Global { .. } => None,
    }
}

/// The place of a program's first directive or item of `apply` that isn't carried out yet, a byte offset in the text, and
/// `None` exactly where each is `reverse` or `nothing`. It takes no memory.
#[tactic(auto, using(crate::proofs::Unbuilt::unbuilt))]
pub fn first_unbuilt(program: &Program) -> Option<u64>
    ensures { result ≡ unbuilt.first_unbuilt (placed_program program.now) }
{
    let items = program.items.as_slice();
    'each: for item in items {
        if let Some(place) = top_unbuilt(item) {
            return Some(place);
        }
    }
    None
}
