//! The first directive of a program.

ghost use Rattle.std.specs.Prelude.{◌≡◌, map};
ghost use Rattle.c_tree.specs.PlacedOf.{placed_stmt, placed_stmts, placed_top, placed_program};
ghost use Rattle.canonical_nests.specs.LoopRules.Programs as programs;

use c_tree::tree::{Item, Program, Stmt};

/// The place of the first directive in a statement.
#[cycle(stmt_directive)]
fn stmt_directive(stmt: &Stmt) -> Option<u64>
    ensures { result ≡ programs.stmt_directive (placed_stmt stmt.now) }
{
    match stmt {
        Stmt::If { yes, no: None, .. } => stmts_directive(yes.as_slice()),
        Stmt::If {
            yes,
            no: Some(no),
            ..
        } => match stmts_directive(yes.as_slice()) {
            None => stmts_directive(no.as_slice()),
            Some(place) => Some(place),
        },
        Stmt::While { body, .. }
        | Stmt::Do { body, .. }
        | Stmt::For { body, .. }
        | Stmt::Block { body, .. } => stmts_directive(body.as_slice()),
        Stmt::Omp { directive, .. } => Some(directive.span.start),
        Stmt::Decl { .. }
        | Stmt::Set { .. }
        | Stmt::Step { .. }
        | Stmt::Print { .. }
        | Stmt::Input { .. }
        | Stmt::Break { .. }
        | Stmt::Continue { .. }
        | Stmt::Empty { .. }
        | Stmt::Call { .. } => None,
    }
}

#[tactic(auto, using(crate::proofs::FirstDirective::first_directives))]
#[cycle(stmt_directive)]
fn stmts_directive(stmts: &[Stmt]) -> Option<u64>
    ensures { result ≡ programs.stmts_directive (placed_stmts stmts.now) }
{
    'each: for stmt in stmts {
        if let Some(place) = stmt_directive(stmt) {
            return Some(place);
        }
    }
    None
}

fn item_directive(item: &Item) -> Option<u64>
    ensures { result ≡ programs.top_directive (placed_top item.now) }
{
    match item {
        Item::Function { body, .. } | Item::Main { body, .. } => stmts_directive(body.as_slice()),
        Item::Define { .. } | Item::Extern { .. } | Item::Global { .. } => None,
    }
}

/// The place of a program's first directive, a byte offset in the text, and `None` exactly where it has none. It takes
/// no memory.
#[tactic(auto, using(crate::proofs::FirstDirective::first_directives))]
pub fn first_directive(program: &Program) -> Option<u64>
    ensures { result ≡ programs.first_directive (placed_program program.now) }
{
    let items = program.items.as_slice();
    'each: for item in items {
        if let Some(place) = item_directive(item) {
            return Some(place);
        }
    }
    None
}
