//! Whether a program holds a directive.

ghost use Rattle.std.specs.Prelude.{◌≡◌, map};
ghost use Rattle.std.specs.Option.{option_map};
ghost use Rattle.c_tree.specs.BareOf.{bare_head, bare_program, bare_stmt, bare_stmts, bare_top, maybe_stmt};
ghost use Rattle.c_meaning.specs.Plain.{are_plain_stmts, is_plain, is_plain_head, is_plain_part, is_plain_stmt, is_plain_top};

use c_tree::boxed::Boxed;
use c_tree::tree::{ForHead, Item, Program, Stmt};

/// Whether a statement holds no directive.
#[cycle(plain)]
fn is_plain(stmt: &Stmt) -> bool
    ensures { result ≡ is_plain_stmt (bare_stmt stmt.now) }
{
    match stmt {
        Stmt::If { yes, no, .. } => {
            are_plain(yes.as_slice())
                && match no {
                    Some(no) => are_plain(no.as_slice()),
                    None => true,
                }
        }
        Stmt::While { body, .. } | Stmt::Do { body, .. } | Stmt::Block { body, .. } => {
            are_plain(body.as_slice())
        }
        Stmt::For { head, body, .. } => is_plain_head(head) && are_plain(body.as_slice()),
        Stmt::Omp { .. } => false,
        Stmt::Decl { .. }
        | Stmt::Set { .. }
        | Stmt::Step { .. }
        | Stmt::Print { .. }
        | Stmt::Input { .. }
        | Stmt::Break { .. }
        | Stmt::Continue { .. }
        | Stmt::Empty { .. }
        | Stmt::Call { .. } => true,
    }
}

/// Whether each of some statements holds no directive.
#[tactic(auto, using(crate::proofs::Lists::statements))]
#[cycle(plain)]
fn are_plain(stmts: &[Stmt]) -> bool
    ensures { result ≡ are_plain_stmts (bare_stmts stmts.now) }
{
    'each: for stmt in stmts {
        if !is_plain(stmt) {
            return false;
        }
    }
    true
}

/// Whether the parts of a head hold no directive.
#[tactic(auto, using(c_tree::proofs::Heads::heads))]
#[cycle(plain)]
fn is_plain_head(head: &ForHead) -> bool
    ensures { result ≡ is_plain_head (bare_head head.now) }
{
    is_plain_part(&head.init) && is_plain_part(&head.step)
}

#[cycle(plain)]
fn is_plain_part(part: &Option<Boxed<Stmt>>) -> bool
    ensures { result ≡ is_plain_part (maybe_stmt (option_map bare_stmt part.now)) }
{
    match part {
        Some(stmt) => is_plain(stmt.get()),
        None => true,
    }
}

fn is_plain_item(item: &Item) -> bool
    ensures { result ≡ is_plain_top (bare_top item.now) }
{
    match item {
        Item::Function { body, .. } | Item::Main { body, .. } => are_plain(body.as_slice()),
        Item::Define { .. } | Item::Extern { .. } | Item::Global { .. } => true,
    }
}

/// Whether a program holds no directive. It takes no memory.
#[tactic(auto, using(crate::proofs::Lists::statements))]
pub fn holds_no_directive(program: &Program) -> bool
    ensures { result ≡ is_plain (bare_program program.now) }
{
    'each: for item in program.items.as_slice() {
        if !is_plain_item(item) {
            return false;
        }
    }
    true
}
