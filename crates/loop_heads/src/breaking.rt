//! The `break`s that would leave an affected loop (OpenMP 6.0, 6.4.1, canonical loop nest form): L9.

ghost use Rattle.std.specs.Prelude.{◌≡◌};
ghost use Rattle.c_tree.specs.PlacedOf.{placed_stmt, placed_stmts};
ghost use Rattle.canonical_nests.specs.LoopRules.Accesses as accesses;
ghost use Rattle.canonical_nests.specs.LoopRules.BreachSets.{least};
ghost use Rattle.canonical_nests.specs.LoopRules.Heads as rules;

use c_tree::tree::Stmt;
use canonical_nests::least::{breach_if, lesser};
use canonical_nests::rules::{LoopBreach, LoopRule};

#[tactic(auto, using(crate::proofs::Breaks::break_rules))]
#[cycle(break_breach)]
fn stmt_breach(stmt: &Stmt) -> Option<LoopBreach>
    ensures { result ≡ least (rules.break_breaches (accesses.breaks (placed_stmt stmt.now))) }
{
    match stmt {
        Stmt::Break { span } => breach_if(true, LoopRule::L9, span.start),
        Stmt::If { yes, no, .. } => match no {
            None => break_breach(yes.as_slice()),
            Some(no) => lesser(break_breach(yes.as_slice()), break_breach(no.as_slice())),
        },
        Stmt::Block { body, .. } | Stmt::Omp { body, .. } => break_breach(body.as_slice()),
        Stmt::Decl { .. }
        | Stmt::Set { .. }
        | Stmt::Step { .. }
        | Stmt::Print { .. }
        | Stmt::Input { .. }
        | Stmt::While { .. }
        | Stmt::Do { .. }
        | Stmt::For { .. }
        | Stmt::Continue { .. }
        | Stmt::Empty { .. }
        | Stmt::Call { .. } => None,
    }
}

/// The least breach of L9 in the body of a loop: the first `break` that would leave the loop. `None` exactly where there
/// is none.
#[tactic(auto, using(crate::proofs::Breaks::break_rules))]
#[cycle(break_breach)]
pub fn break_breach(stmts: &[Stmt]) -> Option<LoopBreach>
    ensures { result ≡ least (rules.break_breaches (accesses.breaks_in (placed_stmts stmts.now))) }
{
    let mut found = None;
    'each: for stmt in stmts {
        found = lesser(found, stmt_breach(stmt));
    }
    found
}
