//! What the functions that statements call assign and read: L5 and L28 of the calls in a loop's body.

ghost use Rattle.std.specs.Prelude.{◌≡◌};
ghost use Rattle.c_tree.specs.PlacedOf.{placed_stmt, placed_stmts};
ghost use Rattle.canonical_nests.specs.LoopRules.Accesses as accesses;
ghost use Rattle.canonical_nests.specs.LoopRules.BreachSets.{least};
ghost use Rattle.canonical_nests.specs.LoopRules.Heads as rules;
ghost use Rattle.loop_heads.specs.Calling as walks;

use crate::functions::Functions;
use c_tree::name::Name;
use c_tree::tree::Stmt;
use canonical_nests::least::{breach_if, lesser};
use canonical_nests::rules::{LoopBreach, LoopRule};

/// The least breach by a call of a function at a place.
fn one_breach(functions: &Functions, var: &Name, function: &Name, at: u64) -> Option<LoopBreach>
    ensures { result ≡ least (walks.one_call functions.now var.now function.now at) }
{
    lesser(
        breach_if(functions.may_assign(function, var), LoopRule::L5, at),
        breach_if(functions.may_read(function, var), LoopRule::L28, at),
    )
}

#[cycle(calls_breach)]
fn stmt_breach(functions: &Functions, var: &Name, stmt: &Stmt) -> Option<LoopBreach>
    ensures { result ≡ least (walks.calls_touch functions.now var.now (placed_stmt stmt.now)) }
{
    match stmt {
        Stmt::If { yes, no: None, .. } => calls_breach(functions, var, yes.as_slice()),
        Stmt::If {
            yes,
            no: Some(no),
            ..
        } => lesser(
            calls_breach(functions, var, yes.as_slice()),
            calls_breach(functions, var, no.as_slice()),
        ),
        Stmt::While { body, .. } => calls_breach(functions, var, body.as_slice()),
        Stmt::Do { body, .. } => calls_breach(functions, var, body.as_slice()),
        Stmt::For { body, .. } => calls_breach(functions, var, body.as_slice()),
        Stmt::Block { body, .. } => calls_breach(functions, var, body.as_slice()),
        Stmt::Omp { body, .. } => calls_breach(functions, var, body.as_slice()),
        Stmt::Call {
            name,
            name_span,
            ..
        } => one_breach(functions, var, name, name_span.start),
        Stmt::Decl { .. }
        | Stmt::Set { .. }
        | Stmt::Step { .. }
        | Stmt::Print { .. }
        | Stmt::Input { .. }
        | Stmt::Break { .. }
        | Stmt::Continue { .. }
        | Stmt::Empty { .. } => None,
    }
}

#[tactic(auto, using(crate::proofs::Calls::walks))]
#[cycle(calls_breach)]
fn calls_breach(functions: &Functions, var: &Name, stmts: &[Stmt]) -> Option<LoopBreach>
    ensures { result ≡ least (walks.all_calls_touch functions.now var.now (placed_stmts stmts.now)) }
{
    let mut found = None;
    'each: for stmt in stmts {
        found = lesser(found, stmt_breach(functions, var, stmt));
    }
    found
}

/// The least breach of L5 and L28 by the calls in the body of a loop whose variable is a file-scope one: the first call
/// of a function that may assign or may read it. `None` exactly where there is none.
#[tactic(auto, using(crate::proofs::Calls::call_answers))]
pub fn call_breach(functions: &Functions, var: &Name, stmts: &[Stmt]) -> Option<LoopBreach>
    ensures { result ≡ least (rules.call_breaches functions.now var.now (accesses.calls_in (placed_stmts stmts.now))) }
{
    calls_breach(functions, var, stmts)
}

#[cycle(calls_assign)]
fn call_assigns(functions: &Functions, name: &Name, stmt: &Stmt) -> bool
    ensures { result ≡ walks.calls_assign functions.now name.now (placed_stmt stmt.now) }
{
    match stmt {
        Stmt::If { yes, no: None, .. } => calls_assign(functions, name, yes.as_slice()),
        Stmt::If {
            yes,
            no: Some(no),
            ..
        } => {
            let first = calls_assign(functions, name, yes.as_slice());
            let second = calls_assign(functions, name, no.as_slice());
            first || second
        }
        Stmt::While { body, .. } => calls_assign(functions, name, body.as_slice()),
        Stmt::Do { body, .. } => calls_assign(functions, name, body.as_slice()),
        Stmt::For { body, .. } => calls_assign(functions, name, body.as_slice()),
        Stmt::Block { body, .. } => calls_assign(functions, name, body.as_slice()),
        Stmt::Omp { body, .. } => calls_assign(functions, name, body.as_slice()),
        Stmt::Call { name: function, .. } => functions.may_assign(function, name),
        Stmt::Decl { .. }
        | Stmt::Set { .. }
        | Stmt::Step { .. }
        | Stmt::Print { .. }
        | Stmt::Input { .. }
        | Stmt::Break { .. }
        | Stmt::Continue { .. }
        | Stmt::Empty { .. } => false,
    }
}

#[tactic(auto, using(crate::proofs::Calls::walks))]
#[cycle(calls_assign)]
fn calls_assign(functions: &Functions, name: &Name, stmts: &[Stmt]) -> bool
    ensures { result ≡ walks.all_calls_assign functions.now name.now (placed_stmts stmts.now) }
{
    let mut found = false;
    'each: for stmt in stmts {
        let here = call_assigns(functions, name, stmt);
        found = found || here;
    }
    found
}

/// Whether a function that statements call may assign a file-scope variable.
#[tactic(auto, using(crate::proofs::Calls::call_answers))]
pub fn some_may_assign(functions: &Functions, name: &Name, stmts: &[Stmt]) -> bool
    ensures { result ≡ rules.some_may_assign functions.now (accesses.calls_in (placed_stmts stmts.now)) name.now }
{
    calls_assign(functions, name, stmts)
}
