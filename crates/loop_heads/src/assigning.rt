//! What statements assign, and where: L5 of the assignments in a loop's body.

ghost use Rattle.std.specs.Prelude.{◌≡◌, []};
ghost use Rattle.std.specs.Option.{option_map};
ghost use Rattle.c_tree.specs.PlacedOf.{placed_target, placed_stmt, placed_stmts, placed_head, maybe_stmt};
ghost use Rattle.canonical_nests.specs.LoopRules.Accesses as accesses;
ghost use Rattle.canonical_nests.specs.LoopRules.BreachSets.{least};
ghost use Rattle.canonical_nests.specs.LoopRules.Heads as rules;
ghost use Rattle.loop_heads.specs.Assigning as walks;

use c_tree::boxed::Boxed;
use c_tree::name::Name;
use c_tree::tree::{ForHead, Stmt, Target};
use canonical_nests::least::{breach_if, lesser};
use canonical_nests::rules::{LoopBreach, LoopRule};

fn target_breach(var: &Name, hidden: bool, target: &Target) -> Option<LoopBreach>
    ensures { result ≡ least (walks.target_assigns var.now hidden (placed_target target.now)) }
{
    breach_if(
        !hidden && var == &target.name,
        LoopRule::L5,
        target.span.start,
    )
}

/// Whether the variable is hidden after a statement.
fn hides(var: &Name, hidden: bool, stmt: &Stmt) -> bool
    ensures { result ≡ walks.hides var.now hidden (placed_stmt stmt.now) }
{
    match stmt {
        Stmt::Decl { name, .. } => if var == name { true } else { hidden },
        Stmt::If { no: None, .. } | Stmt::If { no: Some(_), .. } => hidden,
        _ => hidden,
    }
}

fn part_hides(var: &Name, hidden: bool, part: &Option<Boxed<Stmt>>) -> bool
    ensures { result ≡ walks.part_hides var.now hidden (maybe_stmt (option_map placed_stmt part.now)) }
{
    match part {
        None => hidden,
        Some(stmt) => hides(var, hidden, stmt.get()),
    }
}

#[tactic(auto, using(crate::proofs::Heads::heads))]
fn head_hides(var: &Name, hidden: bool, head: &ForHead) -> bool
    ensures { result ≡ walks.head_hides var.now hidden (placed_head head.now) }
{
    part_hides(var, hidden, &head.init)
}

#[cycle(stmts_breach)]
fn stmt_breach(var: &Name, hidden: bool, stmt: &Stmt) -> Option<LoopBreach>
    ensures { result ≡ least (walks.assigns var.now hidden (placed_stmt stmt.now)) }
{
    match stmt {
        Stmt::Set { target, .. } => target_breach(var, hidden, target),
        Stmt::Step { target, .. } => target_breach(var, hidden, target),
        Stmt::Input { target, .. } => target_breach(var, hidden, target),
        Stmt::If { yes, no: None, .. } => stmts_breach(var, hidden, yes.as_slice()),
        Stmt::If {
            yes,
            no: Some(no),
            ..
        } => lesser(
            stmts_breach(var, hidden, yes.as_slice()),
            stmts_breach(var, hidden, no.as_slice()),
        ),
        Stmt::While { body, .. } => stmts_breach(var, hidden, body.as_slice()),
        Stmt::Do { body, .. } => stmts_breach(var, hidden, body.as_slice()),
        Stmt::For { head, body, .. } => {
            let here = head_breach(var, hidden, head);
            lesser(
                here,
                stmts_breach(var, head_hides(var, hidden, head), body.as_slice()),
            )
        }
        Stmt::Block { body, .. } => stmts_breach(var, hidden, body.as_slice()),
        Stmt::Omp { body, .. } => stmts_breach(var, hidden, body.as_slice()),
        Stmt::Decl { .. }
        | Stmt::Print { .. }
        | Stmt::Break { .. }
        | Stmt::Continue { .. }
        | Stmt::Empty { .. }
        | Stmt::Call { .. } => None,
    }
}

#[tactic(auto, using(crate::proofs::Heads::heads))]
#[cycle(stmts_breach)]
fn head_breach(var: &Name, hidden: bool, head: &ForHead) -> Option<LoopBreach>
    ensures { result ≡ least (walks.head_assigns var.now hidden (placed_head head.now)) }
{
    lesser(
        part_breach(var, hidden, &head.init),
        part_breach(var, part_hides(var, hidden, &head.init), &head.step),
    )
}

#[cycle(stmts_breach)]
fn part_breach(var: &Name, hidden: bool, part: &Option<Boxed<Stmt>>) -> Option<LoopBreach>
    ensures { result ≡ least (walks.part_assigns var.now hidden (maybe_stmt (option_map placed_stmt part.now))) }
{
    match part {
        None => None,
        Some(stmt) => stmt_breach(var, hidden, stmt.get()),
    }
}

#[tactic(auto, using(crate::proofs::Assignments::assignments))]
#[cycle(stmts_breach)]
fn stmts_breach(var: &Name, hidden: bool, stmts: &[Stmt]) -> Option<LoopBreach>
    ensures { result ≡ least (walks.all_assigns var.now hidden (placed_stmts stmts.now)) }
{
    let mut found = None;
    let mut now = hidden;
    'each: for stmt in stmts {
        found = lesser(found, stmt_breach(var, now, stmt));
        now = hides(var, now, stmt);
    }
    found
}

/// The least breach of L5 by an assignment, a step or an input in the body of a loop with this variable: the first that
/// changes the variable which is visible where the body begins. `None` exactly where there is none.
#[tactic(auto, using(crate::proofs::Assignments::answers))]
pub fn assign_breach(var: &Name, stmts: &[Stmt]) -> Option<LoopBreach>
    ensures { result ≡ least (rules.assign_breaches var.now (accesses.assigned_in [] (placed_stmts stmts.now))) }
{
    stmts_breach(var, false, stmts)
}

/// Whether statements assign the variable that a name means where they begin.
#[tactic(auto, using(crate::proofs::Assignments::answers))]
pub fn is_assigned(name: &Name, stmts: &[Stmt]) -> bool
    ensures { result ≡ accesses.are_named (accesses.assigned_in [] (placed_stmts stmts.now)) name.now }
{
    assign_breach(name, stmts).is_some()
}
