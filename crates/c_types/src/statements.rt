//! The breaches in statements, and what is known after them.

ghost use Rattle.std.specs.Prelude.{◌≡◌, IfOk, OnOk, max, true};
ghost use Rattle.std.specs.Option.{option_map};
ghost use Rattle.c_tree.specs.PlacedOf.{placed_expr, placed_stmt, placed_stmts, placed_head, maybe_stmt};
ghost use Rattle.c_tree.specs.NameRules.Scopes as scopes;
ghost use Rattle.c_tree.specs.NameRules.DeclaredNames as names;
ghost use Rattle.c_tree.specs.NameRules.CallDepth as depths;
ghost use Rattle.c_tree.specs.NameRules.Breaches as breaches;
ghost use Rattle.c_tree.specs.NameRules.BreachSets.{least, lesser};

use crate::expressions::{
    count_of, directive_breach, expr_breach, exprs_breach, option_breach, target_breach,
};
use crate::known::Table;
use crate::least::{breach_if, lesser};
use c_tree::boxed::Boxed;
use c_tree::name::Name;
use c_tree::name_rule::{Breach, Entity, NameRule};
use c_tree::tree::{Expr, ForHead, Stmt};
use std::alloc::AllocError;

/// In what a statement stands.
#[derive(Clone, Copy)]
pub struct Within {
    pub function: bool,
    pub a_loop: bool,
}

impl Within {
    fn in_loop(self) -> Within
        ensures function { result.function ≡ self.function }
        ensures a_loop { result.a_loop ≡ true }
    {
        Within {
            function: self.function,
            a_loop: true,
        }
    }
}

/// What was found in statements: the least breach, and the greatest depth of the functions that they call.
#[derive(Clone, Copy)]
pub struct Seen {
    pub breach: Option<Breach>,
    pub depth: u64,
}

impl Seen {
    fn only(breach: Option<Breach>) -> Seen
        ensures breach { result.breach ≡ breach }
        ensures depth { result.depth ≡ 0 }
    {
        Seen { breach, depth: 0 }
    }
}

/// The breach at a called name with so many arguments (N1, N10, N11, N12).
fn call_breach(in_function: bool, meaning: Option<Entity>, args: usize, at: u64) -> Option<Breach>
    ensures { result ≡ least (breaches.call_breaches in_function meaning args at) }
{
    match meaning {
        None => breach_if(true, NameRule::N1, at),
        Some(Entity::Function { params, depth }) => lesser(
            breach_if(args != params, NameRule::N11, at),
            breach_if(in_function && 16 <= depth, NameRule::N12, at),
        ),
        Some(_) => breach_if(true, NameRule::N10, at),
    }
}

fn depth_of(meaning: Option<Entity>) -> u64
    ensures { result ≡ depths.depth_of meaning }
{
    match meaning {
        Some(Entity::Function { depth, .. }) => depth,
        _ => 0,
    }
}

/// The breach where a name is declared (N2).
pub fn declare_breach(known: &Table, name: &Name, at: u64) -> Option<Breach>
    ensures { result ≡ least (breaches.declare_breaches known.now.scope name.now at) }
{
    breach_if(known.is_taken(name), NameRule::N2, at)
}

fn decl_seen(
    known: &mut Table,
    name: &Name,
    at: u64,
    init: &Option<Expr>,
) -> Result<Seen, AllocError>
    ensures breach { IfOk result (λ seen. seen.breach ≡ lesser (least (breaches.declare_breaches known.old.scope name.now at)) (least (breaches.option_breaches (scopes.declare name.now scopes.a_scalar known.old.scope) (option_map placed_expr init.now)))) }
    ensures depth { IfOk result (λ seen. seen.depth ≡ 0) }
    ensures known { OnOk result (known.new ≡ record known.old {
      scope = scopes.declare name.now scopes.a_scalar known.old.scope;
      names = names.with_name name.now known.old.names;
    }) }
{
    let again = declare_breach(known, name, at);
    known.declare(name, Entity::Variable { dims: 0 })?;
    Ok(Seen::only(lesser(again, option_breach(known, init))))
}

/// The least breach in a statement, and the greatest depth of the functions that it calls. What is known afterwards is
/// what is visible after the statement, and the names that it declares.
#[tactic(auto, using(crate::proofs::Scopes::scope_rules))]
#[cycle(stmt_seen)]
pub fn stmt_seen(known: &mut Table, within: Within, stmt: &Stmt) -> Result<Seen, AllocError>
    ensures breach { IfOk result (λ seen. seen.breach ≡ least (breaches.stmt_breaches within.function within.a_loop known.old.scope (placed_stmt stmt.now))) }
    ensures depth { IfOk result (λ seen. seen.depth ≡ depths.deepest_call known.old.scope (placed_stmt stmt.now)) }
    ensures known { OnOk result (known.new ≡ record known.old {
      scope = scopes.after_stmt known.old.scope (placed_stmt stmt.now);
      names = names.with_stmt known.old.names (placed_stmt stmt.now);
    }) }
{
    match stmt {
        Stmt::Decl {
            name,
            name_span,
            init,
            ..
        } => decl_seen(known, name, name_span.start, init),
        Stmt::Set { target, value, .. } => {
            Ok(Seen::only(lesser(target_breach(known, target), expr_breach(known, value))))
        }
        Stmt::Step { target, .. } => Ok(Seen::only(target_breach(known, target))),
        Stmt::Print { value, span } => {
            let unknown = breach_if(!known.print_known(), NameRule::N1, span.start);
            Ok(Seen::only(lesser(unknown, expr_breach(known, value))))
        }
        Stmt::Input {
            target,
            input_at,
            ..
        } => {
            let unknown = breach_if(!known.input_known(), NameRule::N1, *input_at);
            Ok(Seen::only(lesser(target_breach(known, target), unknown)))
        }
        Stmt::If {
            test,
            yes,
            no: None,
            ..
        } => {
            let test = expr_breach(known, test);
            let yes = list_seen(known, within, yes.as_slice())?;
            Ok(Seen {
                breach: lesser(test, yes.breach),
                depth: yes.depth,
            })
        }
        Stmt::If {
            test,
            yes,
            no: Some(no),
            ..
        } => {
            let test = expr_breach(known, test);
            let yes = list_seen(known, within, yes.as_slice())?;
            let no = list_seen(known, within, no.as_slice())?;
            Ok(Seen {
                breach: lesser(test, lesser(yes.breach, no.breach)),
                depth: yes.depth.max(no.depth),
            })
        }
        Stmt::While { test, body, .. } => {
            let test = expr_breach(known, test);
            let body = list_seen(known, within.in_loop(), body.as_slice())?;
            Ok(Seen {
                breach: lesser(test, body.breach),
                depth: body.depth,
            })
        }
        Stmt::Do { body, test, .. } => {
            let body = list_seen(known, within.in_loop(), body.as_slice())?;
            Ok(Seen {
                breach: lesser(body.breach, expr_breach(known, test)),
                depth: body.depth,
            })
        }
        Stmt::For { head, body, .. } => {
            let round = known.round();
            let head = head_seen(known, within, head)?;
            let body = list_seen(known, within.in_loop(), body.as_slice())?;
            known.leave(round);
            Ok(Seen {
                breach: lesser(head.breach, body.breach),
                depth: head.depth.max(body.depth),
            })
        }
        Stmt::Block { body, .. } => list_seen(known, within, body.as_slice()),
        Stmt::Break { span } => {
            Ok(Seen::only(breach_if(!within.a_loop, NameRule::N6, span.start)))
        }
        Stmt::Continue { span } => {
            Ok(Seen::only(breach_if(!within.a_loop, NameRule::N7, span.start)))
        }
        Stmt::Empty { .. } => Ok(Seen::only(None)),
        Stmt::Omp {
            directive,
            body,
            ..
        } => {
            let directive = directive_breach(known, directive);
            let body = list_seen(known, within, body.as_slice())?;
            Ok(Seen {
                breach: lesser(directive, body.breach),
                depth: body.depth,
            })
        }
        Stmt::Call {
            name,
            name_span,
            args,
            ..
        } => {
            let meaning = known.meaning(name);
            let args = args.as_slice();
            let called = call_breach(within.function, meaning, count_of(args), name_span.start);
            Ok(Seen {
                breach: lesser(called, exprs_breach(known, args)),
                depth: depth_of(meaning),
            })
        }
    }
}

/// The statements of a list in a scope of its own, after which all is as before but for the names.
#[tactic(auto, using(crate::proofs::Scopes::scope_rules))]
#[cycle(stmt_seen)]
pub fn list_seen(known: &mut Table, within: Within, stmts: &[Stmt]) -> Result<Seen, AllocError>
    ensures breach { IfOk result (λ seen. seen.breach ≡ least (breaches.stmts_breaches within.function within.a_loop (scopes.inner known.old.scope) (placed_stmts stmts.now))) }
    ensures depth { IfOk result (λ seen. seen.depth ≡ depths.deepest_calls (scopes.inner known.old.scope) (placed_stmts stmts.now)) }
    ensures known { OnOk result (known.new ≡ record known.old { names = names.with_stmts known.old.names (placed_stmts stmts.now) }) }
{
    let round = known.round();
    known.enter();
    let seen = stmts_seen(known, within, stmts)?;
    known.leave(round);
    Ok(seen)
}

/// Statements one after another in the present scope, to which they may add declarations.
#[tactic(auto, using(crate::proofs::Lists::lists))]
#[cycle(stmt_seen)]
pub fn stmts_seen(known: &mut Table, within: Within, stmts: &[Stmt]) -> Result<Seen, AllocError>
    ensures breach { IfOk result (λ seen. seen.breach ≡ least (breaches.stmts_breaches within.function within.a_loop known.old.scope (placed_stmts stmts.now))) }
    ensures depth { IfOk result (λ seen. seen.depth ≡ depths.deepest_calls known.old.scope (placed_stmts stmts.now)) }
    ensures outside { OnOk result (known.new.scope.outside ≡ known.old.scope.outside) }
    ensures print_known { OnOk result (known.new.scope.print_known ≡ known.old.scope.print_known) }
    ensures input_known { OnOk result (known.new.scope.input_known ≡ known.old.scope.input_known) }
    ensures names { OnOk result (known.new.names ≡ names.with_stmts known.old.names (placed_stmts stmts.now)) }
    ensures elements { OnOk result (known.new.elements ≡ known.old.elements) }
{
    let mut breach = None;
    let mut depth = 0;
    'each: for stmt in stmts {
        let seen = stmt_seen(known, within, stmt)?;
        breach = lesser(breach, seen.breach);
        depth = seen.depth.max(depth);
    }
    Ok(Seen { breach, depth })
}

#[cycle(stmt_seen)]
fn part_seen(
    known: &mut Table,
    within: Within,
    part: &Option<Boxed<Stmt>>,
) -> Result<Seen, AllocError>
    ensures breach { IfOk result (λ seen. seen.breach ≡ least (breaches.part_breaches within.function within.a_loop known.old.scope (maybe_stmt (option_map placed_stmt part.now)))) }
    ensures depth { IfOk result (λ seen. seen.depth ≡ depths.deepest_part known.old.scope (maybe_stmt (option_map placed_stmt part.now))) }
    ensures known { OnOk result (known.new ≡ record known.old {
      scope = scopes.after_part known.old.scope (maybe_stmt (option_map placed_stmt part.now));
      names = names.with_part known.old.names (maybe_stmt (option_map placed_stmt part.now));
    }) }
{
    match part {
        None => Ok(Seen::only(None)),
        Some(stmt) => stmt_seen(known, within, stmt.get()),
    }
}

/// The parts of a head in the scope of the head, which stays the present one.
#[tactic(auto, using(crate::proofs::Heads::heads))]
#[cycle(stmt_seen)]
fn head_seen(known: &mut Table, within: Within, head: &ForHead) -> Result<Seen, AllocError>
    ensures breach { IfOk result (λ seen. seen.breach ≡ least (breaches.head_breaches within.function within.a_loop known.old.scope (placed_head head.now))) }
    ensures depth { IfOk result (λ seen. seen.depth ≡ depths.deepest_in_head known.old.scope (placed_head head.now)) }
    ensures known { OnOk result (known.new ≡ record known.old {
      scope = scopes.after_head known.old.scope (placed_head head.now);
      names = names.with_head known.old.names (placed_head head.now);
    }) }
{
    known.enter();
    let init = part_seen(known, within, &head.init)?;
    let test = option_breach(known, &head.test);
    let step = part_seen(known, within, &head.step)?;
    Ok(Seen {
        breach: lesser(init.breach, lesser(test, step.breach)),
        depth: init.depth.max(step.depth),
    })
}
