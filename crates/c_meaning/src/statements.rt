//! Statements (C11 6.8). Each function runs from one state of the machine and the sink to another as the meaning does.

ghost use Rattle.std.specs.Prelude.{◌≡◌, map};
ghost use Rattle.std.specs.Option.{option_copied, option_map};
ghost use Rattle.resolved_names.specs.Numbered.{number_name, numbered_top, numbered_expr, numbered_exprs, numbered_stmt, numbered_stmts, numbered_head, maybe_stmt};
ghost use Rattle.c_meaning.specs.Held.{HeldExpr};
ghost use Rattle.c_tree.specs.Bare as bare;
ghost use Rattle.c_semantics.specs.Meaning.Runs as runs;
ghost use Rattle.c_semantics.specs.Meaning.SimpleStatements as simple;
ghost use Rattle.c_semantics.specs.Meaning.Statements as meaning;
ghost use Rattle.c_meaning.specs.Choices.{if_of};
ghost use Rattle.c_meaning.specs.Functions.{stopped_as};
ghost use Rattle.c_meaning.specs.Loops.{RunnableLoop, head_run, test_of, turn_in};
ghost use Rattle.c_meaning.specs.Runnable.{RunnableTops, RunnableHead, RunnablePart, RunnableStmt, RunnableStmts};
ghost use Rattle.c_meaning.specs.Running.{Ran, sunk};
ghost use Rattle.c_meaning.specs.Scopes.{env_of};

use crate::functions::{Stop, arguments, function_named};
use crate::lines::write_line;
use crate::loops::Loop;
use crate::machine::Machine;
use crate::run::{End, RunFault, call_end, loop_end, turn_end};
use crate::scope::Scope;
use crate::simple::{declare, head_holds, holds, printed, set_to, step_by, take_input};
use c_tree::arithmetic::Trap;
use c_tree::boxed::Boxed;
use outside_io::traits::Sink;
use resolved_names::tree::{Expr, ExprList, ForHead, Stmt, StmtList};

/// `print`: a line for the value as a `long long`.
fn print<K: Sink>(scope: &Scope, m: &Machine, out: &mut K, e: &Expr) -> Result<End, RunFault>
    requires known { RunnableTops (map numbered_top scope.now.items.now) }
    requires well_formed { HeldExpr (numbered_expr e.now) }
    ensures { Ran (simple.print_value (env_of scope.now).defines (numbered_expr e.now)) m.now (sunk (K.held out.old) (K.faults out.old)) m.now (sunk (K.held out.new) (K.faults out.new)) result }
{
    match printed(scope, m, e) {
        Err(trap) => Ok(End::Trapped(trap)),
        Ok(number) => match write_line(out, number) {
            Ok(()) => Ok(End::Next),
            Err(_) => Err(RunFault::WriteFault),
        },
    }
}

/// A part of a `for` head.
fn head_part(part: &Option<Boxed<Stmt>>) -> Option<&Stmt>
    ensures { option_copied result ≡ part.now }
{
    match part {
        Some(stmt) => Some(stmt.get()),
        None => None,
    }
}

/// How a call ends that has no frame.
fn stopped(stop: Stop) -> Result<End, RunFault>
    ensures { result ≡ stopped_as stop }
{
    match stop {
        Stop::Trap(trap) => Ok(End::Trapped(trap)),
        Stop::Memory => Err(RunFault::Memory),
    }
}

/// One statement.
#[cycle(run)]
pub fn run_stmt<'p, K: Sink>(
    scope: &Scope<'p>,
    m: &mut Machine<'p>,
    out: &mut K,
    stmt: &'p Stmt,
) -> Result<End, RunFault>
    requires known { RunnableTops (map numbered_top scope.now.items.now) }
    requires runnable { RunnableStmt (numbered_stmt stmt.now) }
    ensures { Ran (meaning.exec scope.now.bound (env_of scope.now) (numbered_stmt stmt.now)) m.old (sunk (K.held out.old) (K.faults out.old)) m.new (sunk (K.held out.new) (K.faults out.new)) result }
{
    match stmt {
        Stmt::Decl { ty, name, init, .. } => declare(scope, m, *ty, *name, init),
        Stmt::Set {
            target,
            op,
            value,
            ..
        } => Ok(set_to(scope, m, target, *op, value)),
        Stmt::Step { target, up, .. } => Ok(step_by(scope, m, target, *up)),
        Stmt::Print { value, .. } => print(scope, m, out, value),
        Stmt::Input { target, .. } => Ok(take_input(scope, m, target)),
        Stmt::If { test, yes, no, .. } => run_if(scope, m, out, test, yes, no),
        Stmt::While { test, body, .. } => {
            let repeated = Loop {
                test: Some(test),
                body,
                counts: false,
                next: None,
            };
            Ok(loop_end(repeat(scope, m, out, &repeated, scope.bound)?))
        }
        Stmt::Do { body, test, .. } => {
            let repeated = Loop {
                test: Some(test),
                body,
                counts: false,
                next: None,
            };
            Ok(loop_end(repeat_after(scope, m, out, &repeated)?))
        }
        Stmt::For { head, body, .. } => run_for(scope, m, out, head, body),
        Stmt::Block { body, .. } => run_block(scope, m, out, body),
        Stmt::Break => Ok(End::Break),
        Stmt::Continue => Ok(End::Continue),
        Stmt::Empty => Ok(End::Next),
        Stmt::Call { name, args, .. } => call(scope, m, out, *name, args),
    }
}

/// Statements, one after another, up to the first that doesn't end `Next`.
#[cycle(run)]
pub fn run_stmts<'p, K: Sink>(
    scope: &Scope<'p>,
    m: &mut Machine<'p>,
    out: &mut K,
    stmts: &'p [Stmt],
) -> Result<End, RunFault>
    requires known { RunnableTops (map numbered_top scope.now.items.now) }
    requires runnable { RunnableStmts (numbered_stmts stmts.now) }
    ensures { Ran (meaning.exec_all scope.now.bound (env_of scope.now) (numbered_stmts stmts.now)) m.old (sunk (K.held out.old) (K.faults out.old)) m.new (sunk (K.held out.new) (K.faults out.new)) result }
{
    'each: for stmt in stmts {
        match run_stmt(scope, m, out, stmt)? {
            End::Next => {}
            end => return Ok(end),
        }
    }
    Ok(End::Next)
}

/// A block: what it declares goes with it.
#[cycle(run)]
pub fn run_block<'p, K: Sink>(
    scope: &Scope<'p>,
    m: &mut Machine<'p>,
    out: &mut K,
    body: &'p StmtList,
) -> Result<End, RunFault>
    requires known { RunnableTops (map numbered_top scope.now.items.now) }
    requires runnable { RunnableStmts (numbered_stmts body.now) }
    ensures { Ran (runs.in_block (meaning.exec_all scope.now.bound (env_of scope.now) (numbered_stmts body.now))) m.old (sunk (K.held out.old) (K.faults out.old)) m.new (sunk (K.held out.new) (K.faults out.new)) result }
{
    let len = m.frame_len();
    let end = run_stmts(scope, m, out, body.as_slice())?;
    m.keep(len);
    Ok(end)
}

/// `if` (C11 6.8.4.1): the test is evaluated once.
#[cycle(run)]
fn run_if<'p, K: Sink>(
    scope: &Scope<'p>,
    m: &mut Machine<'p>,
    out: &mut K,
    test: &Expr,
    yes: &'p StmtList,
    no: &'p Option<StmtList>,
) -> Result<End, RunFault>
    requires known { RunnableTops (map numbered_top scope.now.items.now) }
    requires runnable { RunnableStmt (if_of (numbered_expr test.now) (numbered_stmts yes.now) (option_map numbered_stmts no.now)) }
    ensures { Ran (meaning.exec scope.now.bound (env_of scope.now) (if_of (numbered_expr test.now) (numbered_stmts yes.now) (option_map numbered_stmts no.now))) m.old (sunk (K.held out.old) (K.faults out.old)) m.new (sunk (K.held out.new) (K.faults out.new)) result }
{
    match holds(scope, m, test) {
        Err(trap) => Ok(End::Trapped(trap)),
        Ok(true) => run_block(scope, m, out, yes),
        Ok(false) => match no {
            Some(no) => run_block(scope, m, out, no),
            None => Ok(End::Next),
        },
    }
}

/// A `for` loop (C11 6.8.5.3): the scope of its head is a block round it.
#[cycle(run)]
fn run_for<'p, K: Sink>(
    scope: &Scope<'p>,
    m: &mut Machine<'p>,
    out: &mut K,
    head: &'p ForHead,
    body: &'p StmtList,
) -> Result<End, RunFault>
    requires known { RunnableTops (map numbered_top scope.now.items.now) }
    requires runnable { RunnableStmt (bare.for_ (numbered_head head.now) (numbered_stmts body.now)) }
    ensures { Ran (meaning.exec scope.now.bound (env_of scope.now) (bare.for_ (numbered_head head.now) (numbered_stmts body.now))) m.old (sunk (K.held out.old) (K.faults out.old)) m.new (sunk (K.held out.new) (K.faults out.new)) result }
{
    let len = m.frame_len();
    let repeated = Loop {
        test: head.test.as_ref(),
        body,
        counts: true,
        next: head_part(&head.step),
    };
    let end = run_head(scope, m, out, head_part(&head.init), &repeated)?;
    m.keep(len);
    Ok(end)
}

/// What a `for` begins with, and then its turns.
#[cycle(run)]
fn run_head<'p, K: Sink>(
    scope: &Scope<'p>,
    m: &mut Machine<'p>,
    out: &mut K,
    init: Option<&'p Stmt>,
    repeated: &Loop<'p>,
) -> Result<End, RunFault>
    requires known { RunnableTops (map numbered_top scope.now.items.now) }
    requires begin { RunnablePart (maybe_stmt (option_map numbered_stmt (option_copied init))) }
    requires runnable { RunnableLoop repeated.now }
    ensures { Ran (head_run scope.now.bound (env_of scope.now) (maybe_stmt (option_map numbered_stmt (option_copied init.entry))) repeated.now) m.old (sunk (K.held out.old) (K.faults out.old)) m.new (sunk (K.held out.new) (K.faults out.new)) result }
{
    match run_part(scope, m, out, init)? {
        End::Next => Ok(loop_end(repeat(scope, m, out, repeated, scope.bound)?)),
        end => Ok(end),
    }
}

/// A part of a `for` head.
#[cycle(run)]
fn run_part<'p, K: Sink>(
    scope: &Scope<'p>,
    m: &mut Machine<'p>,
    out: &mut K,
    part: Option<&'p Stmt>,
) -> Result<End, RunFault>
    requires known { RunnableTops (map numbered_top scope.now.items.now) }
    requires runnable { RunnablePart (maybe_stmt (option_map numbered_stmt (option_copied part))) }
    ensures { Ran (meaning.exec_maybe scope.now.bound (env_of scope.now) (maybe_stmt (option_map numbered_stmt (option_copied part.entry)))) m.old (sunk (K.held out.old) (K.faults out.old)) m.new (sunk (K.held out.new) (K.faults out.new)) result }
{
    match part {
        None => Ok(End::Next),
        Some(stmt) => run_stmt(scope, m, out, stmt),
    }
}

/// So many turns at most: the test is asked before each, and once more after the last.
#[cycle(run)]
fn repeat<'p, K: Sink>(
    scope: &Scope<'p>,
    m: &mut Machine<'p>,
    out: &mut K,
    repeated: &Loop<'p>,
    turns: u64,
) -> Result<End, RunFault>
    requires known { RunnableTops (map numbered_top scope.now.items.now) }
    requires runnable { RunnableLoop repeated.now }
    ensures { Ran (runs.repeat turns (simple.head_test (env_of scope.now).defines (test_of repeated.now)) (turn_in scope.now.bound (env_of scope.now) repeated.now)) m.old (sunk (K.held out.old) (K.faults out.old)) m.new (sunk (K.held out.new) (K.faults out.new)) result }
{
    let mut left = turns;
    'each: loop {
        match head_holds(scope, m, repeated.test) {
            Err(trap) => return Ok(End::Trapped(trap)),
            Ok(false) => return Ok(End::Next),
            Ok(true) => {}
        }
        if left == 0 {
            return Ok(End::Cut);
        }
        left -= 1;
        match run_turn(scope, m, out, repeated)? {
            End::Next => {}
            end => return Ok(end),
        }
    }
}

/// The turns of a `do` loop, whose first is due without a test.
#[cycle(run)]
fn repeat_after<'p, K: Sink>(
    scope: &Scope<'p>,
    m: &mut Machine<'p>,
    out: &mut K,
    repeated: &Loop<'p>,
) -> Result<End, RunFault>
    requires known { RunnableTops (map numbered_top scope.now.items.now) }
    requires runnable { RunnableLoop repeated.now }
    ensures { Ran (runs.repeat_after scope.now.bound (simple.head_test (env_of scope.now).defines (test_of repeated.now)) (turn_in scope.now.bound (env_of scope.now) repeated.now)) m.old (sunk (K.held out.old) (K.faults out.old)) m.new (sunk (K.held out.new) (K.faults out.new)) result }
{
    if scope.bound == 0 {
        return Ok(End::Cut);
    }
    match run_turn(scope, m, out, repeated)? {
        End::Next => repeat(scope, m, out, repeated, scope.bound - 1),
        end => Ok(end),
    }
}

/// One turn; that of a `for` is counted, and ends with the head's last part.
#[cycle(run)]
fn run_turn<'p, K: Sink>(
    scope: &Scope<'p>,
    m: &mut Machine<'p>,
    out: &mut K,
    repeated: &Loop<'p>,
) -> Result<End, RunFault>
    requires known { RunnableTops (map numbered_top scope.now.items.now) }
    requires runnable { RunnableLoop repeated.now }
    ensures { Ran (turn_in scope.now.bound (env_of scope.now) repeated.now) m.old (sunk (K.held out.old) (K.faults out.old)) m.new (sunk (K.held out.new) (K.faults out.new)) result }
{
    if !repeated.counts {
        return Ok(turn_end(run_block(scope, m, out, repeated.body)?));
    }
    m.count_turn();
    match turn_end(run_block(scope, m, out, repeated.body)?) {
        End::Next => run_part(scope, m, out, repeated.next),
        end => Ok(end),
    }
}

/// A call (C11 6.5.2.2): the body runs in a frame that holds the arguments, and then the caller's is put back.
#[cycle(run)]
fn call<'p, K: Sink>(
    scope: &Scope<'p>,
    m: &mut Machine<'p>,
    out: &mut K,
    name: usize,
    args: &ExprList,
) -> Result<End, RunFault>
    requires known { RunnableTops (map numbered_top scope.now.items.now) }
    requires runnable { RunnableStmt (bare.call (number_name name) (numbered_exprs args.now)) }
    ensures { Ran (meaning.exec scope.now.bound (env_of scope.now) (bare.call (number_name name) (numbered_exprs args.now))) m.old (sunk (K.held out.old) (K.faults out.old)) m.new (sunk (K.held out.new) (K.faults out.new)) result }
{
    let Some(function) = function_named(scope, name) else {
        return Ok(End::Trapped(Trap::Unset));
    };
    let empty = m.empty_frame();
    let frame = match arguments(scope, m, empty, function.params, args.as_slice()) {
        Ok(frame) => frame,
        Err(stop) => return stopped(stop),
    };
    let caller = m.swap_frame(frame);
    let end = run_stmts(&function.scope, m, out, function.body)?;
    let ended = m.swap_frame(caller);
    m.put_back(ended);
    Ok(call_end(end))
}
