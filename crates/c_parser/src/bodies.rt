//! The statements of a list in braces (C11 6.8.2), with the bodies in it, which stand in one list while they are open.

ghost use Rattle.std.specs.Prelude.{◌≡◌, ◌++◌, ◌∷◌, [], List, Ok, IfOk};
ghost use Rattle.c_tree.specs.Placed as placed;
ghost use Rattle.c_lexer.specs.declared.token.Token.{Token};
ghost use Rattle.c_parser.specs.declared.owners.Frame as kinds;
ghost use Rattle.c_parser.specs.declared.owners.Owner as holders;
ghost use Rattle.c_parser.specs.Bodies.{Grown, BeginsBody};
ghost use Rattle.c_parser.specs.Kept.{stmt_of, stmts_of, keep_stmt, keep_stmts};
ghost use Rattle.c_parser.specs.Lists.{IsStep, Lessens, IsListTaken};

use crate::begin::begin;
use crate::beginnings::{Beginning, beginning_of};
use crate::cursor::{Class, Cursor};
use crate::nodes::{add_stmt, block, construct, do_loop, for_loop, if_else, if_only, while_loop};
use crate::owners::{Begun, Frame, OpenList, Owner};
use crate::simple::spanning;
use crate::statements::condition;
use crate::units::{UnitRead, no_stmts, unit};
use c_tree::tree::{Expr, Span, Stmt, StmtList};
use pragma_grammar::directive_kept::Kept;
use pragma_grammar::phrase::ParseFault;
use pragma_grammar::terminal::terminal_of;
use std::alloc::{AllocError, Global};

/// What is read next: units of a list, or the body of a statement; or what was read: the body of a statement, a list in
/// braces, or a statement. `last` is the place of its last token.
#[derive(Drop)]
pub enum State {
    Units(OpenList),
    Body(Owner),
    Closed {
        owner: Owner,
        stmts: Kept<StmtList>,
        last: Span,
    },
    Listed {
        stmts: Kept<StmtList>,
        at: Span,
        last: Span,
    },
    Ended {
        stmt: Kept<Stmt>,
        last: Span,
    },
}

/// Reading goes on, or the outermost list was read.
#[derive(Drop)]
pub enum Step {
    Goes(State),
    Done { stmts: Kept<StmtList>, last: Span },
}

/// One statement, as a list.
fn lone(alloc: Global, stmt: Kept<Stmt>) -> Result<Kept<StmtList>, AllocError>
    ensures { (s : placed.Stmt) → stmt_of stmt ≡ keep_stmt s → IfOk result (λ r. stmts_of r ≡ keep_stmts (placed.more_stmts s placed.no_stmts)) }
{
    let all = add_stmt(no_stmts(alloc), stmt)?;
    Ok(all)
}

/// The list with one more statement.
fn with_stmt(list: OpenList, stmt: Kept<Stmt>) -> Result<OpenList, AllocError>
    ensures { (before : placed.Stmts → placed.Stmts) (s : placed.Stmt) → Grown list.stmts before → stmt_of stmt ≡ keep_stmt s → IfOk result (λ r. (r.ends_main ≡ list.ends_main) × (r.at ≡ list.at) × Grown r.stmts (λ rs. before (placed.more_stmts s rs))) }
{
    let OpenList {
        ends_main,
        stmts,
        at,
    } = list;
    let stmts = add_stmt(stmts, stmt)?;
    Ok(OpenList {
        ends_main,
        stmts,
        at,
    })
}

/// Opens a frame.
fn push_frame(frames: &mut Vec<Frame>, frame: Frame) -> Result<(), AllocError>
    ensures { IfOk result (λ r. frames.new.items ≡ frames.old.items ++ frame ∷ []) }
{
    frames.push(frame)?;
    Ok(())
}

/// A list in braces was read in the innermost frame.
fn list_in(frame: Frame, stmts: Kept<StmtList>, at: Span, last: Span) -> Result<Step, ParseFault>
    ensures steps { (outer : List kinds.Frame) (ts : List Token) → IsStep (outer ++ frame ∷ []) (State.Listed stmts at last) ts result outer ts }
    ensures lessens { (outer : List kinds.Frame) (ts : List Token) → Lessens (outer ++ frame ∷ []) (State.Listed stmts at last) ts result outer ts }
{
    match frame {
        Frame::Owner(owner) => Ok(Step::Goes(State::Closed { owner, stmts, last })),
        Frame::List(list) => {
            let list = with_stmt(list, block(stmts, spanning(at, last)))?;
            Ok(Step::Goes(State::Units(list)))
        }
    }
}

/// A list in braces was read.
fn after_list(
    frames: &mut Vec<Frame>,
    stmts: Kept<StmtList>,
    at: Span,
    last: Span,
) -> Result<Step, ParseFault>
    ensures steps { (ts : List Token) → IsStep frames.old.items (State.Listed stmts at last) ts result frames.new.items ts }
    ensures lessens { (ts : List Token) → Lessens frames.old.items (State.Listed stmts at last) ts result frames.new.items ts }
{
    match frames.pop() {
        None => Ok(Step::Done { stmts, last }),
        Some(frame) => list_in(frame, stmts, at, last),
    }
}

/// A statement was read in the innermost frame.
fn stmt_in(alloc: Global, frame: Frame, stmt: Kept<Stmt>, last: Span) -> Result<Step, ParseFault>
    ensures steps { (outer : List kinds.Frame) (ts : List Token) → IsStep (outer ++ frame ∷ []) (State.Ended stmt last) ts result outer ts }
    ensures lessens { (outer : List kinds.Frame) (ts : List Token) → Lessens (outer ++ frame ∷ []) (State.Ended stmt last) ts result outer ts }
{
    match frame {
        Frame::Owner(owner) => {
            let stmts = lone(alloc, stmt)?;
            Ok(Step::Goes(State::Closed { owner, stmts, last }))
        }
        Frame::List(list) => {
            let list = with_stmt(list, stmt)?;
            Ok(Step::Goes(State::Units(list)))
        }
    }
}

/// A statement was read.
fn after_stmt(
    alloc: Global,
    frames: &mut Vec<Frame>,
    stmt: Kept<Stmt>,
    last: Span,
) -> Result<Step, ParseFault>
    ensures steps { (ts : List Token) → IsStep frames.old.items (State.Ended stmt last) ts result frames.new.items ts }
    ensures lessens { (ts : List Token) → Lessens frames.old.items (State.Ended stmt last) ts result frames.new.items ts }
{
    match frames.pop() {
        None => {
            let stmts = lone(alloc, stmt)?;
            Ok(Step::Done { stmts, last })
        }
        Some(frame) => stmt_in(alloc, frame, stmt, last),
    }
}

/// Reads a unit of a list.
fn after_unit(
    alloc: Global,
    cursor: &mut Cursor,
    frames: &mut Vec<Frame>,
    list: OpenList,
) -> Result<Step, ParseFault>
    ensures steps { IsStep frames.old.items (State.Units list) cursor.old result frames.new.items cursor.new }
    ensures lessens { Lessens frames.old.items (State.Units list) cursor.old result frames.new.items cursor.new }
{
    let OpenList {
        ends_main,
        stmts,
        at,
    } = list;
    match unit(alloc, cursor, ends_main, stmts)? {
        UnitRead::More(stmts) => Ok(Step::Goes(State::Units(OpenList {
            ends_main,
            stmts,
            at,
        }))),
        UnitRead::Opens { stmts, at: inner } => {
            push_frame(
                frames,
                Frame::List(OpenList {
                    ends_main,
                    stmts,
                    at,
                }),
            )?;
            Ok(Step::Goes(State::Units(OpenList {
                ends_main: false,
                stmts: no_stmts(alloc),
                at: inner,
            })))
        }
        UnitRead::Owns { stmts, owner } => {
            push_frame(
                frames,
                Frame::List(OpenList {
                    ends_main,
                    stmts,
                    at,
                }),
            )?;
            Ok(Step::Goes(State::Body(owner)))
        }
        UnitRead::Closes { stmts, last } => Ok(Step::Goes(State::Listed { stmts, at, last })),
    }
}

/// Reads the beginning of a body's one statement.
fn stmt_of_body(alloc: Global, cursor: &mut Cursor) -> Result<Step, ParseFault>
    requires { BeginsBody cursor.old }
    ensures steps { (outer : List kinds.Frame) (owner : holders.Owner) → IsStep outer (State.Body owner) cursor.old result (outer ++ Frame.Owner owner ∷ []) cursor.new }
    ensures lessens { (outer : List kinds.Frame) (owner : holders.Owner) → Lessens outer (State.Body owner) cursor.old result (outer ++ Frame.Owner owner ∷ []) cursor.new }
{
    match begin(alloc, cursor)? {
        Begun::Whole { stmt, last } => Ok(Step::Goes(State::Ended { stmt, last })),
        Begun::Opens(inner) => Ok(Step::Goes(State::Body(inner))),
    }
}

/// Reads the beginning of a body, whose owner is a frame by then: `{` opens a list, and anything else begins its one
/// statement.
fn begin_body(alloc: Global, cursor: &mut Cursor) -> Result<Step, ParseFault>
    ensures steps { (outer : List kinds.Frame) (owner : holders.Owner) → IsStep outer (State.Body owner) cursor.old result (outer ++ Frame.Owner owner ∷ []) cursor.new }
    ensures lessens { (outer : List kinds.Frame) (owner : holders.Owner) → Lessens outer (State.Body owner) cursor.old result (outer ++ Frame.Owner owner ∷ []) cursor.new }
{
    let token = cursor.first();
    let at = token.span;
    match beginning_of(terminal_of(token)) {
        Beginning::CurlyOpen => {
            cursor.advance();
            Ok(Step::Goes(State::Units(OpenList {
                ends_main: false,
                stmts: no_stmts(alloc),
                at,
            })))
        }
        _ => stmt_of_body(alloc, cursor),
    }
}

/// Opens the frame of a body's owner, and reads the beginning of the body.
fn after_body(
    alloc: Global,
    cursor: &mut Cursor,
    frames: &mut Vec<Frame>,
    owner: Owner,
) -> Result<Step, ParseFault>
    ensures steps { IsStep frames.old.items (State.Body owner) cursor.old result frames.new.items cursor.new }
    ensures lessens { Lessens frames.old.items (State.Body owner) cursor.old result frames.new.items cursor.new }
{
    push_frame(frames, Frame::Owner(owner))?;
    begin_body(alloc, cursor)
}

/// After the first body of an `if`: `else`, or the end.
fn after_then(
    cursor: &mut Cursor,
    test: Kept<Expr>,
    at: Span,
    stmts: Kept<StmtList>,
    last: Span,
) -> Step
    ensures steps { (fs : List kinds.Frame) → IsStep fs (State.Closed (Owner.IfThen test at) stmts last) cursor.old (Ok result) fs cursor.new }
    ensures lessens { (fs : List kinds.Frame) → Lessens fs (State.Closed (Owner.IfThen test at) stmts last) cursor.old (Ok result) fs cursor.new }
{
    match cursor.may(Class::Else) {
        Some(_) => Step::Goes(State::Body(Owner::IfElse {
            test,
            yes: stmts,
            at,
        })),
        None => Step::Goes(State::Ended {
            stmt: if_only(test, stmts, spanning(at, last)),
            last,
        }),
    }
}

/// After the body of a `do`: `while ( expr ) ;`.
fn after_do(
    alloc: Global,
    cursor: &mut Cursor,
    at: Span,
    stmts: Kept<StmtList>,
    last: Span,
) -> Result<Step, ParseFault>
    ensures steps { (fs : List kinds.Frame) → IsStep fs (State.Closed (Owner.Do at) stmts last) cursor.old result fs cursor.new }
    ensures lessens { (fs : List kinds.Frame) → Lessens fs (State.Closed (Owner.Do at) stmts last) cursor.old result fs cursor.new }
{
    cursor.take(Class::While)?;
    let test = condition(alloc, cursor)?;
    let end = cursor.take(Class::Semicolon)?;
    Ok(Step::Goes(State::Ended {
        stmt: do_loop(stmts, test, spanning(at, end)),
        last: end,
    }))
}

/// Reads what comes after a body.
fn finish(
    alloc: Global,
    cursor: &mut Cursor,
    owner: Owner,
    stmts: Kept<StmtList>,
    last: Span,
) -> Result<Step, ParseFault>
    ensures steps { (fs : List kinds.Frame) → IsStep fs (State.Closed owner stmts last) cursor.old result fs cursor.new }
    ensures lessens { (fs : List kinds.Frame) → Lessens fs (State.Closed owner stmts last) cursor.old result fs cursor.new }
{
    match owner {
        Owner::IfThen { test, at } => Ok(after_then(cursor, test, at, stmts, last)),
        Owner::IfElse { test, yes, at } => Ok(Step::Goes(State::Ended {
            stmt: if_else(test, yes, stmts, spanning(at, last)),
            last,
        })),
        Owner::While { test, at } => Ok(Step::Goes(State::Ended {
            stmt: while_loop(test, stmts, spanning(at, last)),
            last,
        })),
        Owner::Do { at } => after_do(alloc, cursor, at, stmts, last),
        Owner::For { head, at } => Ok(Step::Goes(State::Ended {
            stmt: for_loop(head, stmts, spanning(at, last)),
            last,
        })),
        Owner::Omp { directive, at } => Ok(Step::Goes(State::Ended {
            stmt: construct(directive, stmts, spanning(at, last)),
            last,
        })),
    }
}

/// One step of reading.
fn take_step(
    alloc: Global,
    cursor: &mut Cursor,
    frames: &mut Vec<Frame>,
    state: State,
) -> Result<Step, ParseFault>
    ensures steps { IsStep frames.old.items state cursor.old result frames.new.items cursor.new }
    ensures lessens { Lessens frames.old.items state cursor.old result frames.new.items cursor.new }
{
    match state {
        State::Units(list) => after_unit(alloc, cursor, frames, list),
        State::Body(owner) => after_body(alloc, cursor, frames, owner),
        State::Closed { owner, stmts, last } => finish(alloc, cursor, owner, stmts, last),
        State::Listed { stmts, at, last } => after_list(frames, stmts, at, last),
        State::Ended { stmt, last } => after_stmt(alloc, frames, stmt, last),
    }
}

/// Takes the statements of a list whose `{` stands at `at`, through its `}`, with the place of that. The list may end
/// with `return 0;` if it is that of `main`.
pub fn stmts_of_list(
    alloc: Global,
    cursor: &mut Cursor,
    ends_main: bool,
    at: Span,
) -> Result<(Kept<StmtList>, Span), ParseFault>
    ensures { IsListTaken ends_main cursor.old result cursor.new }
{
    let mut frames = Vec::new(alloc);
    let mut state = State::Units(OpenList {
        ends_main,
        stmts: no_stmts(alloc),
        at,
    });
    'steps: loop {
        match take_step(alloc, cursor, &mut frames, state)? {
            Step::Goes(next) => state = next,
            Step::Done { stmts, last } => return Ok((stmts, last)),
        }
    }
}
