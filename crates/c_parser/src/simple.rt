//! Targets, assignments and steps, and lists of expressions, taken from the tokens that are left.

ghost use Rattle.std.specs.Prelude.{◌≡◌};
ghost use Rattle.c_tree.specs.Placed as placed;
ghost use Rattle.pragma_grammar.specs.Symbols.{spanning};
ghost use Rattle.pragma_grammar.specs.Terminals.{is_square_open};
ghost use Rattle.pragma_grammar.specs.DirectiveKept.{one, kept};
ghost use Rattle.pragma_grammar.specs.DirectiveStands.{exprs_of};
ghost use Rattle.c_grammar.specs.Goals as goals;
ghost use Rattle.c_parser.specs.Kept.{target_of, stmt_of, keep_target};
ghost use Rattle.c_parser.specs.Simple.{simple_until, OpensSubscript, AreSubscriptsTaken, AreListedTaken, IsTargetTaken, IsSimpleTaken};

use crate::cursor::{Class, Cursor};
use crate::nodes::{set, step};
use crate::phrases::expr;
use crate::terminals::{Operator, name, steps, stop, take_operator};
use c_lexer::token::Punct;
use c_tree::items::Items;
use c_tree::name::Name;
use c_tree::tree::{Expr, ExprList, SetOp, Span, Stmt, Target};
use pragma_grammar::directive_kept::{Kept, add_expr};
use pragma_grammar::phrase::ParseFault;
use pragma_grammar::terminal::{Terminal, terminal_of};
use std::alloc::Global;

/// From the first token's place to the last one's.
pub fn spanning(first: Span, last: Span) -> Span
    ensures { result ≡ spanning first last }
{
    Span {
        start: first.start,
        end: last.end,
    }
}

/// No expressions yet.
pub fn no_exprs(alloc: Global) -> Kept<ExprList>
    ensures { exprs_of result ≡ kept 0 placed.no_exprs }
{
    Kept::Whole {
        tree: Items::new(alloc),
        height: 0,
    }
}

fn is_square_open(terminal: Terminal) -> bool
    ensures { result ≡ is_square_open terminal }
{
    match terminal {
        Terminal::Punct(Punct::SquareOpen) => true,
        _ => false,
    }
}

/// Takes the `[` of a subscript, where one stands first.
fn opens_subscript(cursor: &mut Cursor) -> bool
    ensures { OpensSubscript cursor.old result cursor.new }
{
    if is_square_open(terminal_of(cursor.first())) {
        cursor.advance();
        true
    } else {
        false
    }
}

/// Takes the subscripts that follow a token at `at`.
pub fn subscripts(
    alloc: Global,
    cursor: &mut Cursor,
    at: Span,
) -> Result<(Kept<ExprList>, Span), ParseFault>
    ensures { AreSubscriptsTaken at cursor.old result cursor.new }
{
    let mut subs = no_exprs(alloc);
    let mut last = at;
    while opens_subscript(cursor) {
        let (sub, _) = expr(alloc, cursor)?;
        last = cursor.take(Class::SquareClose)?;
        subs = add_expr(subs, sub)?;
    }
    stop(cursor)?;
    Ok((subs, last))
}

/// Takes expressions with commas between them, through `)`.
pub fn listed(alloc: Global, cursor: &mut Cursor) -> Result<(Kept<ExprList>, Span), ParseFault>
    ensures { AreListedTaken cursor.old result cursor.new }
{
    let mut exprs = no_exprs(alloc);
    loop {
        let (value, _) = expr(alloc, cursor)?;
        exprs = add_expr(exprs, value)?;
        match cursor.may(Class::Comma) {
            Some(_) => {}
            None => {
                let last = cursor.take(Class::RoundClose)?;
                return Ok((exprs, last));
            }
        }
    }
}

/// A target of a name and what was kept of its subscripts.
pub fn target_node(name: Name, subs: Kept<ExprList>, span: Span) -> Kept<Target>
    ensures { target_of result ≡ one (λ es. placed.target name es span) (exprs_of subs) }
{
    match subs {
        Kept::Deep(place) => Kept::Deep(place),
        Kept::Whole { tree, height } => Kept::Whole {
            tree: Target {
                name,
                subs: tree,
                span,
            },
            height,
        },
    }
}

/// Takes the rest of a target (C11 6.5.16), whose name stands at `at`.
pub fn target(
    alloc: Global,
    cursor: &mut Cursor,
    name: Name,
    at: Span,
) -> Result<(Kept<Target>, Span), ParseFault>
    ensures { IsTargetTaken name at cursor.old result cursor.new }
{
    let (subs, last) = subscripts(alloc, cursor, at)?;
    let span = spanning(at, last);
    Ok((target_node(name, subs, span), span))
}

/// An assignment or a step that begins at `start`; where it ends comes later.
#[derive(Drop)]
pub enum Simple {
    Set {
        target: Kept<Target>,
        op: SetOp,
        value: Kept<Expr>,
        start: u64,
    },
    Step {
        target: Kept<Target>,
        up: bool,
        start: u64,
    },
}

/// The statement, which ends at that place.
pub fn simple_stmt(simple: Simple, to: u64) -> Kept<Stmt>
    ensures { stmt_of result ≡ simple_until simple to }
{
    match simple {
        Simple::Set {
            target,
            op,
            value,
            start,
        } => set(target, op, value, Span { start, end: to }),
        Simple::Step { target, up, start } => step(target, up, Span { start, end: to }),
    }
}

/// Takes what is done to a target at `at`: an assignment operator and a value, or a step.
fn operated(
    alloc: Global,
    cursor: &mut Cursor,
    target: Kept<Target>,
    at: Span,
) -> Result<(Simple, Span), ParseFault>
    ensures { (t : placed.Target) → target_of target ≡ keep_target t → IsSimpleTaken (goals.operated t at) cursor.old result cursor.new }
{
    match take_operator(cursor)? {
        Operator::Assign(op) => {
            let (value, last) = expr(alloc, cursor)?;
            Ok((
                Simple::Set {
                    target,
                    op,
                    value,
                    start: at.start,
                },
                last,
            ))
        }
        Operator::Step { up, at: last } => {
            stop(cursor)?;
            Ok((
                Simple::Step {
                    target,
                    up,
                    start: at.start,
                },
                last,
            ))
        }
    }
}

/// Takes the target of a step whose sign stands at `at`.
pub fn stepped(
    alloc: Global,
    cursor: &mut Cursor,
    up: bool,
    at: Span,
) -> Result<(Simple, Span), ParseFault>
    ensures { IsSimpleTaken (goals.step_first up at) cursor.old result cursor.new }
{
    let (name, name_at) = name(alloc, cursor)?;
    let (target, last) = target(alloc, cursor, name, name_at)?;
    Ok((
        Simple::Step {
            target,
            up,
            start: at.start,
        },
        last,
    ))
}

/// Takes an assignment or a step (C11 6.8.3).
pub fn take_simple(alloc: Global, cursor: &mut Cursor) -> Result<(Simple, Span), ParseFault>
    ensures { IsSimpleTaken goals.simple cursor.old result cursor.new }
{
    let token = cursor.first();
    match steps(terminal_of(token)) {
        Some(up) => {
            let at = token.span;
            cursor.advance();
            stepped(alloc, cursor, up, at)
        }
        None => {
            let (name, name_at) = name(alloc, cursor)?;
            let (target, at) = target(alloc, cursor, name, name_at)?;
            operated(alloc, cursor, target, at)
        }
    }
}
