//! The automaton that reads expressions: what a token does to the open phrases, which stand in one list.

ghost use Rattle.std.specs.Prelude.{◌≡◌, ◌<◌, ◌∷◌, [], length, drop, suc, List, IfOk, OnOk};
ghost use Rattle.pragma_grammar.specs.Symbols.{symbol};
ghost use Rattle.pragma_grammar.specs.Terminals.{terminal_of};
ghost use Rattle.pragma_grammar.specs.declared.terminal.Terminal.{Terminal};
ghost use Rattle.pragma_grammar.specs.Reading.{EndsText};
ghost use Rattle.pragma_grammar.specs.Machine as machine;
ghost use Rattle.pragma_grammar.specs.Kept.{Kept, KeptList, keeps, keep_subscript};
ghost use Rattle.pragma_grammar.specs.Stands.{kept_of, kept_list_of, KeptOpen, phrase, phrases, stands, asks, closes, settle, begin, step, came, turned, begun, Falls, outcome, read_as, Within};

use crate::open_phrase::{Infix, Move, Open, State, Turn};
use crate::operand::{
    Operand, Subscripts, binary, choice, conversion, element, no_subscripts, spanning, subscript,
    unary,
};
use crate::operators::{
    begun_type, goes_on, is_colon, is_square_close, is_square_open, row_of, unary_of,
};
use crate::terminal::{Terminal, constant, spelling, terminal_of};
use c_lexer::token::{Punct, Token};
use c_lexer::words::Keyword;
use c_tree::name::Name;
use c_tree::tree::{Expr, Span, Ty};
use std::alloc::{AllocError, Global};

/// How a reading ends: with the whole expression and the index of the token after it, or at the index of a fault.
#[derive(Drop)]
pub enum Reading {
    Whole {
        operand: Operand,
        at: Span,
        next: usize,
    },
    Fault(usize),
}

/// The row that the innermost open phrase asks for.
fn asks(stack: &Vec<Open>) -> u8
    ensures { result ≡ asks (phrases stack.now.items) }
{
    match stack.last() {
        None => 0,
        Some(innermost) => asked_by(innermost),
    }
}

fn asked_by(innermost: &Open) -> u8
    ensures { result ≡ asks (phrase innermost.now ∷ []) }
{
    match innermost {
        Open::Sign { .. } => 7,
        Open::Casts { .. } => 7,
        Open::Left { op, .. } => row_of(*op) + 1,
        Open::Round { .. } => 0,
        Open::Square { .. } => 0,
        Open::Test { .. } => 0,
        Open::Other { .. } => 0,
    }
}

/// Opens a phrase, for an operand.
fn open_phrase(stack: &mut Vec<Open>, opened: Open) -> Result<(), AllocError>
    ensures { OnOk result (phrases stack.new.items ≡ phrase opened ∷ phrases stack.old.items) }
{
    stack.push(opened)?;
    Ok(())
}

/// One turn: the token goes on with the operand, or ends the innermost phrase.
fn take_turn(
    alloc: Global,
    stack: &mut Vec<Open>,
    operand: Operand,
    at: Span,
    row: u8,
    token: &Token,
) -> Result<Turn, AllocError>
    ensures turned { IfOk result (λ t. turned t (phrases stack.new.items) (symbol token.now) ≡ settle row (kept_of operand) at (phrases stack.old.items) (symbol token.now)) }
    ensures falls { IfOk result (λ t. Falls t (length stack.new.items) (length stack.old.items)) }
{
    match goes_on(asks(stack), row, terminal_of(token)) {
        Some(operator) => {
            open_phrase(stack, after_operator(operand, at, operator))?;
            Ok(Turn::Done(Move::Leads(State::Want)))
        }
        None => close(alloc, stack, operand, at, token),
    }
}

/// The phrase that an operator opens after an operand.
fn after_operator(operand: Operand, at: Span, operator: Infix) -> Open
    ensures { phrase result ≡ machine.opens Kept KeptList (kept_of operand) at operator }
{
    match operator {
        Infix::Between(op) => Open::Left {
            left: operand,
            at,
            op,
        },
        Infix::Choice => Open::Test { test: operand, at },
    }
}

/// The token ends the innermost phrase.
fn close(
    alloc: Global,
    stack: &mut Vec<Open>,
    operand: Operand,
    at: Span,
    token: &Token,
) -> Result<Turn, AllocError>
    ensures turned { IfOk result (λ t. turned t (phrases stack.new.items) (symbol token.now) ≡ closes (phrases stack.old.items) (kept_of operand) at (symbol token.now)) }
    ensures falls { IfOk result (λ t. Falls t (length stack.new.items) (length stack.old.items)) }
{
    match stack.pop() {
        None => Ok(Turn::Done(end_at(operand, at, token))),
        Some(innermost) => close_phrase(alloc, stack, innermost, operand, at, token),
    }
}

/// The token after the whole expression; a subscript can only follow a name.
fn end_at(operand: Operand, at: Span, token: &Token) -> Move
    ensures { (k : List KeptOpen) → came result k ≡ machine.ends_at Kept KeptList (kept_of operand) at (symbol token.now) }
{
    if is_square_open(terminal_of(token)) {
        Move::Stuck
    } else {
        Move::Ended { operand, at }
    }
}

/// The token ends a phrase, which was the innermost one.
fn close_phrase(
    alloc: Global,
    stack: &mut Vec<Open>,
    innermost: Open,
    operand: Operand,
    at: Span,
    token: &Token,
) -> Result<Turn, AllocError>
    ensures turned { IfOk result (λ t. turned t (phrases stack.new.items) (symbol token.now) ≡ closes (phrase innermost ∷ phrases stack.old.items) (kept_of operand) at (symbol token.now)) }
    ensures falls { IfOk result (λ t. Falls t (length stack.new.items) (suc (length stack.old.items))) }
{
    match innermost {
        Open::Sign { at: first, op } => {
            let at = spanning(first, at);
            Ok(Turn::Again {
                operand: unary(alloc, op, operand, at)?,
                at,
                row: 7,
            })
        }
        Open::Casts { at: first, ty } => {
            let at = spanning(first, at);
            Ok(Turn::Again {
                operand: conversion(alloc, ty, operand, at)?,
                at,
                row: 7,
            })
        }
        Open::Left {
            left,
            at: first,
            op,
        } => {
            let at = spanning(first, at);
            Ok(Turn::Again {
                operand: binary(alloc, op, left, operand, at)?,
                at,
                row: row_of(op),
            })
        }
        Open::Other {
            test,
            at: first,
            yes,
        } => {
            let at = spanning(first, at);
            Ok(Turn::Again {
                operand: choice(alloc, test, yes, operand, at)?,
                at,
                row: 0,
            })
        }
        Open::Round { at: first } => Ok(Turn::Done(close_round(operand, first, token))),
        Open::Square {
            name,
            at: first,
            subscripts,
        } => { Ok(Turn::Done(close_square(name, first, subscripts, operand, token)?)) }
        Open::Test { test, at: first } => Ok(Turn::Done(close_test(
            stack, test, first, operand, token,
        )?)),
    }
}

fn close_round(operand: Operand, first: Span, token: &Token) -> Move
    ensures { (k : List KeptOpen) → came result k ≡ machine.expect_round Kept KeptList (kept_of operand) first k (symbol token.now) }
{
    match terminal_of(token) {
        Terminal::Punct(Punct::RoundClose) => Move::Leads(State::Have {
            operand,
            at: spanning(first, token.span),
        }),
        _ => Move::Stuck,
    }
}

fn close_square(
    name: Name,
    first: Span,
    subscripts: Subscripts,
    operand: Operand,
    token: &Token,
) -> Result<Move, AllocError>
    ensures { IfOk result (λ m. (k : List KeptOpen) → came m k ≡ machine.expect_square Kept KeptList name first (keep_subscript (kept_list_of subscripts) (kept_of operand)) k (symbol token.now)) }
{
    if is_square_close(terminal_of(token)) {
        Ok(Move::Leads(State::Access {
            name,
            at: first,
            subscripts: subscript(subscripts, operand)?,
            last: token.span,
        }))
    } else {
        Ok(Move::Stuck)
    }
}

fn close_test(
    stack: &mut Vec<Open>,
    test: Operand,
    first: Span,
    operand: Operand,
    token: &Token,
) -> Result<Move, AllocError>
    ensures { IfOk result (λ m. came m (phrases stack.new.items) ≡ machine.expect_colon Kept KeptList (kept_of test) first (kept_of operand) (phrases stack.old.items) (symbol token.now)) }
{
    if is_colon(terminal_of(token)) {
        open_phrase(
            stack,
            Open::Other {
                test,
                at: first,
                yes: operand,
            },
        )?;
        Ok(Move::Leads(State::Want))
    } else {
        Ok(Move::Stuck)
    }
}

/// Ends phrases until the token goes on with an operand, is taken, or stands after the whole.
fn settle(
    alloc: Global,
    stack: &mut Vec<Open>,
    operand: Operand,
    at: Span,
    row: u8,
    token: &Token,
) -> Result<Move, AllocError>
    ensures { IfOk result (λ m. came m (phrases stack.new.items) ≡ settle row (kept_of operand) at (phrases stack.old.items) (symbol token.now)) }
{
    let mut operand = operand;
    let mut at = at;
    let mut row = row;
    loop {
        match take_turn(alloc, stack, operand, at, row, token)? {
            Turn::Done(done) => return Ok(done),
            Turn::Again {
                operand: whole,
                at: its_place,
                row: its_row,
            } => {
                operand = whole;
                at = its_place;
                row = its_row;
            }
        }
    }
}

/// The first token of a phrase.
fn begin(alloc: Global, stack: &mut Vec<Open>, token: &Token) -> Result<Move, AllocError>
    ensures { IfOk result (λ m. came m (phrases stack.new.items) ≡ begin (phrases stack.old.items) (symbol token.now)) }
{
    match terminal_of(token) {
        Terminal::Number => Ok(Move::Leads(number(token))),
        Terminal::Name => Ok(Move::Leads(State::Access {
            name: Name::new(alloc, spelling(token))?,
            at: token.span,
            subscripts: no_subscripts(alloc),
            last: token.span,
        })),
        Terminal::Punct(Punct::RoundOpen) => Ok(Move::Leads(State::Opened { at: token.span })),
        terminal => match unary_of(terminal) {
            Some(op) => {
                open_phrase(stack, Open::Sign { at: token.span, op })?;
                Ok(Move::Leads(State::Want))
            }
            None => Ok(Move::Stuck),
        },
    }
}

/// What stands after a number.
fn number(token: &Token) -> State
    requires { terminal_of (symbol token.now) ≡ Terminal.Number }
    ensures { (k : List KeptOpen) → machine.leads (stands result k) ≡ begin k (symbol token.now) }
{
    let (value, ty, _) = constant(token);
    State::Have {
        operand: Operand::Tree {
            tree: Expr::Num {
                value,
                ty,
                span: token.span,
            },
            height: 1,
        },
        at: token.span,
    }
}

/// The token after `(`, which begins a type's name or a phrase.
fn begin_round(
    alloc: Global,
    stack: &mut Vec<Open>,
    first: Span,
    token: &Token,
) -> Result<Move, AllocError>
    ensures { IfOk result (λ m. came m (phrases stack.new.items) ≡ machine.begin_round Kept KeptList keeps first (phrases stack.old.items) (symbol token.now)) }
{
    match begun_type(terminal_of(token)) {
        Some(ty) => Ok(Move::Leads(after_type_word(first, ty))),
        None => {
            open_phrase(stack, Open::Round { at: first })?;
            begin(alloc, stack, token)
        }
    }
}

/// What stands after the first word of a type's name.
fn after_type_word(first: Span, ty: Ty) -> State
    ensures { (k : List KeptOpen) → stands result k ≡ begun first ty k }
{
    match ty {
        Ty::Int => State::Typed { at: first, ty },
        Ty::Long => State::HalfLong { at: first },
    }
}

/// The token after a type's name.
fn end_type(stack: &mut Vec<Open>, first: Span, ty: Ty, token: &Token) -> Result<Move, AllocError>
    ensures { IfOk result (λ m. came m (phrases stack.new.items) ≡ machine.end_type Kept KeptList first ty (phrases stack.old.items) (symbol token.now)) }
{
    match terminal_of(token) {
        Terminal::Punct(Punct::RoundClose) => {
            open_phrase(stack, Open::Casts { at: first, ty })?;
            Ok(Move::Leads(State::Want))
        }
        _ => Ok(Move::Stuck),
    }
}

/// The token after `long`.
fn more_long(first: Span, token: &Token) -> Move
    ensures { (k : List KeptOpen) → came result k ≡ machine.more_long Kept KeptList first k (symbol token.now) }
{
    match terminal_of(token) {
        Terminal::Keyword(Keyword::Long) => Move::Leads(State::Long { at: first }),
        _ => Move::Stuck,
    }
}

/// The token after `long long`.
fn end_long(stack: &mut Vec<Open>, first: Span, token: &Token) -> Result<Move, AllocError>
    ensures { IfOk result (λ m. came m (phrases stack.new.items) ≡ machine.end_long Kept KeptList first (phrases stack.old.items) (symbol token.now)) }
{
    match terminal_of(token) {
        Terminal::Keyword(Keyword::Int) => Ok(Move::Leads(State::Typed {
            at: first,
            ty: Ty::Long,
        })),
        _ => end_type(stack, first, Ty::Long, token),
    }
}

/// The token after a name or a subscript.
fn subscripted(
    alloc: Global,
    stack: &mut Vec<Open>,
    name: Name,
    first: Span,
    subscripts: Subscripts,
    last: Span,
    token: &Token,
) -> Result<Move, AllocError>
    ensures { IfOk result (λ m. came m (phrases stack.new.items) ≡ machine.subscripted Kept KeptList keeps name first (kept_list_of subscripts) last (phrases stack.old.items) (symbol token.now)) }
{
    if is_square_open(terminal_of(token)) {
        open_phrase(
            stack,
            Open::Square {
                name,
                at: first,
                subscripts,
            },
        )?;
        Ok(Move::Leads(State::Want))
    } else {
        let at = spanning(first, last);
        settle(alloc, stack, element(name, subscripts, at), at, 8, token)
    }
}

/// What a token does.
fn step(
    alloc: Global,
    stack: &mut Vec<Open>,
    state: State,
    token: &Token,
) -> Result<Move, AllocError>
    ensures { IfOk result (λ m. came m (phrases stack.new.items) ≡ step (stands state (phrases stack.old.items)) (symbol token.now)) }
{
    match state {
        State::Want => begin(alloc, stack, token),
        State::Opened { at } => begin_round(alloc, stack, at, token),
        State::HalfLong { at } => Ok(more_long(at, token)),
        State::Long { at } => end_long(stack, at, token),
        State::Typed { at, ty } => end_type(stack, at, ty, token),
        State::Access {
            name,
            at,
            subscripts,
            last,
        } => subscripted(alloc, stack, name, at, subscripts, last, token),
        State::Have { operand, at } => settle(alloc, stack, operand, at, 8, token),
    }
}

/// The expression that starts at a token, as far as it goes.
pub fn run(alloc: Global, tokens: &[Token], at: usize) -> Result<Reading, AllocError>
    requires within { at < length tokens.now }
    requires ended { EndsText tokens.now }
    ensures outcome { IfOk result (λ r. read_as r (length tokens.now) ≡ outcome (drop at tokens.now) (machine.want [])) }
    ensures within { IfOk result (λ r. Within r at (length tokens.now)) }
{
    let mut stack = Vec::new(alloc);
    let mut state = State::Want;
    for i in at..tokens.len() {
        match step(alloc, &mut stack, state, &tokens[i])? {
            Move::Stuck => return Ok(Reading::Fault(i)),
            Move::Ended { operand, at } => {
                return Ok(Reading::Whole {
                    operand,
                    at,
                    next: i,
                });
            }
            Move::Leads(next) => state = next,
        }
    }
    unreachable!()
}
