//! The reader of directives.

ghost use Rattle.std.specs.Prelude.{◌≡◌, ◌<◌, length, List};
ghost use Rattle.c_tree.specs.Bare.{Name};
ghost use Rattle.pragma_grammar.specs.Reading.{EndsText, IsDirectiveRead};
ghost use Rattle.pragma_grammar.specs.DirectiveMachine as machine;
ghost use Rattle.pragma_grammar.specs.DirectiveStands.{KeptOpen, asked_of, expr_of, marked, part_of, stands};
ghost use Rattle.pragma_grammar.specs.DirectiveTurns.{TakesTurn, IsLetterRead, kept_expr, next_of, phrase_of};

use crate::blame::blamed;
use crate::directive_arguments::{take, wants_letter};
use crate::directive_kept::Kept;
use crate::directive_reading::step;
use crate::directive_state::{Asked, Held, Mark, Move, Part, State, mark_of, word_of};
use crate::expression::read_expr;
use crate::phrase::{ParseFault, Phrase};
use c_lexer::token::Token;
use c_tree::tree::{Directive, Expr, Span};
use std::alloc::Global;

/// What is read at a token: an expression that is wanted there, or the token for itself.
#[derive(Drop)]
enum Turn {
    Letter { asked: Asked, at: Span, part: Part },
    Token(State),
}

/// What is read at a token of that mark.
fn turn_of(state: State, mark: Mark) -> Turn
    ensures { (x : Name) (place : Span) (k : List KeptOpen) → TakesTurn result (stands state k) (marked mark x place) k }
{
    match state {
        State::Wanting { asked, at, part } => want_turn(asked, at, part, mark),
        state => Turn::Token(state),
    }
}

/// What is read where an expression is wanted.
fn want_turn(asked: Asked, at: Span, part: Part, mark: Mark) -> Turn
    ensures { (x : Name) (place : Span) (k : List KeptOpen) → TakesTurn result (machine.wanting (asked_of asked) at (part_of part) k) (marked mark x place) k }
{
    if wants_letter(&asked, mark) {
        Turn::Letter { asked, at, part }
    } else {
        Turn::Token(State::Wanting { asked, at, part })
    }
}

/// What is kept of an expression, and the index of the token after it.
fn kept_phrase(phrase: Phrase<Expr>) -> (Kept<Expr>, usize)
    ensures { (expr_of result.0 ≡ kept_expr phrase) × (result.1 ≡ next_of phrase) }
{
    match phrase {
        Phrase::Whole { tree, height, next } => (Kept::Whole { tree, height }, next),
        Phrase::Deep { place, next } => (Kept::Deep(place), next),
    }
}

/// Reads the expression that is wanted: what has been read with it, and the index of the token after it.
fn read_letter(
    alloc: Global,
    asked: Asked,
    tokens: &[Token],
    next: usize,
) -> Result<(Held, usize), ParseFault>
    requires within { next < length tokens.now }
    requires ended { EndsText tokens.now }
    ensures { IsLetterRead tokens.now next (asked_of asked) result }
{
    let (expr, after) = kept_phrase(read_expr(alloc, tokens, next)?);
    Ok((take(asked, expr)?, after))
}

/// A directive as it was kept.
fn phrase(directive: Kept<Directive>, next: usize) -> Phrase<Directive>
    ensures { result ≡ phrase_of directive next }
{
    match directive {
        Kept::Whole { tree, height } => Phrase::Whole { tree, height, next },
        Kept::Deep(place) => Phrase::Deep { place, next },
    }
}

/// The whole directive (OpenMP 6.0, directive syntax) that starts at an index of a text's tokens with its name: the one
/// after which the end of its line stands. Where there is none, the fault is the token after the longest run of tokens
/// that begins some directive with the end of its line.
pub fn read_directive(
    alloc: Global,
    tokens: &[Token],
    at: usize,
) -> Result<Phrase<Directive>, ParseFault>
    requires within { at < length tokens.now }
    requires ended { EndsText tokens.now }
    ensures { IsDirectiveRead tokens.now at result }
{
    let mut stack = Vec::new(alloc);
    let mut state = State::Start;
    let mut next = at;
    loop {
        let token = &tokens[next];
        match turn_of(state, mark_of(token)) {
            Turn::Letter { asked, at, part } => {
                let (held, after) = read_letter(alloc, asked, tokens, next)?;
                state = State::Having { held, at, part };
                next = after;
            }
            Turn::Token(here) => match step(
                alloc,
                &mut stack,
                here,
                mark_of(token),
                word_of(token),
                token.span,
            )? {
                Move::Stuck => return Err(blamed(tokens, next)),
                Move::Ended(directive) => return Ok(phrase(directive, next)),
                Move::Leads(to) => {
                    state = to;
                    next += 1;
                }
            },
        }
    }
}
