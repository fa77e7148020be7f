//! The program that carries out the one of a text.

ghost use Rattle.std.specs.Prelude.{◌<◌, ◌^◌, ℕ, List, length, IfOk, IfErr, OnOk, MatchResult};
ghost use Rattle.c_tree.specs.BareOf.{bare_program};
ghost use Rattle.c_lexer.specs.Cut.{Cut, IsFault};
ghost use Rattle.translator.specs.Answers.{IsTranslatedTree, IsAccepted, IsRefused, TokensRefused};

use crate::admission::admit_tokens;
use crate::carrying_out::carry_out;
use crate::refusal::{Refusal, lexical};
use c_lexer::lexer::lex;
use c_lexer::token::{LexFault, Token};
use c_tree::checked::Checked;
use std::alloc::Global;

/// The program that carries out the one which the tokens of a text spell.
///
/// # Errors
///
/// `Parse`, `Names`, `Loops` and `NotBuilt` exactly where they are the first that applies. `Memory` where there is no
/// memory for the answer.
pub fn tokens_tree(alloc: Global, tokens: &[Token]) -> Result<Checked, Refusal>
    requires { (text : List ℕ) × Cut text tokens.now }
    ensures tree { (text : List ℕ) → Cut text tokens.now → IfOk result (λ checked. IsTranslatedTree text (bare_program checked)) }
    ensures accepted { (text : List ℕ) → Cut text tokens.now → OnOk result (IsAccepted text) }
    ensures refused { IfErr result (λ refusal. TokensRefused refusal tokens.now) }
{
    let admitted = admit_tokens(alloc, tokens)?;
    carry_out(alloc, admitted)
}

/// Likewise for a text that was cut into tokens, or has a lexical fault.
///
/// # Errors
///
/// `Lex` exactly where a lexical fault is the first that applies; the others are those of [`tokens_tree`].
pub fn cut_tree(alloc: Global, cut: Result<Vec<Token>, LexFault>) -> Result<Checked, Refusal>
    requires { (text : List ℕ) × MatchResult cut (λ tokens. Cut text tokens.items) (IsFault text) }
    ensures tree { (text : List ℕ) → MatchResult cut (λ tokens. Cut text tokens.items) (IsFault text) → IfOk result (λ checked. IsTranslatedTree text (bare_program checked)) }
    ensures accepted { (text : List ℕ) → MatchResult cut (λ tokens. Cut text tokens.items) (IsFault text) → OnOk result (IsAccepted text) }
    ensures refused { (text : List ℕ) → MatchResult cut (λ tokens. Cut text tokens.items) (IsFault text) → IfErr result (λ refusal. IsRefused refusal text) }
{
    match cut {
        Ok(tokens) => tokens_tree(alloc, tokens.as_slice()),
        Err(fault) => Err(lexical(fault)),
    }
}

/// Likewise for a text, with the errors of [`cut_tree`].
pub fn translate_tree(alloc: Global, text: &[u8]) -> Result<Checked, Refusal>
    requires { length text.now < 2 ^ 63 }
    ensures tree { IfOk result (λ checked. IsTranslatedTree text.now (bare_program checked)) }
    ensures accepted { OnOk result (IsAccepted text.now) }
    ensures refused { IfErr result (λ refusal. IsRefused refusal text.now) }
{
    cut_tree(alloc, lex(alloc, text))
}
