//! Translates a text.

ghost use Rattle.std.specs.Prelude.{ℕ, ◌<◌, ◌^◌, List, IfOk, IfErr, OnOk, MatchResult, length};
ghost use Rattle.c_lexer.specs.Cut.{Cut, IsFault};
ghost use Rattle.translator.specs.Answers.{IsRefused, IsTranslation, TokensRefused, IsAccepted};

use crate::refusal::{Refusal, lexical};
use crate::tree::tokens_tree;
use c_lexer::lexer::lex;
use c_lexer::token::{LexFault, Token};
use c_printer::laws::reads_back;
use c_printer::printer::print;
use std::alloc::Global;

/// The translation of a text with these tokens: the printed form of its program, in which the directives are carried out.
///
/// # Errors
///
/// `Parse`, `Names`, `Loops` and `NotBuilt` exactly where they are the first that applies. `Memory` where there is no
/// memory for the answer.
pub fn translate_tokens(alloc: Global, tokens: &[Token]) -> Result<Vec<u8>, Refusal>
    requires { (text : List ℕ) × Cut text tokens.now }
    ensures written { (text : List ℕ) → Cut text tokens.now → IfOk result (λ written. IsTranslation text written.items) }
    ensures accepted { (text : List ℕ) → Cut text tokens.now → OnOk result (IsAccepted text) }
    ensures refused { IfErr result (λ refusal. TokensRefused refusal tokens.now) }
{
    reads_back();
    let tree = tokens_tree(alloc, tokens)?;
    Ok(print(alloc, tree.program())?)
}

/// The translation of a text that was cut into tokens, or has a lexical fault.
///
/// # Errors
///
/// `Lex` exactly where a lexical fault is the first that applies; the others are those of [`translate_tokens`].
pub fn translate_cut(alloc: Global, cut: Result<Vec<Token>, LexFault>) -> Result<Vec<u8>, Refusal>
    requires { (text : List ℕ) × MatchResult cut (λ tokens. Cut text tokens.items) (IsFault text) }
    ensures written { (text : List ℕ) → MatchResult cut (λ tokens. Cut text tokens.items) (IsFault text) → IfOk result (λ written. IsTranslation text written.items) }
    ensures accepted { (text : List ℕ) → MatchResult cut (λ tokens. Cut text tokens.items) (IsFault text) → OnOk result (IsAccepted text) }
    ensures refused { (text : List ℕ) → MatchResult cut (λ tokens. Cut text tokens.items) (IsFault text) → IfErr result (λ refusal. IsRefused refusal text) }
{
    match cut {
        Ok(tokens) => translate_tokens(alloc, tokens.as_slice()),
        Err(fault) => Err(lexical(fault)),
    }
}

/// The translation of a text, with the errors of [`translate_cut`].
pub fn translate(alloc: Global, text: &[u8]) -> Result<Vec<u8>, Refusal>
    requires { length text.now < 2 ^ 63 }
    ensures written { IfOk result (λ written. IsTranslation text.now written.items) }
    ensures accepted { OnOk result (IsAccepted text.now) }
    ensures refused { IfErr result (λ refusal. IsRefused refusal text.now) }
{
    translate_cut(alloc, lex(alloc, text))
}
