//! A text's tokens, and what is read at one of them.

use c_lexer::lexer::lex;
use c_lexer::token::{LexFault, Token};
use c_tree::tree::{Directive, Expr};
use pragma_grammar::directive::read_directive;
use pragma_grammar::expression::{ends_text, read_expr};
use pragma_grammar::phrase::{ParseFault, Phrase};
use std::alloc::{AllocError, Global};
use std::process::Abort;
use std::test::Fail;

pub fn tokens_of(alloc: Global, text: &[u8]) -> Result<Vec<Token>, Fail> {
    match lex(alloc, text) {
        Ok(tokens) => Ok(tokens),
        Err(LexFault::At(_, _)) => Ok(Vec::new(alloc)),
        Err(LexFault::Memory) => Err(AllocError)?,
    }
}

pub fn expr_at(
    rt: &impl Abort,
    alloc: Global,
    tokens: &[Token],
    at: usize,
) -> Result<Phrase<Expr>, ParseFault> {
    assert!(rt; at < tokens.len());
    assert!(rt; ends_text(tokens));
    read_expr(alloc, tokens, at)
}

pub fn directive_at(
    rt: &impl Abort,
    alloc: Global,
    tokens: &[Token],
    at: usize,
) -> Result<Phrase<Directive>, ParseFault> {
    assert!(rt; at < tokens.len());
    assert!(rt; ends_text(tokens));
    read_directive(alloc, tokens, at)
}
