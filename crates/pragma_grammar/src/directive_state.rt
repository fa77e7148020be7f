//! The open `apply` clauses of a directive that is being read, and what stands between two tokens.

ghost use Rattle.std.specs.Prelude.{◌≡◌};
ghost use Rattle.pragma_grammar.specs.Symbols.{symbol};
ghost use Rattle.pragma_grammar.specs.DirectiveStands.{mark_of, word_of, mark_of_word};

use crate::directive_kept::Kept;
use c_lexer::token::{Punct, Token, TokenKind};
use c_lexer::words::{Keyword, keyword_of};
use c_tree::name::Name;
use c_tree::tree::{ApplyList, ClauseList, CountList, Directive, Expr, ExprList, Kind, Span};

/// What a token is to a directive outside its expressions.
#[derive(Clone, Copy, Debug, PartialEq, Eq)]
pub enum Mark {
    Name,
    Open,
    Close,
    Comma,
    Colon,
    Fill,
    LineEnd,
    Other,
}

pub fn mark_of(token: &Token) -> Mark
    ensures { result ≡ mark_of (symbol token.now) }
{
    match &token.kind {
        TokenKind::Word(word) => mark_of_word(word.bytes()),
        TokenKind::Punct(punct) => match punct {
            Punct::RoundOpen => Mark::Open,
            Punct::RoundClose => Mark::Close,
            Punct::Comma => Mark::Comma,
            Punct::Colon => Mark::Colon,
            _ => Mark::Other,
        },
        TokenKind::LineEnd => Mark::LineEnd,
        TokenKind::Number { .. } => Mark::Other,
        TokenKind::Hash => Mark::Other,
        TokenKind::End => Mark::Other,
    }
}

fn mark_of_word(word: &[u8]) -> Mark
    ensures { result ≡ mark_of_word word.now }
{
    match keyword_of(word) {
        None => Mark::Name,
        Some(Keyword::OmpFill) => Mark::Fill,
        Some(_) => Mark::Other,
    }
}

/// The bytes of a word; of any other token none.
pub fn word_of(token: &Token) -> &[u8]
    ensures { result.now ≡ word_of token.now }
{
    match &token.kind {
        TokenKind::Word(word) => word.bytes(),
        _ => b"",
    }
}

/// A directive whose name stands at `at`, with its clauses so far.
#[derive(Drop)]
pub struct Part {
    pub kind: Kind,
    pub at: Span,
    pub clauses: Kept<ClauseList>,
}

/// An `apply` clause of a directive, whose word stands at `at`, with its items so far.
#[derive(Drop)]
pub struct Open {
    pub part: Part,
    pub at: Span,
    pub modifier: Option<Name>,
    pub indices: Kept<ExprList>,
    pub items: Kept<ApplyList>,
}

/// What a list of expressions is read for: a clause, or the indices of a modifier.
#[derive(Drop)]
pub enum Lists {
    Sizes,
    Permutation,
    Indices(Name),
}

/// What an expression is wanted for, with what was read before it.
#[derive(Drop)]
pub enum Asked {
    Element { list: Lists, before: Kept<ExprList> },
    Count { before: Kept<CountList> },
    RangeFirst,
    RangeCount { first: Kept<Expr> },
    Factor,
}

/// What has been read of a clause when an expression in it is whole.
#[derive(Drop)]
pub enum Held {
    Elements {
        list: Lists,
        exprs: Kept<ExprList>,
    },
    Counted {
        counts: Kept<CountList>,
    },
    First {
        first: Kept<Expr>,
    },
    Range {
        first: Kept<Expr>,
        count: Kept<Expr>,
    },
    Factored {
        factor: Kept<Expr>,
    },
}

/// What stands between two tokens. Where a clause is being read, its word stands at `at`.
#[derive(Drop)]
pub enum State {
    /// The directive's name is wanted.
    Start,

    /// The directive's name, or a clause at `last`.
    Clauses {
        part: Part,
        last: Span,
    },

    /// A comma in the outermost directive: a clause is wanted.
    Comma {
        part: Part,
    },

    /// The word of a clause, before its parenthesis.
    Opening {
        asked: Asked,
        at: Span,
        part: Part,
    },
    Partial {
        at: Span,
        part: Part,
    },
    ApplyWord {
        at: Span,
        part: Part,
    },

    /// An expression is wanted, or has been read.
    Wanting {
        asked: Asked,
        at: Span,
        part: Part,
    },
    Having {
        held: Held,
        at: Span,
        part: Part,
    },

    /// The indices of a modifier, before its colon.
    Indexed {
        modifier: Name,
        indices: Kept<ExprList>,
        at: Span,
        part: Part,
    },

    /// `apply (`, and the name after it, which is a modifier or an item.
    Applying {
        at: Span,
        part: Part,
    },
    FirstName {
        name: Name,
        name_at: Span,
        at: Span,
        part: Part,
    },

    /// An item is wanted, or `nothing` was read.
    Item {
        outer: Open,
    },
    ItemRead {
        outer: Open,
    },
}

/// What a token does: it fits nowhere, it leads to a state, or it comes after the whole directive and isn't taken.
#[derive(Drop)]
pub enum Move {
    Stuck,
    Leads(State),
    Ended(Kept<Directive>),
}
