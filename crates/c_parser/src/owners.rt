//! The statements that are open while their bodies are read.

use c_tree::tree::{Directive, Expr, ForHead, Span, Stmt, StmtList};
use pragma_grammar::directive_kept::Kept;

/// A statement whose body is read, with what was read before it. Its first token stands at `at`.
#[derive(Drop)]
pub enum Owner {
    IfThen {
        test: Kept<Expr>,
        at: Span,
    },
    IfElse {
        test: Kept<Expr>,
        yes: Kept<StmtList>,
        at: Span,
    },
    While {
        test: Kept<Expr>,
        at: Span,
    },
    Do {
        at: Span,
    },
    For {
        head: Kept<ForHead>,
        at: Span,
    },
    Omp {
        directive: Kept<Directive>,
        at: Span,
    },
}

/// A list in braces, whose `{` stands at `at`, with its statements so far. That of `main` may end with `return 0;`.
#[derive(Drop)]
pub struct OpenList {
    pub ends_main: bool,
    pub stmts: Kept<StmtList>,
    pub at: Span,
}

/// What is open while something in it is read.
#[derive(Drop)]
pub enum Frame {
    List(OpenList),
    Owner(Owner),
}

/// A statement that was taken: whole, with its last token's place, or through what stands before its body.
#[derive(Drop)]
pub enum Begun {
    Whole { stmt: Kept<Stmt>, last: Span },
    Opens(Owner),
}
