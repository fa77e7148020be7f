//! A loop: what it tests, and what one turn of it does.

use resolved_names::tree::{Expr, Stmt, StmtList};

/// A loop. A `for` counts its turns, and each of them ends with the head's last part.
#[derive(Clone, Copy, Debug)]
pub struct Loop<'p> {
    pub test: Option<&'p Expr>,
    pub body: &'p StmtList,
    pub counts: bool,
    pub next: Option<&'p Stmt>,
}
