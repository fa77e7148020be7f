//! A tree, or an answer, as text: each node with its span.

use super::show_directive::{show_clause, show_count, show_directive, show_item};
use super::show_expr::show_expr;
use c_tree::items::Items;
use c_tree::name::Name;
use c_tree::tree::{ApplyItem, Clause, Count, Directive, Expr, Span};
use pragma_grammar::phrase::{ParseFault, Phrase};
use std::alloc::{AllocError, Global};

/// What is still to be shown.
#[derive(Drop)]
pub enum Piece<'a> {
    Expr(&'a Expr),
    Directive(&'a Directive),
    Clause(&'a Clause),
    Count(&'a Count),
    Item(&'a ApplyItem),
    Text(&'static str),
    Span(Span),
}

/// A tree that is a piece.
pub trait Shown {
    fn piece(&self) -> Piece<'_>;
}

impl Shown for Expr {
    fn piece(&self) -> Piece<'_> {
        Piece::Expr(self)
    }
}

impl Shown for Directive {
    fn piece(&self) -> Piece<'_> {
        Piece::Directive(self)
    }
}

impl Shown for Clause {
    fn piece(&self) -> Piece<'_> {
        Piece::Clause(self)
    }
}

impl Shown for Count {
    fn piece(&self) -> Piece<'_> {
        Piece::Count(self)
    }
}

impl Shown for ApplyItem {
    fn piece(&self) -> Piece<'_> {
        Piece::Item(self)
    }
}

pub fn show_name(shown: &mut String, name: &Name) -> Result<(), AllocError> {
    for byte in name.bytes() {
        shown.push(char::from(*byte))?;
    }
    Ok(())
}

/// Begins what stands in parentheses, and puts off their end.
pub fn open(shown: &mut String, work: &mut Vec<Piece<'_>>) -> Result<(), AllocError> {
    work.push(Piece::Text(")"))?;
    shown.push('(')
}

pub fn put_off<'a>(work: &mut Vec<Piece<'a>>, part: Piece<'a>) -> Result<(), AllocError> {
    work.push(part)?;
    work.push(Piece::Text(" "))?;
    Ok(())
}

pub fn put_off_all<'a, T: Shown>(
    work: &mut Vec<Piece<'a>>,
    parts: &'a Items<T>,
) -> Result<(), AllocError> {
    for i in 0..parts.len() {
        if let Some(part) = parts.get(parts.len() - 1 - i) {
            put_off(work, part.piece())?;
        }
    }
    Ok(())
}

fn show_span(shown: &mut String, span: Span) -> Result<(), AllocError> {
    let start = span.start;
    let end = span.end;
    write!(shown, ":{start}:{end}")
}

fn show_piece<'a>(
    shown: &mut String,
    work: &mut Vec<Piece<'a>>,
    piece: Piece<'a>,
) -> Result<(), AllocError> {
    match piece {
        Piece::Expr(expr) => show_expr(shown, work, expr),
        Piece::Directive(directive) => show_directive(shown, work, directive),
        Piece::Clause(clause) => show_clause(shown, work, clause),
        Piece::Count(count) => show_count(shown, work, count),
        Piece::Item(item) => show_item(shown, work, item),
        Piece::Text(text) => shown.push_str(text),
        Piece::Span(span) => show_span(shown, span),
    }
}

fn show_tree(alloc: Global, shown: &mut String, tree: Piece<'_>) -> Result<(), AllocError> {
    let mut work = Vec::new(alloc);
    work.push(tree)?;
    for _ in 0..1_000 {
        match work.pop() {
            None => return Ok(()),
            Some(piece) => show_piece(shown, &mut work, piece)?,
        }
    }
    Ok(())
}

fn show_whole(alloc: Global, tree: Piece<'_>, next: usize) -> Result<String, AllocError> {
    let mut shown = String::new(alloc);
    show_tree(alloc, &mut shown, tree)?;
    write!(shown, " next {next}")?;
    Ok(shown)
}

pub fn show_fault(alloc: Global, fault: ParseFault) -> Result<String, AllocError> {
    match fault {
        ParseFault::At(kind, place) => format!(in alloc; "{kind:?} {place}"),
        ParseFault::Memory => Err(AllocError),
    }
}

pub fn show<T: Shown + Drop>(
    alloc: Global,
    answer: Result<Phrase<T>, ParseFault>,
) -> Result<String, AllocError> {
    match answer {
        Ok(Phrase::Whole { tree, next, .. }) => show_whole(alloc, tree.piece(), next),
        Ok(Phrase::Deep { place, next }) => format!(in alloc; "deep {place} next {next}"),
        Err(fault) => show_fault(alloc, fault),
    }
}
