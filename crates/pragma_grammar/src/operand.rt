//! What is kept of an expression while it is read: its tree with its height, or the place where it is too deep.

ghost use Rattle.std.specs.Prelude.{◌≡◌, ◌+◌, max, IfOk};
ghost use Rattle.c_tree.specs.Placed;
ghost use Rattle.c_tree.specs.PlacedOf.{placed_expr, placed_exprs};
ghost use Rattle.pragma_grammar.specs.Kept.{kept, node, keep_un, keep_bin, keep_cond, keep_cast, keep_element, keep_subscript, kept_list};
ghost use Rattle.pragma_grammar.specs.Stands.{kept_of, kept_list_of};
ghost use Rattle.pragma_grammar.specs.Symbols.{spanning};

use c_tree::boxed::Boxed;
use c_tree::items::Items;
use c_tree::name::Name;
use c_tree::tree::{BinOp, Expr, ExprList, Span, Ty, UnOp};
use std::alloc::{AllocError, Global};

/// The greatest height of a tree that is kept.
pub const MOST: u64 = 256;

/// A tree of a height of at most 256, or the place of the first subtree above it.
#[derive(Drop)]
pub enum Operand {
    Tree { tree: Expr, height: u64 },
    Deep(u64),
}

/// Subscripts, with the greatest of their heights, or the place of the first subtree that is too deep.
#[derive(Drop)]
pub enum Subscripts {
    Trees { trees: ExprList, height: u64 },
    Deep(u64),
}

/// From the first token to the last one.
pub fn spanning(first: Span, last: Span) -> Span
    ensures { result ≡ spanning first last }
{
    Span {
        start: first.start,
        end: last.end,
    }
}

/// An operand of a node whose parts have the greatest height `below`.
fn node(tree: Expr, below: u64, span: Span) -> Operand
    ensures { kept_of result ≡ node (1 + below) (placed_expr tree) span }
{
    if below >= MOST {
        Operand::Deep(span.start)
    } else {
        Operand::Tree {
            tree,
            height: below + 1,
        }
    }
}

/// The greater of two heights.
pub fn greater(a: u64, b: u64) -> u64
    ensures { result ≡ max a b }
{
    if a < b { b } else { a }
}

pub fn unary(alloc: Global, op: UnOp, operand: Operand, span: Span) -> Result<Operand, AllocError>
    ensures { IfOk result (λ r. kept_of r ≡ keep_un op (kept_of operand) span) }
{
    match operand {
        Operand::Deep(inner) => Ok(Operand::Deep(inner)),
        Operand::Tree { tree, height } => {
            let of = Boxed::new(alloc, tree)?;
            Ok(node(Expr::Un { op, of, span }, height, span))
        }
    }
}

pub fn conversion(
    alloc: Global,
    ty: Ty,
    operand: Operand,
    span: Span,
) -> Result<Operand, AllocError>
    ensures { IfOk result (λ r. kept_of r ≡ keep_cast ty (kept_of operand) span) }
{
    match operand {
        Operand::Deep(place) => Ok(Operand::Deep(place)),
        Operand::Tree { tree, height } => {
            let of = Boxed::new(alloc, tree)?;
            Ok(node(Expr::Cast { ty, of, span }, height, span))
        }
    }
}

pub fn binary(
    alloc: Global,
    op: BinOp,
    left: Operand,
    right: Operand,
    span: Span,
) -> Result<Operand, AllocError>
    ensures { IfOk result (λ r. kept_of r ≡ keep_bin op (kept_of left) (kept_of right) span) }
{
    match left {
        Operand::Deep(place) => Ok(Operand::Deep(place)),
        Operand::Tree { tree, height } => binary_after(alloc, op, tree, height, right, span),
    }
}

fn binary_after(
    alloc: Global,
    op: BinOp,
    left: Expr,
    left_height: u64,
    right: Operand,
    span: Span,
) -> Result<Operand, AllocError>
    ensures { IfOk result (λ r. kept_of r ≡ keep_bin op (kept left_height (placed_expr left)) (kept_of right) span) }
{
    match right {
        Operand::Deep(place) => Ok(Operand::Deep(place)),
        Operand::Tree { tree, height } => {
            let left = Boxed::new(alloc, left)?;
            let right = Boxed::new(alloc, tree)?;
            let below = greater(left_height, height);
            Ok(node(
                Expr::Bin {
                    op,
                    left,
                    right,
                    span,
                },
                below,
                span,
            ))
        }
    }
}

pub fn choice(
    alloc: Global,
    test: Operand,
    yes: Operand,
    no: Operand,
    span: Span,
) -> Result<Operand, AllocError>
    ensures { IfOk result (λ r. kept_of r ≡ keep_cond (kept_of test) (kept_of yes) (kept_of no) span) }
{
    match test {
        Operand::Deep(place) => Ok(Operand::Deep(place)),
        Operand::Tree { tree, height } => choice_after(alloc, tree, height, yes, no, span),
    }
}

fn choice_after(
    alloc: Global,
    test: Expr,
    test_height: u64,
    yes: Operand,
    no: Operand,
    span: Span,
) -> Result<Operand, AllocError>
    ensures { IfOk result (λ r. kept_of r ≡ keep_cond (kept test_height (placed_expr test)) (kept_of yes) (kept_of no) span) }
{
    match yes {
        Operand::Deep(place) => Ok(Operand::Deep(place)),
        Operand::Tree { tree, height } => choice_last(
            alloc,
            test,
            test_height,
            tree,
            height,
            no,
            span,
        ),
    }
}

fn choice_last(
    alloc: Global,
    test: Expr,
    test_height: u64,
    yes: Expr,
    yes_height: u64,
    no: Operand,
    span: Span,
) -> Result<Operand, AllocError>
    ensures { IfOk result (λ r. kept_of r ≡ keep_cond (kept test_height (placed_expr test)) (kept yes_height (placed_expr yes)) (kept_of no) span) }
{
    match no {
        Operand::Deep(place) => Ok(Operand::Deep(place)),
        Operand::Tree { tree, height } => {
            let test = Boxed::new(alloc, test)?;
            let yes = Boxed::new(alloc, yes)?;
            let no = Boxed::new(alloc, tree)?;
            let below = greater(test_height, greater(yes_height, height));
            Ok(node(
                Expr::Cond {
                    test,
                    yes,
                    no,
                    span,
                },
                below,
                span,
            ))
        }
    }
}

pub fn no_subscripts(alloc: Global) -> Subscripts
    ensures { kept_list_of result ≡ kept_list 0 Placed.no_exprs }
{
    Subscripts::Trees {
        trees: Items::new(alloc),
        height: 0,
    }
}

/// The subscripts with one more.
pub fn subscript(subscripts: Subscripts, last: Operand) -> Result<Subscripts, AllocError>
    ensures { IfOk result (λ r. kept_list_of r ≡ keep_subscript (kept_list_of subscripts) (kept_of last)) }
{
    match subscripts {
        Subscripts::Deep(place) => Ok(Subscripts::Deep(place)),
        Subscripts::Trees { trees, height } => subscript_after(trees, height, last),
    }
}

fn subscript_after(trees: ExprList, height: u64, last: Operand) -> Result<Subscripts, AllocError>
    ensures { IfOk result (λ r. kept_list_of r ≡ keep_subscript (kept_list height (placed_exprs trees)) (kept_of last)) }
{
    match last {
        Operand::Deep(place) => Ok(Subscripts::Deep(place)),
        Operand::Tree {
            tree,
            height: its_height,
        } => {
            let mut trees = trees;
            trees.push(tree)?;
            Ok(Subscripts::Trees {
                trees,
                height: greater(height, its_height),
            })
        }
    }
}

/// What is kept of a name with its subscripts.
pub fn element(name: Name, subscripts: Subscripts, span: Span) -> Operand
    ensures { kept_of result ≡ keep_element name (kept_list_of subscripts) span }
{
    match subscripts {
        Subscripts::Deep(place) => Operand::Deep(place),
        Subscripts::Trees { trees, height } => {
            if trees.is_empty() {
                Operand::Tree {
                    tree: Expr::Read { name, span },
                    height: 1,
                }
            } else {
                node(
                    Expr::Item {
                        name,
                        subs: trees,
                        span,
                    },
                    height,
                    span,
                )
            }
        }
    }
}
