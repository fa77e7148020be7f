//! The head of a `for` (C11 6.8.5.3), taken from the tokens that are left.

ghost use Rattle.std.specs.Prelude.{◌≡◌, None, IfOk};
ghost use Rattle.c_tree.specs.Placed as placed;
ghost use Rattle.pragma_grammar.specs.DirectiveKept.{both};
ghost use Rattle.c_parser.specs.Heads.{kept_some, IsLongTaken, IsDeclaredTaken, IsInitTaken, IsTestTaken, IsNextTaken, IsHeadTaken};
ghost use Rattle.c_parser.specs.Kept.{option_of, part_of, head_of, pair};

use crate::beginnings::{Beginning, beginning_of};
use crate::cursor::{Class, Cursor};
use crate::nodes::declaration;
use crate::phrases::expr;
use crate::simple::{simple_stmt, take_simple};
use crate::terminals::name;
use c_tree::boxed::Boxed;
use c_tree::tree::{Expr, ForHead, Span, Stmt, Ty};
use pragma_grammar::directive_kept::Kept;
use pragma_grammar::phrase::ParseFault;
use pragma_grammar::terminal::terminal_of;
use std::alloc::{AllocError, Global};

/// A part that is there.
pub fn some<T>(part: Kept<T>) -> Kept<Option<T>>
    ensures { result ≡ kept_some part }
{
    match part {
        Kept::Whole { tree, height } => Kept::Whole {
            tree: Some(tree),
            height,
        },
        Kept::Deep(place) => Kept::Deep(place),
    }
}

/// A statement that is a part.
fn boxed(alloc: Global, stmt: Kept<Stmt>) -> Result<Kept<Option<Boxed<Stmt>>>, AllocError>
    ensures { IfOk result (λ part. part ≡ kept_some stmt) }
{
    match stmt {
        Kept::Whole { tree, height } => {
            let tree = Boxed::new(alloc, tree)?;
            Ok(Kept::Whole {
                tree: Some(tree),
                height,
            })
        }
        Kept::Deep(place) => Ok(Kept::Deep(place)),
    }
}

/// A part that is absent.
pub fn none<T>() -> Kept<Option<T>>
    ensures { result ≡ Kept.Whole None 0 }
{
    Kept::Whole {
        tree: None,
        height: 0,
    }
}

/// Takes the rest of `long long` or `long long int` (C11 6.7.2).
pub fn long_rest(cursor: &mut Cursor) -> Result<(), ParseFault>
    ensures { IsLongTaken cursor.old result cursor.new }
{
    cursor.take(Class::Long)?;
    cursor.may(Class::Int);
    Ok(())
}

/// Takes the declaration of a loop variable, whose type begins at `from`, through `;`.
fn declares(
    alloc: Global,
    cursor: &mut Cursor,
    ty: Ty,
    from: u64,
) -> Result<Kept<Option<Boxed<Stmt>>>, ParseFault>
    ensures { IsDeclaredTaken ty from cursor.old result cursor.new }
{
    let (name, name_at) = name(alloc, cursor)?;
    cursor.take(Class::Assign)?;
    let (value, last) = expr(alloc, cursor)?;
    cursor.take(Class::Semicolon)?;
    let span = Span {
        start: from,
        end: last.end,
    };
    Ok(boxed(alloc, declaration(ty, name, name_at, some(value), span))?)
}

/// Takes the first part, through `;`.
fn init_part(alloc: Global, cursor: &mut Cursor) -> Result<Kept<Option<Boxed<Stmt>>>, ParseFault>
    ensures { IsInitTaken cursor.old result cursor.new }
{
    let token = cursor.first();
    let from = token.span.start;
    match beginning_of(terminal_of(token)) {
        Beginning::Empty => {
            cursor.advance();
            Ok(none())
        }
        Beginning::Int => {
            cursor.advance();
            declares(alloc, cursor, Ty::Int, from)
        }
        Beginning::Long => {
            cursor.advance();
            long_rest(cursor)?;
            declares(alloc, cursor, Ty::Long, from)
        }
        _ => {
            let (simple, last) = take_simple(alloc, cursor)?;
            cursor.take(Class::Semicolon)?;
            Ok(boxed(alloc, simple_stmt(simple, last.end))?)
        }
    }
}

/// Takes the second part, through `;`.
fn test_part(alloc: Global, cursor: &mut Cursor) -> Result<Kept<Option<Expr>>, ParseFault>
    ensures { IsTestTaken cursor.old result cursor.new }
{
    match cursor.may(Class::Semicolon) {
        Some(_) => Ok(none()),
        None => {
            let (test, _) = expr(alloc, cursor)?;
            cursor.take(Class::Semicolon)?;
            Ok(some(test))
        }
    }
}

/// Takes the third part, through `)`.
fn next_part(alloc: Global, cursor: &mut Cursor) -> Result<Kept<Option<Boxed<Stmt>>>, ParseFault>
    ensures { IsNextTaken cursor.old result cursor.new }
{
    match cursor.may(Class::RoundClose) {
        Some(_) => Ok(none()),
        None => {
            let (simple, last) = take_simple(alloc, cursor)?;
            cursor.take(Class::RoundClose)?;
            Ok(boxed(alloc, simple_stmt(simple, last.end))?)
        }
    }
}

/// A head of its parts.
fn head_node(
    init: Kept<Option<Boxed<Stmt>>>,
    init_at: u64,
    test: Kept<Option<Expr>>,
    test_at: u64,
    step: Kept<Option<Boxed<Stmt>>>,
    step_at: u64,
) -> Kept<ForHead>
    ensures { head_of result ≡ both (λ i p. placed.head i init_at p.0 test_at p.1 step_at) (part_of init) (both pair (option_of test) (part_of step)) }
{
    match init {
        Kept::Deep(place) => Kept::Deep(place),
        Kept::Whole {
            tree: init,
            height: first,
        } => match test {
            Kept::Deep(place) => Kept::Deep(place),
            Kept::Whole {
                tree: test,
                height: second,
            } => match step {
                Kept::Deep(place) => Kept::Deep(place),
                Kept::Whole { tree: step, height } => Kept::Whole {
                    tree: ForHead {
                        init,
                        init_at,
                        test,
                        test_at,
                        step,
                        step_at,
                    },
                    height: first.max(second.max(height)),
                },
            },
        },
    }
}

/// Takes the three parts in their parentheses.
pub fn head(alloc: Global, cursor: &mut Cursor) -> Result<Kept<ForHead>, ParseFault>
    ensures { IsHeadTaken cursor.old result cursor.new }
{
    cursor.take(Class::RoundOpen)?;
    let init_at = cursor.place();
    let init = init_part(alloc, cursor)?;
    let test_at = cursor.place();
    let test = test_part(alloc, cursor)?;
    let step_at = cursor.place();
    let step = next_part(alloc, cursor)?;
    Ok(head_node(init, init_at, test, test_at, step, step_at))
}
