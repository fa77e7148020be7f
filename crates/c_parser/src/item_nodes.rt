//! Items of the tree, each of what was kept of its parts.

ghost use Rattle.std.specs.Prelude.{◌≡◌, [], IfOk, Some, None, map};
ghost use Rattle.c_tree.specs.Placed as placed;
ghost use Rattle.c_tree.specs.PlacedOf.{placed_top, placed_param};
ghost use Rattle.pragma_grammar.specs.DirectiveKept.{kept, one, both};
ghost use Rattle.pragma_grammar.specs.DirectiveStands.{expr_of, exprs_of};
ghost use Rattle.c_parser.specs.Kept.{stmts_of, node, node_of};
ghost use Rattle.c_parser.specs.Items.{item_of, items_of, add_top};

use c_tree::items::Items;
use c_tree::name::Name;
use c_tree::tree::{Expr, ExprList, Item, ItemList, ParamList, Span, StmtList, Ty};
use pragma_grammar::directive_kept::{Kept, push};
use std::alloc::{AllocError, Global};

/// The greatest height of a tree that is kept.
const MOST: u64 = 256;

/// An item over parts of this height, which begins at `start`.
fn item(tree: Item, height: u64, start: u64) -> Kept<Item>
    ensures { item_of result ≡ node height start (placed_top tree) }
{
    if height >= MOST {
        Kept::Deep(start)
    } else {
        Kept::Whole {
            tree,
            height: height + 1,
        }
    }
}

/// A variable with an initial value. Its declaration begins at `start`.
pub fn valued(
    alloc: Global,
    ty: Ty,
    name: Name,
    name_span: Span,
    value: Kept<Expr>,
    start: u64,
) -> Kept<Item>
    ensures { item_of result ≡ node_of start (one (λ e. placed.global ty name name_span placed.no_exprs (Some e)) (expr_of value)) }
{
    match value {
        Kept::Deep(place) => Kept::Deep(place),
        Kept::Whole {
            tree: value,
            height,
        } => item(
            Item::Global {
                ty,
                name,
                name_span,
                dims: Items::new(alloc),
                init: Some(value),
            },
            height,
            start,
        ),
    }
}

/// A variable, or an array with dimensions, without an initial value. Its declaration begins at `start`.
pub fn unvalued(ty: Ty, name: Name, name_span: Span, dims: Kept<ExprList>, start: u64) -> Kept<Item>
    ensures { item_of result ≡ node_of start (one (λ es. placed.global ty name name_span es None) (exprs_of dims)) }
{
    match dims {
        Kept::Deep(place) => Kept::Deep(place),
        Kept::Whole { tree: dims, height } => item(
            Item::Global {
                ty,
                name,
                name_span,
                dims,
                init: None,
            },
            height,
            start,
        ),
    }
}

/// A function that gives no value.
pub fn function_item(
    name: Name,
    name_span: Span,
    params: ParamList,
    body: Kept<StmtList>,
    span: Span,
) -> Kept<Item>
    ensures { item_of result ≡ node_of span.start (one (λ ss. placed.function name name_span (map placed_param params) ss span) (stmts_of body)) }
{
    match body {
        Kept::Deep(place) => Kept::Deep(place),
        Kept::Whole { tree: body, height } => item(
            Item::Function {
                name,
                name_span,
                params,
                body,
                span,
            },
            height,
            span.start,
        ),
    }
}

pub fn main_item(body: Kept<StmtList>, span: Span) -> Kept<Item>
    ensures { item_of result ≡ node_of span.start (one (λ ss. placed.main ss span) (stmts_of body)) }
{
    match body {
        Kept::Deep(place) => Kept::Deep(place),
        Kept::Whole { tree: body, height } => item(Item::Main { body, span }, height, span.start),
    }
}

pub fn no_items(alloc: Global) -> Kept<ItemList>
    ensures { items_of result ≡ kept 0 [] }
{
    Kept::Whole {
        tree: Items::new(alloc),
        height: 0,
    }
}

/// The items with one more.
#[tactic(auto, using(crate::proofs::ItemsKept::items_pushed))]
pub fn add_item(items: Kept<ItemList>, last: Kept<Item>) -> Result<Kept<ItemList>, AllocError>
    ensures { IfOk result (λ r. items_of r ≡ both add_top (items_of items) (item_of last)) }
{
    let all = push(items, last)?;
    Ok(all)
}
