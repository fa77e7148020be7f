//! Generated code before it is statements: a front, and parts that are nests of counted loops or plain statements.

use c_tree::boxed::Boxed as Box;
use c_tree::items::Items;
use c_tree::name::Name;
use c_tree::tree::{Expr, StmtList};

pub type PartList = Items<GenPart>;

/// What a construct becomes: declarations that run once at its entry, and its parts in order.
#[derive(Debug, Drop)]
pub struct Gen {
    pub front: StmtList,
    pub parts: PartList,
}

/// A nest of counted loops, or statements that hold none to be rewritten.
#[cycle(generated)]
#[derive(Debug, Drop)]
pub enum GenPart {
    Loop(Box<GenLoop>),
    Plain(StmtList),
}

/// A counted loop: declarations of fresh names directly before it; a counter of type `long long`, which runs from `from`
/// to below `to`; and what is below it.
#[cycle(generated)]
#[derive(Debug, Drop)]
pub struct GenLoop {
    pub lets: StmtList,
    pub counter: Name,
    pub from: Expr,
    pub to: Expr,
    pub inner: GenBody,
}

/// What is below a counted loop: the next loop of its nest, or the list below the innermost loop.
#[cycle(generated)]
#[derive(Debug, Drop)]
pub enum GenBody {
    Nest(Box<GenLoop>),
    Seq(PartList),
}
