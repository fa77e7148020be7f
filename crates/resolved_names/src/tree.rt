//! The tree of a program without directives whose names are numbers, without the places of its nodes.

use c_tree::boxed::Boxed as Box;
use c_tree::items::Items;
use c_tree::tree::{BinOp, Port, SetOp, Ty, UnOp};

pub type ExprList = Items<Expr>;

pub type StmtList = Items<Stmt>;

pub type ParamList = Items<Param>;

pub type ItemList = Items<Item>;

/// An expression (C11 6.5).
#[derive(Debug, Drop)]
pub enum Expr {
    /// An integer constant; `value` is one that its type holds.
    Num {
        value: u64,
        ty: Ty,
    },
    /// The value of a variable or of a define.
    Read {
        name: usize,
    },
    /// The value of an array's element, with a subscript for each dimension.
    Item {
        name: usize,
        subs: ExprList,
    },
    Un {
        op: UnOp,
        of: Box<Expr>,
    },
    Bin {
        op: BinOp,
        left: Box<Expr>,
        right: Box<Expr>,
    },
    /// `test ? yes : no`.
    Cond {
        test: Box<Expr>,
        yes: Box<Expr>,
        no: Box<Expr>,
    },
    Cast {
        ty: Ty,
        of: Box<Expr>,
    },
}

/// What is assigned: a variable where there are no subscripts, else an array's element.
#[derive(Debug, Drop)]
pub struct Target {
    pub name: usize,
    pub subs: ExprList,
}

/// A statement or a declaration (C11 6.7, 6.8).
#[cycle(statements)]
#[derive(Debug, Drop)]
pub enum Stmt {
    Decl {
        ty: Ty,
        name: usize,
        init: Option<Expr>,
    },
    Set {
        target: Target,
        op: SetOp,
        value: Expr,
    },
    /// `++` where `up` holds, else `--`.
    Step {
        target: Target,
        up: bool,
    },
    Print {
        value: Expr,
    },
    Input {
        target: Target,
    },
    If {
        test: Expr,
        yes: StmtList,
        no: Option<StmtList>,
    },
    While {
        test: Expr,
        body: StmtList,
    },
    Do {
        body: StmtList,
        test: Expr,
    },
    For {
        head: ForHead,
        body: StmtList,
    },
    Block {
        body: StmtList,
    },
    Break,
    Continue,
    Empty,
    /// A call of a function of the program.
    Call {
        name: usize,
        args: ExprList,
    },
}

/// The head of a `for` (C11 6.8.5.3).
#[cycle(statements)]
#[derive(Debug, Drop)]
pub struct ForHead {
    pub init: Option<Box<Stmt>>,
    pub test: Option<Expr>,
    pub step: Option<Box<Stmt>>,
}

/// A function's parameter, which is passed by value.
#[derive(Debug, Drop)]
pub struct Param {
    pub ty: Ty,
    pub name: usize,
}

/// An item of a program's file (C11 6.9, 6.10.3).
#[derive(Debug, Drop)]
pub enum Item {
    /// `#define name value`, with a minus sign where `negative` holds.
    Define {
        name: usize,
        negative: bool,
        value: u64,
        ty: Ty,
    },
    Extern {
        port: Port,
    },
    /// A file-scope variable, or an array where it has dimensions.
    Global {
        ty: Ty,
        name: usize,
        dims: ExprList,
        init: Option<Expr>,
    },
    /// A function that gives no value.
    Function {
        name: usize,
        params: ParamList,
        body: StmtList,
    },
    Main {
        body: StmtList,
    },
}
