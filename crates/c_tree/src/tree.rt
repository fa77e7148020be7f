//! The syntax tree of a program of the profile, with the place of each node.

use crate::boxed::Boxed as Box;
use crate::items::Items;
use crate::name::Name;

/// Where a node stands in the text: from the first byte of its first token up to, and without, the byte after its
/// last token.
#[derive(Clone, Copy, Debug, PartialEq, Eq)]
pub struct Span {
    pub start: u64,
    pub end: u64,
}

/// A type of the profile: `int` of 32 bits, `long long` of 64 (C11 6.2.5).
#[derive(Clone, Copy, Debug, PartialEq, Eq)]
pub enum Ty {
    Int,
    Long,
}

/// A unary operator (C11 6.5.3.3).
#[derive(Clone, Copy, Debug, PartialEq, Eq)]
pub enum UnOp {
    Neg,
    Plus,
    Not,
}

/// A binary operator (C11 6.5.5, 6.5.6, 6.5.8, 6.5.9, 6.5.13, 6.5.14).
#[derive(Clone, Copy, Debug, PartialEq, Eq)]
pub enum BinOp {
    Mul,
    Div,
    Rem,
    Add,
    Sub,
    Lt,
    Le,
    Gt,
    Ge,
    Eq,
    Ne,
    And,
    Or,
}

/// An assignment operator: `Plain` is `=`, `Add` is `+=` (C11 6.5.16).
#[derive(Clone, Copy, Debug, PartialEq, Eq)]
pub enum SetOp {
    Plain,
    Add,
    Sub,
    Mul,
    Div,
    Rem,
}

pub type ExprList = Items<Expr>;

pub type StmtList = Items<Stmt>;

pub type CountList = Items<Count>;

pub type ClauseList = Items<Clause>;

pub type ApplyList = Items<ApplyItem>;

pub type ParamList = Items<Param>;

pub type ItemList = Items<Item>;

/// An expression (C11 6.5).
#[derive(Debug, Drop)]
pub enum Expr {
    /// An integer constant; `value` is one that its type holds.
    Num {
        value: u64,
        ty: Ty,
        span: Span,
    },
    /// The value of a variable or of a define.
    Read {
        name: Name,
        span: Span,
    },
    /// The value of an array's element, with a subscript for each dimension.
    Item {
        name: Name,
        subs: ExprList,
        span: Span,
    },
    Un {
        op: UnOp,
        of: Box<Expr>,
        span: Span,
    },
    Bin {
        op: BinOp,
        left: Box<Expr>,
        right: Box<Expr>,
        span: Span,
    },
    /// `test ? yes : no`.
    Cond {
        test: Box<Expr>,
        yes: Box<Expr>,
        no: Box<Expr>,
        span: Span,
    },
    Cast {
        ty: Ty,
        of: Box<Expr>,
        span: Span,
    },
}

impl Expr {
    ghost use Rattle.std.specs.Prelude.{◌≡◌};
    ghost use Rattle.c_tree.specs.Placed.{expr_span};
    ghost use Rattle.c_tree.specs.PlacedOf.{placed_expr};

    pub fn span(&self) -> Span
        ensures { result ≡ expr_span (placed_expr self.now) }
    {
        match self {
            Expr::Num { span, .. }
            | Expr::Read { span, .. }
            | Expr::Item { span, .. }
            | Expr::Un { span, .. }
            | Expr::Bin { span, .. }
            | Expr::Cond { span, .. }
            | Expr::Cast { span, .. } => *span,
        }
    }
}

/// What is assigned: a variable where there are no subscripts, else an array's element.
#[derive(Debug, Drop)]
pub struct Target {
    pub name: Name,
    pub subs: ExprList,
    pub span: Span,
}

/// A loop-transforming directive (OpenMP 6.0, loop-transforming constructs).
#[derive(Clone, Copy, Debug, PartialEq, Eq)]
pub enum Kind {
    Tile,
    Unroll,
    Interchange,
    Reverse,
    Split,
    Fuse,
}

/// An element of a `counts` clause: `omp_fill`, or a number of iterations.
#[derive(Debug, Drop)]
pub enum Count {
    Fill(Span),
    Given(Expr),
}

/// A directive with its clauses in the order of the text. Its span begins at its name.
#[cycle(directives)]
#[derive(Debug, Drop)]
pub struct Directive {
    pub kind: Kind,
    pub clauses: ClauseList,
    pub span: Span,
}

#[cycle(directives)]
#[derive(Debug, Drop)]
pub struct Clause {
    pub kind: ClauseKind,
    pub span: Span,
}

#[cycle(directives)]
#[derive(Debug, Drop)]
pub enum ClauseKind {
    Sizes(ExprList),
    Permutation(ExprList),
    Counts(CountList),
    /// `looprange(first, count)`.
    LoopRange(Expr, Expr),
    Full,
    Partial(Option<Expr>),
    /// `apply(modifier(indices): items)`; without a modifier there are no indices.
    Apply {
        modifier: Option<Name>,
        indices: ExprList,
        items: ApplyList,
    },
}

/// An element of an `apply` clause.
#[cycle(directives)]
#[derive(Debug, Drop)]
pub enum ApplyItem {
    Nothing(Span),
    Apply(Directive),
}

/// A statement or a declaration (C11 6.7, 6.8).
#[cycle(statements)]
#[derive(Debug, Drop)]
pub enum Stmt {
    Decl {
        ty: Ty,
        name: Name,
        name_span: Span,
        init: Option<Expr>,
        span: Span,
    },
    Set {
        target: Target,
        op: SetOp,
        value: Expr,
        span: Span,
    },
    /// `++` where `up` holds, else `--`.
    Step {
        target: Target,
        up: bool,
        span: Span,
    },
    Print {
        value: Expr,
        span: Span,
    },
    Input {
        target: Target,
        /// Where the word `input` stands.
        input_at: u64,
        span: Span,
    },
    If {
        test: Expr,
        yes: StmtList,
        no: Option<StmtList>,
        span: Span,
    },
    While {
        test: Expr,
        body: StmtList,
        span: Span,
    },
    Do {
        body: StmtList,
        test: Expr,
        span: Span,
    },
    For {
        head: ForHead,
        body: StmtList,
        span: Span,
    },
    Block {
        body: StmtList,
        span: Span,
    },
    Break {
        span: Span,
    },
    Continue {
        span: Span,
    },
    Empty {
        span: Span,
    },
    /// A directive with the statements that it is applied to: one loop, or the members of a loop sequence.
    Omp {
        directive: Directive,
        body: StmtList,
        span: Span,
    },
    /// A call of a function of the program.
    Call {
        name: Name,
        name_span: Span,
        args: ExprList,
        span: Span,
    },
}

impl Stmt {
    ghost use Rattle.std.specs.Prelude.{◌≡◌};
    ghost use Rattle.c_tree.specs.Placed.{stmt_span};
    ghost use Rattle.c_tree.specs.PlacedOf.{placed_stmt};

    pub fn span(&self) -> Span
        ensures { result ≡ stmt_span (placed_stmt self.now) }
    {
        match self {
            Stmt::Decl { span, .. }
            | Stmt::Set { span, .. }
            | Stmt::Step { span, .. }
            | Stmt::Print { span, .. }
            | Stmt::Input { span, .. }
            | Stmt::If { span, .. }
            | Stmt::While { span, .. }
            | Stmt::Do { span, .. }
            | Stmt::For { span, .. }
            | Stmt::Block { span, .. }
            | Stmt::Break { span }
            | Stmt::Continue { span }
            | Stmt::Empty { span }
            | Stmt::Omp { span, .. }
            | Stmt::Call { span, .. } => *span,
        }
    }
}

/// The head of a `for` (C11 6.8.5.3). `init` is a `Decl` with a value, a `Set` or a `Step`; `step` is a `Set` or a
/// `Step`. A part's place is that of its first token, and an absent part's that of the token which follows it.
#[cycle(statements)]
#[derive(Debug, Drop)]
pub struct ForHead {
    pub init: Option<Box<Stmt>>,
    pub init_at: u64,
    pub test: Option<Expr>,
    pub test_at: u64,
    pub step: Option<Box<Stmt>>,
    pub step_at: u64,
}

/// A function of the outside that a program makes known: `print` or `input`.
#[derive(Clone, Copy, Debug, PartialEq, Eq)]
pub enum Port {
    Print,
    Input,
}

/// A function's parameter, which is passed by value.
#[derive(Debug, Drop)]
pub struct Param {
    pub ty: Ty,
    pub name: Name,
    pub name_span: Span,
}

/// An item of a program's file (C11 6.9, 6.10.3).
#[derive(Debug, Drop)]
pub enum Item {
    /// `#define name value`, with a minus sign where `negative` holds.
    Define {
        name: Name,
        negative: bool,
        value: u64,
        ty: Ty,
        name_span: Span,
    },
    Extern {
        port: Port,
        span: Span,
    },
    /// A file-scope variable, or an array where it has dimensions.
    Global {
        ty: Ty,
        name: Name,
        name_span: Span,
        dims: ExprList,
        init: Option<Expr>,
    },
    /// A function that gives no value.
    Function {
        name: Name,
        name_span: Span,
        params: ParamList,
        body: StmtList,
        span: Span,
    },
    Main {
        body: StmtList,
        span: Span,
    },
}

/// A whole program, its items in the order of the text.
#[derive(Debug, Drop)]
pub struct Program {
    pub items: ItemList,
}
