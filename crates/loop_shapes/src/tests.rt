//! What no clause says: the shape of a loop and each fault, as they are printed, with ample memory.

ghost use Rattle.std.specs.Prelude.{◌≡◌, ◌<◌, ◌^◌, [], ◌∷◌, IfOk};
ghost use Rattle.std.specs.Option.{option_map};
ghost use Rattle.c_tree.specs.Bare.{a_stmt};
ghost use Rattle.c_tree.specs.BareOf.{bare_clauses, bare_expr, bare_head, bare_program, bare_stmt, bare_stmts, bare_target, maybe_stmt};
ghost use Rattle.c_tree.specs.WellFormed.{IsName, MayBegin, MayEnd, WellFormedClauses, WellFormedExpr, WellFormedHead, WellFormedOption, WellFormedPart, WellFormedStmt, WellFormedStmts, WellFormedTarget, WellFormedTops};

use crate::seen::Seen;
use crate::shape::shape;
use c_tree::boxed::Boxed;
use c_tree::items::Items;
use c_tree::name::Name;
use c_tree::tree::{
    BinOp, Clause, ClauseKind, ClauseList, Directive, Expr, ForHead, Item, Kind, Program, SetOp,
    Span, Stmt, StmtList, Target, Ty,
};
use std::alloc::{AllocError, Global};
use std::test::Fail;

const SPAN: Span = Span { start: 3, end: 7 };

const DIRECTIVE: Span = Span { start: 20, end: 27 };

const LOOP: Span = Span { start: 40, end: 60 };

fn one<T: Drop>(alloc: Global, item: T) -> Result<Items<T>, AllocError>
    ensures { IfOk result (λ list. list ≡ item ∷ []) }
{
    let mut list = Items::new(alloc);
    list.push(item)?;
    Ok(list)
}

fn i(alloc: Global) -> Result<Name, AllocError>
    ensures { IfOk result (λ name. IsName name) }
{
    Name::new(alloc, b"i")
}

fn n(alloc: Global) -> Result<Name, AllocError>
    ensures { IfOk result (λ name. IsName name) }
{
    Name::new(alloc, b"n")
}

fn literal(value: u64) -> Expr
    requires { value < 2 ^ 31 }
    ensures { WellFormedExpr (bare_expr result) }
{
    Expr::Num {
        value,
        ty: Ty::Int,
        span: SPAN,
    }
}

fn target(alloc: Global) -> Result<Target, AllocError>
    ensures { IfOk result (λ target. WellFormedTarget (bare_target target)) }
{
    Ok(Target {
        name: i(alloc)?,
        subs: Items::new(alloc),
        span: SPAN,
    })
}

// i < n
fn test(alloc: Global) -> Result<Expr, AllocError>
    ensures { IfOk result (λ e. WellFormedExpr (bare_expr e)) }
{
    let left = Expr::Read {
        name: i(alloc)?,
        span: SPAN,
    };
    let right = Expr::Read {
        name: n(alloc)?,
        span: SPAN,
    };
    Ok(Expr::Bin {
        op: BinOp::Lt,
        left: Boxed::new(alloc, left)?,
        right: Boxed::new(alloc, right)?,
        span: SPAN,
    })
}

// i = 0
fn first(alloc: Global) -> Result<Boxed<Stmt>, AllocError>
    ensures { IfOk result (λ first. MayBegin (a_stmt (bare_stmt first)) × WellFormedStmt (bare_stmt first)) }
{
    let set = Stmt::Set {
        target: target(alloc)?,
        op: SetOp::Plain,
        value: literal(0),
        span: SPAN,
    };
    Boxed::new(alloc, set)
}

// i++
fn next(alloc: Global) -> Result<Boxed<Stmt>, AllocError>
    ensures { IfOk result (λ next. MayEnd (a_stmt (bare_stmt next)) × WellFormedStmt (bare_stmt next)) }
{
    let step = Stmt::Step {
        target: target(alloc)?,
        up: true,
        span: SPAN,
    };
    Boxed::new(alloc, step)
}

fn head(init: Option<Boxed<Stmt>>, test: Option<Expr>, step: Option<Boxed<Stmt>>) -> ForHead
    requires init { MayBegin (maybe_stmt (option_map bare_stmt init)) × WellFormedPart (maybe_stmt (option_map bare_stmt init)) }
    requires test { WellFormedOption (option_map bare_expr test) }
    requires step { MayEnd (maybe_stmt (option_map bare_stmt step)) × WellFormedPart (maybe_stmt (option_map bare_stmt step)) }
    ensures { WellFormedHead (bare_head result) }
{
    ForHead {
        init,
        init_at: 4,
        test,
        test_at: 5,
        step,
        step_at: 6,
    }
}

// i = 0; i < n; i++
fn counting(alloc: Global) -> Result<ForHead, AllocError>
    ensures { IfOk result (λ head. WellFormedHead (bare_head head)) }
{
    let init = first(alloc)?;
    let step = next(alloc)?;
    let test = test(alloc)?;
    Ok(head(Some(init), Some(test), Some(step)))
}

// for (head) { }
fn for_loop(alloc: Global, head: ForHead) -> Stmt
    requires { WellFormedHead (bare_head head) }
    ensures { WellFormedStmt (bare_stmt result) }
{
    Stmt::For {
        head,
        body: StmtList::new(alloc),
        span: LOOP,
    }
}

fn with_directive(kind: Kind, clauses: ClauseList, body: StmtList) -> Stmt
    requires clauses { WellFormedClauses (bare_clauses clauses) }
    requires body { WellFormedStmts (bare_stmts body) }
    ensures { WellFormedStmt (bare_stmt result) }
{
    Stmt::Omp {
        directive: Directive {
            kind,
            clauses,
            span: DIRECTIVE,
        },
        body,
        span: SPAN,
    }
}

// sizes(2)
fn sizes(alloc: Global) -> Result<ClauseList, AllocError>
    ensures { IfOk result (λ clauses. WellFormedClauses (bare_clauses clauses)) }
{
    let kind = ClauseKind::Sizes(one(alloc, literal(2))?);
    one(alloc, Clause { kind, span: SPAN })
}

// #pragma omp tile sizes(2), before for (i = 0; i < n; i++) { }
fn tiled(alloc: Global) -> Result<Stmt, AllocError>
    ensures { IfOk result (λ stmt. WellFormedStmt (bare_stmt stmt)) }
{
    let body = one(alloc, for_loop(alloc, counting(alloc)?))?;
    let clauses = sizes(alloc)?;
    Ok(with_directive(Kind::Tile, clauses, body))
}

// #pragma omp reverse
fn reversed(alloc: Global, body: StmtList) -> Stmt
    requires { WellFormedStmts (bare_stmts body) }
    ensures { WellFormedStmt (bare_stmt result) }
{
    with_directive(Kind::Reverse, ClauseList::new(alloc), body)
}

// #pragma omp reverse, before for (;;) { }
fn reversed_endless(alloc: Global) -> Result<Stmt, AllocError>
    ensures { IfOk result (λ stmt. WellFormedStmt (bare_stmt stmt)) }
{
    let endless = for_loop(alloc, head(None, None, None));
    Ok(reversed(alloc, one(alloc, endless)?))
}

// #define n 5
fn program(alloc: Global) -> Result<Program, AllocError>
    ensures { IfOk result (λ p. WellFormedTops (bare_program p)) }
{
    let define = Item::Define {
        name: n(alloc)?,
        negative: false,
        value: 5,
        ty: Ty::Int,
        name_span: SPAN,
    };
    Ok(Program {
        items: one(alloc, define)?,
    })
}

/// What is answered where one loop is wanted of a statement, and `i` is visible as an `int`.
fn answer(alloc: Global, stmt: &Stmt) -> Result<String, Fail>
    requires { WellFormedStmt (bare_stmt stmt.now) }
{
    let program = program(alloc)?;
    let mut vars = Vec::new(alloc);
    vars.push(Seen {
        name: i(alloc)?,
        ty: Ty::Int,
    })?;
    let answer = shape(alloc, &program, vars.as_slice(), stmt, 1);
    Ok(format!(in alloc; "{answer:?}")?)
}

#[test]
fn a_statement_has_a_shape_or_a_fault(rt: HostRuntime) -> Result<(), Fail> {
    let alloc = rt.alloc();
    let nothing = reversed(alloc, StmtList::new(alloc));
    let rows = [
        (
            answer(alloc, &tiled(alloc)?)?,
            "Ok(Shape { parts: [PartShape { loops: [Known(3), Depends(Items { items: [1] })] }] })",
        ),
        (answer(alloc, &nothing)?, "Err(NoShape(20))"),
        (
            answer(alloc, &reversed_endless(alloc)?)?,
            "Err(NotCanonical(40))",
        ),
    ];
    for (found, wanted) in rows {
        assert_eq!(rt; found.as_str(), wanted);
    }
    Ok(())
}
