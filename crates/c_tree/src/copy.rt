//! Copies of a tree's parts, which equal what they copy in full, places included.

ghost use Rattle.std.specs.Prelude.{◌≡◌, IfOk};

use crate::boxed::Boxed;
use crate::tree::{
    ApplyItem, ApplyList, Clause, ClauseKind, ClauseList, Count, CountList, Directive, Expr,
    ExprList, ForHead, Stmt, StmtList, Target,
};
use std::alloc::{AllocError, Global};

/// An equal expression.
#[cycle(expr_copy)]
pub fn copy_expr(alloc: Global, e: &Expr) -> Result<Expr, AllocError>
    ensures { IfOk result (λ copy. copy ≡ e.now) }
{
    Ok(match e {
        Expr::Num { value, ty, span } => Expr::Num {
            value: *value,
            ty: *ty,
            span: *span,
        },
        Expr::Read { name, span } => Expr::Read {
            name: name.copy(alloc)?,
            span: *span,
        },
        Expr::Item { name, subs, span } => Expr::Item {
            name: name.copy(alloc)?,
            subs: copy_exprs(alloc, subs.as_slice())?,
            span: *span,
        },
        Expr::Un { op, of, span } => Expr::Un {
            op: *op,
            of: copy_boxed(alloc, of)?,
            span: *span,
        },
        Expr::Bin {
            op,
            left,
            right,
            span,
        } => Expr::Bin {
            op: *op,
            left: copy_boxed(alloc, left)?,
            right: copy_boxed(alloc, right)?,
            span: *span,
        },
        Expr::Cond {
            test,
            yes,
            no,
            span,
        } => Expr::Cond {
            test: copy_boxed(alloc, test)?,
            yes: copy_boxed(alloc, yes)?,
            no: copy_boxed(alloc, no)?,
            span: *span,
        },
        Expr::Cast { ty, of, span } => Expr::Cast {
            ty: *ty,
            of: copy_boxed(alloc, of)?,
            span: *span,
        },
    })
}

#[cycle(expr_copy)]
fn copy_boxed(alloc: Global, e: &Boxed<Expr>) -> Result<Boxed<Expr>, AllocError>
    ensures { IfOk result (λ copy. copy ≡ e.now) }
{
    Boxed::new(alloc, copy_expr(alloc, e.get())?)
}

/// An equal list.
#[cycle(expr_copy)]
pub fn copy_exprs(alloc: Global, es: &[Expr]) -> Result<ExprList, AllocError>
    ensures { IfOk result (λ copy. copy ≡ es.now) }
{
    let mut copy = ExprList::new(alloc);
    'each: for e in es {
        copy.push(copy_expr(alloc, e)?)?;
    }
    Ok(copy)
}

/// An equal target.
pub fn copy_target(alloc: Global, target: &Target) -> Result<Target, AllocError>
    ensures { IfOk result (λ copy. copy ≡ target.now) }
{
    Ok(Target {
        name: target.name.copy(alloc)?,
        subs: copy_exprs(alloc, target.subs.as_slice())?,
        span: target.span,
    })
}

fn copy_option(alloc: Global, e: &Option<Expr>) -> Result<Option<Expr>, AllocError>
    ensures { IfOk result (λ copy. copy ≡ e.now) }
{
    Ok(match e {
        None => None,
        Some(e) => Some(copy_expr(alloc, e)?),
    })
}

fn copy_count(alloc: Global, count: &Count) -> Result<Count, AllocError>
    ensures { IfOk result (λ copy. copy ≡ count.now) }
{
    Ok(match count {
        Count::Fill(span) => Count::Fill(*span),
        Count::Given(e) => Count::Given(copy_expr(alloc, e)?),
    })
}

fn copy_counts(alloc: Global, counts: &[Count]) -> Result<CountList, AllocError>
    ensures { IfOk result (λ copy. copy ≡ counts.now) }
{
    let mut copy = CountList::new(alloc);
    'each: for count in counts {
        copy.push(copy_count(alloc, count)?)?;
    }
    Ok(copy)
}

/// An equal directive.
#[cycle(directive_copy)]
pub fn copy_directive(alloc: Global, directive: &Directive) -> Result<Directive, AllocError>
    ensures { IfOk result (λ copy. copy ≡ directive.now) }
{
    Ok(Directive {
        kind: directive.kind,
        clauses: copy_clauses(alloc, directive.clauses.as_slice())?,
        span: directive.span,
    })
}

#[cycle(directive_copy)]
fn copy_clauses(alloc: Global, clauses: &[Clause]) -> Result<ClauseList, AllocError>
    ensures { IfOk result (λ copy. copy ≡ clauses.now) }
{
    let mut copy = ClauseList::new(alloc);
    'each: for clause in clauses {
        let kind = copy_clause(alloc, &clause.kind)?;
        copy.push(Clause {
            kind,
            span: clause.span,
        })?;
    }
    Ok(copy)
}

#[cycle(directive_copy)]
fn copy_clause(alloc: Global, kind: &ClauseKind) -> Result<ClauseKind, AllocError>
    ensures { IfOk result (λ copy. copy ≡ kind.now) }
{
    Ok(match kind {
        ClauseKind::Sizes(es) => ClauseKind::Sizes(copy_exprs(alloc, es.as_slice())?),
        ClauseKind::Permutation(es) => ClauseKind::Permutation(copy_exprs(alloc, es.as_slice())?),
        ClauseKind::Counts(counts) => ClauseKind::Counts(copy_counts(alloc, counts.as_slice())?),
        ClauseKind::LoopRange(first, count) => {
            ClauseKind::LoopRange(copy_expr(alloc, first)?, copy_expr(alloc, count)?)
        }
        ClauseKind::Full => ClauseKind::Full,
        ClauseKind::Partial(factor) => ClauseKind::Partial(copy_option(alloc, factor)?),
        ClauseKind::Apply {
            modifier,
            indices,
            items,
        } => ClauseKind::Apply {
            modifier: match modifier {
                None => None,
                Some(name) => Some(name.copy(alloc)?),
            },
            indices: copy_exprs(alloc, indices.as_slice())?,
            items: copy_items(alloc, items.as_slice())?,
        },
    })
}

#[cycle(directive_copy)]
fn copy_items(alloc: Global, items: &[ApplyItem]) -> Result<ApplyList, AllocError>
    ensures { IfOk result (λ copy. copy ≡ items.now) }
{
    let mut copy = ApplyList::new(alloc);
    'each: for item in items {
        copy.push(match item {
            ApplyItem::Nothing(span) => ApplyItem::Nothing(*span),
            ApplyItem::Apply(directive) => ApplyItem::Apply(copy_directive(alloc, directive)?),
        })?;
    }
    Ok(copy)
}

/// An equal statement.
#[cycle(stmt_copy)]
pub fn copy_stmt(alloc: Global, stmt: &Stmt) -> Result<Stmt, AllocError>
    ensures { IfOk result (λ copy. copy ≡ stmt.now) }
{
    Ok(match stmt {
        Stmt::Decl {
            ty,
            name,
            name_span,
            init,
            span,
        } => Stmt::Decl {
            ty: *ty,
            name: name.copy(alloc)?,
            name_span: *name_span,
            init: copy_option(alloc, init)?,
            span: *span,
        },
        Stmt::Set {
            target,
            op,
            value,
            span,
        } => Stmt::Set {
            target: copy_target(alloc, target)?,
            op: *op,
            value: copy_expr(alloc, value)?,
            span: *span,
        },
        Stmt::Step { target, up, span } => Stmt::Step {
            target: copy_target(alloc, target)?,
            up: *up,
            span: *span,
        },
        Stmt::Print { value, span } => Stmt::Print {
            value: copy_expr(alloc, value)?,
            span: *span,
        },
        Stmt::Input {
            target,
            input_at,
            span,
        } => Stmt::Input {
            target: copy_target(alloc, target)?,
            input_at: *input_at,
            span: *span,
        },
        Stmt::If {
            test,
            yes,
            no,
            span,
        } => Stmt::If {
            test: copy_expr(alloc, test)?,
            yes: copy_stmts(alloc, yes.as_slice())?,
            no: match no {
                None => None,
                Some(no) => Some(copy_stmts(alloc, no.as_slice())?),
            },
            span: *span,
        },
        Stmt::While { test, body, span } => Stmt::While {
            test: copy_expr(alloc, test)?,
            body: copy_stmts(alloc, body.as_slice())?,
            span: *span,
        },
        Stmt::Do { body, test, span } => Stmt::Do {
            body: copy_stmts(alloc, body.as_slice())?,
            test: copy_expr(alloc, test)?,
            span: *span,
        },
        Stmt::For { head, body, span } => Stmt::For {
            head: copy_head(alloc, head)?,
            body: copy_stmts(alloc, body.as_slice())?,
            span: *span,
        },
        Stmt::Block { body, span } => Stmt::Block {
            body: copy_stmts(alloc, body.as_slice())?,
            span: *span,
        },
        Stmt::Break { span } => Stmt::Break { span: *span },
        Stmt::Continue { span } => Stmt::Continue { span: *span },
        Stmt::Empty { span } => Stmt::Empty { span: *span },
        Stmt::Omp {
            directive,
            body,
            span,
        } => Stmt::Omp {
            directive: copy_directive(alloc, directive)?,
            body: copy_stmts(alloc, body.as_slice())?,
            span: *span,
        },
        Stmt::Call {
            name,
            name_span,
            args,
            span,
        } => Stmt::Call {
            name: name.copy(alloc)?,
            name_span: *name_span,
            args: copy_exprs(alloc, args.as_slice())?,
            span: *span,
        },
    })
}

/// An equal list.
#[cycle(stmt_copy)]
pub fn copy_stmts(alloc: Global, stmts: &[Stmt]) -> Result<StmtList, AllocError>
    ensures { IfOk result (λ copy. copy ≡ stmts.now) }
{
    let mut copy = StmtList::new(alloc);
    'each: for stmt in stmts {
        copy.push(copy_stmt(alloc, stmt)?)?;
    }
    Ok(copy)
}

#[cycle(stmt_copy)]
fn copy_part(alloc: Global, part: &Option<Boxed<Stmt>>) -> Result<Option<Boxed<Stmt>>, AllocError>
    ensures { IfOk result (λ copy. copy ≡ part.now) }
{
    Ok(match part {
        None => None,
        Some(stmt) => Some(Boxed::new(alloc, copy_stmt(alloc, stmt.get())?)?),
    })
}

/// An equal head.
#[cycle(stmt_copy)]
pub fn copy_head(alloc: Global, head: &ForHead) -> Result<ForHead, AllocError>
    ensures { IfOk result (λ copy. copy ≡ head.now) }
{
    Ok(ForHead {
        init: copy_part(alloc, &head.init)?,
        init_at: head.init_at,
        test: copy_option(alloc, &head.test)?,
        test_at: head.test_at,
        step: copy_part(alloc, &head.step)?,
        step_at: head.step_at,
    })
}
