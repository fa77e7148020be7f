//! Whether code spells a name.

ghost use Rattle.std.specs.Prelude.{◌≡◌};
ghost use Rattle.std.specs.Option.{option_map};
ghost use Rattle.c_tree.specs.BareOf.{bare_expr, bare_exprs, bare_head, bare_stmt, bare_stmts, bare_target, maybe_stmt};
ghost use Rattle.loop_normal.specs.GenOf.{bare_body, bare_loop, bare_part, bare_parts};
ghost use Rattle.nest_normal.specs.Spelled as s;

use c_tree::boxed::Boxed;
use c_tree::name::Name;
use c_tree::tree::{Expr, ForHead, Stmt, Target};
use loop_normal::generated::{GenBody, GenLoop, GenPart};

#[cycle(in_expr)]
fn in_expr(name: &Name, e: &Expr) -> bool
    ensures { result ≡ s.in_expr name.now (bare_expr e.now) }
{
    match e {
        Expr::Num { .. } => false,
        Expr::Read { name: other, .. } => other == name,
        Expr::Item {
            name: other,
            subs,
            ..
        } => other == name || in_exprs(name, subs.as_slice()),
        Expr::Un { of, .. } => in_expr(name, of.get()),
        Expr::Cast { of, .. } => in_expr(name, of.get()),
        Expr::Bin { left, right, .. } => in_expr(name, left.get()) || in_expr(name, right.get()),
        Expr::Cond { test, yes, no, .. } => {
            in_expr(name, test.get()) || in_expr(name, yes.get()) || in_expr(name, no.get())
        }
    }
}

#[tactic(auto, using(crate::proofs::SpelledWalks::walks))]
#[cycle(in_expr)]
fn in_exprs(name: &Name, es: &[Expr]) -> bool
    ensures { result ≡ s.in_exprs name.now (bare_exprs es.now) }
{
    'each: for e in es {
        if in_expr(name, e) {
            return true;
        }
    }
    false
}

fn in_option(name: &Name, e: &Option<Expr>) -> bool
    ensures { result ≡ s.in_option name.now (option_map bare_expr e.now) }
{
    match e {
        None => false,
        Some(e) => in_expr(name, e),
    }
}

fn in_target(name: &Name, target: &Target) -> bool
    ensures { result ≡ s.in_target name.now (bare_target target.now) }
{
    target.name == *name || in_exprs(name, target.subs.as_slice())
}

#[cycle(in_stmt)]
fn in_stmt(name: &Name, stmt: &Stmt) -> bool
    ensures { result ≡ s.in_stmt name.now (bare_stmt stmt.now) }
{
    match stmt {
        Stmt::Decl {
            name: other,
            init,
            ..
        } => other == name || in_option(name, init),
        Stmt::Set { target, value, .. } => in_target(name, target) || in_expr(name, value),
        Stmt::Step { target, .. } => in_target(name, target),
        Stmt::Input { target, .. } => in_target(name, target),
        Stmt::Print { value, .. } => in_expr(name, value),
        Stmt::If { test, yes, no, .. } => {
            let before = in_expr(name, test) || in_stmts(name, yes.as_slice());
            match no {
                None => before,
                Some(no) => before || in_stmts(name, no.as_slice()),
            }
        }
        Stmt::While { test, body, .. } => in_expr(name, test) || in_stmts(name, body.as_slice()),
        Stmt::Do { body, test, .. } => in_stmts(name, body.as_slice()) || in_expr(name, test),
        Stmt::For { head, body, .. } => in_head(name, head) || in_stmts(name, body.as_slice()),
        Stmt::Block { body, .. } => in_stmts(name, body.as_slice()),
        Stmt::Omp { body, .. } => in_stmts(name, body.as_slice()),
        Stmt::Break { .. } | Stmt::Continue { .. } | Stmt::Empty { .. } => false,
        Stmt::Call {
            name: other,
            args,
            ..
        } => other == name || in_exprs(name, args.as_slice()),
    }
}

#[tactic(auto, using(crate::proofs::SpelledWalks::walks))]
#[cycle(in_stmt)]
fn in_stmts(name: &Name, stmts: &[Stmt]) -> bool
    ensures { result ≡ s.in_stmts name.now (bare_stmts stmts.now) }
{
    'each: for stmt in stmts {
        if in_stmt(name, stmt) {
            return true;
        }
    }
    false
}

#[tactic(auto, using(crate::proofs::SpelledWalks::heads))]
#[cycle(in_stmt)]
fn in_head(name: &Name, head: &ForHead) -> bool
    ensures { result ≡ s.in_head name.now (bare_head head.now) }
{
    in_maybe(name, &head.init) || in_option(name, &head.test) || in_maybe(name, &head.step)
}

#[cycle(in_stmt)]
fn in_maybe(name: &Name, stmt: &Option<Boxed<Stmt>>) -> bool
    ensures { result ≡ s.in_maybe name.now (maybe_stmt (option_map bare_stmt stmt.now)) }
{
    match stmt {
        None => false,
        Some(stmt) => in_stmt(name, stmt.get()),
    }
}

/// Whether a nest spells the name.
#[tactic(auto, using(loop_normal::proofs::LoopFields::fields))]
#[cycle(in_loop)]
pub(crate) fn in_loop(name: &Name, looped: &GenLoop) -> bool
    ensures { result ≡ s.in_loop name.now (bare_loop looped.now) }
{
    in_stmts(name, looped.lets.as_slice())
        || looped.counter == *name
        || in_expr(name, &looped.from)
        || in_expr(name, &looped.to)
        || in_inner(name, &looped.inner)
}

#[cycle(in_loop)]
fn in_inner(name: &Name, inner: &GenBody) -> bool
    ensures { result ≡ s.in_inner name.now (bare_body inner.now) }
{
    match inner {
        GenBody::Nest(next) => in_loop(name, next.get()),
        GenBody::Seq(parts) => in_parts(name, parts.as_slice()),
    }
}

#[cycle(in_loop)]
fn in_part(name: &Name, part: &GenPart) -> bool
    ensures { result ≡ s.in_part name.now (bare_part part.now) }
{
    match part {
        GenPart::Loop(looped) => in_loop(name, looped.get()),
        GenPart::Plain(list) => in_stmts(name, list.as_slice()),
    }
}

#[tactic(auto, using(crate::proofs::SpelledWalks::walks))]
#[cycle(in_loop)]
fn in_parts(name: &Name, parts: &[GenPart]) -> bool
    ensures { result ≡ s.in_parts name.now (bare_parts parts.now) }
{
    'each: for part in parts {
        if in_part(name, part) {
            return true;
        }
    }
    false
}
