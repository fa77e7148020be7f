//! The shape of what a statement gives to a directive round it: its parts, each with what is known of its loops.

ghost use Rattle.std.specs.Prelude.{◌≡◌, None, IfErr, IfOk, OnOk};
ghost use Rattle.c_tree.specs.BareOf.{bare_directive, bare_program, bare_stmt, bare_stmts};
ghost use Rattle.c_tree.specs.PlacedOf.{placed_stmt};
ghost use Rattle.c_tree.specs.WellFormed.{WellFormedDirective, WellFormedStmt, WellFormedStmts, WellFormedTops};
ghost use Rattle.canonical_nests.specs.Canonical.{program_defines};
ghost use Rattle.canonical_nests.specs.LoopRules.BreachSets.{least};
ghost use Rattle.loop_shapes.specs.Given.{directive_kinds, given_breaches, given_kinds, given_unlike};
ghost use Rattle.loop_shapes.specs.Seen.{visible_at};
ghost use Rattle.loop_shapes.specs.Shape.{IsFault, kinds_of};

use crate::affected::{first_taken, first_unlike};
use crate::seen::{Seen, scope_at};
use crate::shapes::{PartShape, Shape, ShapeFault};
use c_tree::tree::{Directive, Program, Stmt};
use canonical_nests::need::loops_asked;
use canonical_nests::rules::LoopBreach;
use loop_counts::part::Part;
use loop_counts::plan_kinds::plan_kinds;
use loop_counts::planned::planned;
use loop_counts::scope::Scope;
use loop_counts::shapes::{body_kinds, stmt_kinds};
use loop_structure::construct::{directive_breach, wanted_breach};
use std::alloc::{AllocError, Global};

/// These parts as a shape.
#[tactic(auto, using(crate::proofs::Shaped::parts))]
fn shaped(alloc: Global, parts: Vec<Part>) -> Result<Shape, AllocError>
    ensures { IfOk result (λ shape. kinds_of shape ≡ parts.items) }
{
    let mut all = Vec::new(alloc);
    'each: for part in parts {
        all.push(PartShape {
            loops: part.into_items(),
        })?;
    }
    Ok(Shape { parts: all })
}

/// The least breach of structure in what a statement gives.
fn given_breach(
    alloc: Global,
    stmt: &Stmt,
    need: u64,
    scope: &Scope,
) -> Result<Option<LoopBreach>, AllocError>
    requires { WellFormedStmt (bare_stmt stmt.now) }
    ensures { IfOk result (λ b. b ≡ least (given_breaches scope.now.defines need (placed_stmt stmt.now))) }
{
    match stmt {
        Stmt::Omp {
            directive,
            body,
            ..
        } => directive_breach(alloc, scope, body.as_slice(), directive, need),
        _ => wanted_breach(alloc, scope, stmt, need),
    }
}

/// The first affected loop of a statement that isn't canonical.
fn given_unlike(
    alloc: Global,
    stmt: &Stmt,
    need: u64,
    scope: &Scope,
) -> Result<Option<u64>, AllocError>
    requires { WellFormedStmt (bare_stmt stmt.now) }
    ensures { IfOk result (λ place. place ≡ given_unlike scope.now.defines need (placed_stmt stmt.now)) }
{
    match stmt {
        Stmt::Omp {
            directive,
            body,
            ..
        } => first_taken(alloc, body.as_slice(), directive, scope, need),
        _ => first_unlike(alloc, stmt, scope, need),
    }
}

/// The parts that a directive gives.
fn directive_parts(
    alloc: Global,
    body: &[Stmt],
    directive: &Directive,
    need: u64,
    scope: &mut Scope,
) -> Result<Vec<Part>, AllocError>
    requires body { WellFormedStmts (bare_stmts body.now) }
    requires directive { WellFormedDirective (bare_directive directive.now) }
    ensures { IfOk result (λ parts. parts.items ≡ directive_kinds scope.old.defines scope.old.state need (bare_directive directive.now) (bare_stmts body.now)) }
{
    let plan = planned(alloc, scope, directive)?;
    let asked = loops_asked(alloc, &plan, need)?;
    let found = body_kinds(alloc, body, directive.kind, asked, scope)?;
    plan_kinds(alloc, &plan, 0, found.as_slice())
}

/// The parts that a statement gives.
fn given_parts(
    alloc: Global,
    stmt: &Stmt,
    need: u64,
    scope: &mut Scope,
) -> Result<Vec<Part>, AllocError>
    requires { WellFormedStmt (bare_stmt stmt.now) }
    ensures { IfOk result (λ parts. parts.items ≡ given_kinds scope.old.defines scope.old.state need (bare_stmt stmt.now)) }
{
    match stmt {
        Stmt::Omp {
            directive,
            body,
            ..
        } => directive_parts(alloc, body.as_slice(), directive, need, scope),
        _ => stmt_kinds(alloc, stmt, need, scope),
    }
}

/// A fault where there is a breach, else where there is a loop that isn't canonical.
#[tactic(auto, using(crate::proofs::Shaped::places))]
fn without_fault(breach: Option<LoopBreach>, unlike: Option<u64>) -> Result<(), ShapeFault>
    ensures given { OnOk result ((breach ≡ None) × (unlike ≡ None)) }
    ensures fault { IfErr result (IsFault breach unlike) }
{
    if let Some(breach) = breach {
        return Err(ShapeFault::NoShape(breach.place));
    }
    if let Some(place) = unlike {
        return Err(ShapeFault::NotCanonical(place));
    }
    Ok(())
}

/// The shape of what a statement gives where so many loops are wanted of it, where this is visible.
fn shape_in(alloc: Global, stmt: &Stmt, need: u64, scope: &mut Scope) -> Result<Shape, ShapeFault>
    requires { WellFormedStmt (bare_stmt stmt.now) }
    ensures shape { IfOk result (λ shape. kinds_of shape ≡ given_kinds scope.old.defines scope.old.state need (bare_stmt stmt.now)) }
    ensures given { OnOk result ((least (given_breaches scope.old.defines need (placed_stmt stmt.now)) ≡ None) × (given_unlike scope.old.defines need (placed_stmt stmt.now) ≡ None)) }
    ensures fault { IfErr result (IsFault (least (given_breaches scope.old.defines need (placed_stmt stmt.now))) (given_unlike scope.old.defines need (placed_stmt stmt.now))) }
{
    let breach = given_breach(alloc, stmt, need, &*scope)?;
    let unlike = given_unlike(alloc, stmt, need, &*scope)?;
    without_fault(breach, unlike)?;
    let parts = given_parts(alloc, stmt, need, scope)?;
    let shape = shaped(alloc, parts)?;
    Ok(shape)
}

/// The parts that a `for` or a directive gives where so many loops are wanted of it, each loop with what is known of its
/// count (OpenMP 6.0, 6.4); a directive of which none is wanted is a construct by itself. The variables are those that are
/// visible at the statement's place, the innermost first; they give the type of each loop whose head doesn't declare its
/// variable, unless a head round it in the statement does. `NoShape` exactly where a directive that has to give loops breaks
/// a rule of structure, at the least such place; else `NotCanonical` exactly where an affected loop isn't canonical, at the
/// word `for` of the first such loop; `Memory` is want of memory.
pub fn shape(
    alloc: Global,
    program: &Program,
    vars: &[Seen],
    stmt: &Stmt,
    need: u64,
) -> Result<Shape, ShapeFault>
    requires program { WellFormedTops (bare_program program.now) }
    requires stmt { WellFormedStmt (bare_stmt stmt.now) }
    ensures shape { let at = visible_at (bare_program program.now) vars.now in
        IfOk result (λ shape. kinds_of shape ≡ given_kinds at.defines at.state need (bare_stmt stmt.now)) }
    ensures given { let ds = program_defines (bare_program program.now) in
        OnOk result ((least (given_breaches ds need (placed_stmt stmt.now)) ≡ None) × (given_unlike ds need (placed_stmt stmt.now) ≡ None)) }
    ensures fault { let ds = program_defines (bare_program program.now) in
        IfErr result (IsFault (least (given_breaches ds need (placed_stmt stmt.now))) (given_unlike ds need (placed_stmt stmt.now))) }
{
    let mut scope = scope_at(alloc, program, vars)?;
    shape_in(alloc, stmt, need, &mut scope)
}
