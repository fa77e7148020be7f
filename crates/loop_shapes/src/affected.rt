//! The affected loops of a statement, and the first of them that isn't canonical.

ghost use Rattle.std.specs.Prelude.{◌≡◌, ◌<◌, IfOk};
ghost use Rattle.c_tree.specs.BareOf.{bare_directive, bare_head, bare_stmt, bare_stmts};
ghost use Rattle.c_tree.specs.PlacedOf.{placed_directive, placed_head, placed_stmt, placed_stmts};
ghost use Rattle.c_tree.specs.Forget.{forget_head};
ghost use Rattle.c_tree.specs.WellFormed.{WellFormedDirective, WellFormedHead, WellFormedStmt, WellFormedStmts};
ghost use Rattle.c_semantics.specs.Loops.CanonicalForm as form;
ghost use Rattle.loop_shapes.specs.Affected as affected;
ghost use Rattle.loop_shapes.specs.Affected.{unless_canonical};

use c_tree::tree::{Directive, ForHead, Stmt};
use canonical_nests::directive_plan::loops_asked_by;
use loop_counts::heads::canonical;
use loop_counts::scope::Scope;
use std::alloc::{AllocError, Global};

/// The place, where the head isn't canonical.
#[tactic(auto, using(crate::proofs::FirstUnlike::heads))]
fn unless_canonical(scope: &Scope, head: &ForHead, place: u64) -> Option<u64>
    requires { WellFormedHead (bare_head head.now) }
    ensures { result ≡ unless_canonical (form.canonical scope.now.defines (forget_head (placed_head head.now))) place }
{
    match canonical(scope, head) {
        None => Some(place),
        Some(_) => None,
    }
}

/// The word `for` of the first affected loop that isn't canonical, in a statement of which so many loops are wanted, one
/// at least.
#[cycle(first_in)]
fn first_in(
    alloc: Global,
    stmt: &Stmt,
    scope: &Scope,
    wanted: u64,
) -> Result<Option<u64>, AllocError>
    requires well_formed { WellFormedStmt (bare_stmt stmt.now) }
    requires some { 0 < wanted }
    ensures { IfOk result (λ place. place ≡ affected.first_in scope.now.defines wanted (placed_stmt stmt.now)) }
{
    match stmt {
        Stmt::For { head, body, span } => {
            let below = first_among(alloc, body.as_slice(), scope, wanted - 1)?;
            let own = unless_canonical(scope, head, span.start);
            Ok(own.or(below))
        }
        Stmt::Block { body, .. } => {
            let below = first_among(alloc, body.as_slice(), scope, wanted)?;
            Ok(below)
        }
        Stmt::Omp {
            directive,
            body,
            ..
        } => {
            let below = first_taken(alloc, body.as_slice(), directive, scope, wanted)?;
            Ok(below)
        }
        Stmt::Decl { .. }
        | Stmt::Set { .. }
        | Stmt::Step { .. }
        | Stmt::Print { .. }
        | Stmt::Input { .. }
        | Stmt::If { no: None, .. }
        | Stmt::If { no: Some(_), .. }
        | Stmt::While { .. }
        | Stmt::Do { .. }
        | Stmt::Break { .. }
        | Stmt::Continue { .. }
        | Stmt::Empty { .. }
        | Stmt::Call { .. } => Ok(None),
    }
}

/// The first in what a directive takes of which a directive round it wants so many loops, 0 where none does.
#[cycle(first_in)]
pub fn first_taken(
    alloc: Global,
    body: &[Stmt],
    directive: &Directive,
    scope: &Scope,
    wanted: u64,
) -> Result<Option<u64>, AllocError>
    requires body { WellFormedStmts (bare_stmts body.now) }
    requires directive { WellFormedDirective (bare_directive directive.now) }
    ensures { IfOk result (λ place. place ≡ affected.first_taken scope.now.defines wanted (placed_directive directive.now) (placed_stmts body.now)) }
{
    let asked = loops_asked_by(alloc, scope, directive, wanted)?;
    let place = first_among(alloc, body, scope, asked)?;
    Ok(place)
}

/// The first among statements, of each of which so many loops are wanted.
#[tactic(auto, using(crate::proofs::FirstUnlike::lists))]
#[cycle(first_in)]
fn first_among(
    alloc: Global,
    stmts: &[Stmt],
    scope: &Scope,
    wanted: u64,
) -> Result<Option<u64>, AllocError>
    requires { WellFormedStmts (bare_stmts stmts.now) }
    ensures { IfOk result (λ place. place ≡ affected.first_among scope.now.defines wanted (placed_stmts stmts.now)) }
{
    if wanted == 0 {
        return Ok(None);
    }
    'each: for stmt in stmts {
        let here = first_in(alloc, stmt, scope, wanted)?;
        if let Some(place) = here {
            return Ok(Some(place));
        }
    }
    Ok(None)
}

/// The word `for` of the first loop that isn't canonical, of those that are affected where so many loops are wanted.
#[tactic(auto, using(crate::proofs::FirstUnlike::wanted))]
pub fn first_unlike(
    alloc: Global,
    stmt: &Stmt,
    scope: &Scope,
    wanted: u64,
) -> Result<Option<u64>, AllocError>
    requires { WellFormedStmt (bare_stmt stmt.now) }
    ensures { IfOk result (λ place. place ≡ affected.first_unlike scope.now.defines wanted (placed_stmt stmt.now)) }
{
    if wanted == 0 {
        return Ok(None);
    }
    let place = first_in(alloc, stmt, scope, wanted)?;
    Ok(place)
}
