//! The statements that stand in a directive's body, one by one.

ghost use Rattle.std.specs.Prelude.{◌≡◌, ◌==◌, map, IfOk};
ghost use Rattle.std.specs.List.{list_any};
ghost use Rattle.c_tree.specs.BareOf.{bare_stmt, bare_stmts};
ghost use Rattle.c_tree.specs.PlacedOf.{placed_stmt};
ghost use Rattle.c_tree.specs.WellFormed.{WellFormedStmt, WellFormedStmts};
ghost use Rattle.canonical_nests.specs.LoopRules.BreachSets.{least};
ghost use Rattle.canonical_nests.specs.LoopRules.Structure as structure;

use crate::found::{Standing, stmt_depths};
use c_tree::tree::Stmt;
use canonical_nests::clauses::Constants;
use canonical_nests::least::{breach_if, lesser};
use canonical_nests::rules::{LoopBreach, LoopRule};
use std::alloc::{AllocError, Global};

/// Whether a statement is a `for` or a directive.
pub fn is_loop(stmt: &Stmt) -> bool
    ensures { result ≡ structure.is_loop (placed_stmt stmt.now) }
{
    match stmt {
        Stmt::For { .. } => true,
        Stmt::Omp { .. } => true,
        Stmt::Decl { .. } => false,
        Stmt::Set { .. } => false,
        Stmt::Step { .. } => false,
        Stmt::Print { .. } => false,
        Stmt::Input { .. } => false,
        Stmt::If { no: None, .. } => false,
        Stmt::If { no: Some(_), .. } => false,
        Stmt::While { .. } => false,
        Stmt::Do { .. } => false,
        Stmt::Block { .. } => false,
        Stmt::Break { .. } => false,
        Stmt::Continue { .. } => false,
        Stmt::Empty { .. } => false,
        Stmt::Call { .. } => false,
    }
}

/// The least breach where a member of a sequence is neither a `for` nor a directive (L20).
#[tactic(auto, using(crate::proofs::BodyWalks::bodies))]
pub fn member_breach(members: &[Stmt]) -> Option<LoopBreach>
    ensures { result ≡ least (structure.member_breaches (map placed_stmt members.now)) }
{
    let mut found = None;
    'each: for stmt in members {
        let wrong = !is_loop(stmt);
        found = lesser(found, breach_if(wrong, LoopRule::L20, stmt.span().start));
    }
    found
}

/// The depths of the parts of a statement, and none where it gives none.
#[tactic(auto, using(crate::proofs::BodyWalks::parts))]
pub fn parts_of<C: Constants>(
    alloc: Global,
    constants: &C,
    stmt: &Stmt,
) -> Result<Vec<u64>, AllocError>
    requires held { C.are_held constants.now }
    requires well_formed { WellFormedStmt (bare_stmt stmt.now) }
    ensures { IfOk result (λ parts. parts.items ≡ structure.parts_of (C.defines constants.now) (placed_stmt stmt.now)) }
{
    match stmt_depths(alloc, constants, stmt, Standing::Alone)? {
        None => Ok(Vec::new(alloc)),
        Some(parts) => Ok(parts),
    }
}

/// The depths of the parts of statements, one after another.
#[tactic(auto, using(crate::proofs::BodyWalks::bodies))]
pub fn parts_of_all<C: Constants>(
    alloc: Global,
    constants: &C,
    members: &[Stmt],
) -> Result<Vec<u64>, AllocError>
    requires held { C.are_held constants.now }
    requires well_formed { WellFormedStmts (bare_stmts members.now) }
    ensures { IfOk result (λ parts. parts.items ≡ structure.parts_of_all (C.defines constants.now) (map placed_stmt members.now)) }
{
    let mut all: Vec<u64> = Vec::new(alloc);
    'each: for stmt in members {
        let own = parts_of(alloc, constants, stmt)?;
        all.extend_from_slice(own.as_slice())?;
    }
    Ok(all)
}

/// Whether some part has no loop.
#[tactic(auto, using(crate::proofs::BodyWalks::bodies))]
pub fn has_zero(depths: &[u64]) -> bool
    ensures { result ≡ list_any (λ k. k == 0) depths.now }
{
    'each: for depth in depths {
        if *depth == 0 {
            return true;
        }
    }
    false
}
