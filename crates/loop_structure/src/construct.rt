//! The rules of structure of a construct: of its directive and of those that it takes.

ghost use Rattle.std.specs.Prelude.{◌≡◌, ◌<◌, IfOk};
ghost use Rattle.c_tree.specs.BareOf.{bare_directive, bare_stmt, bare_stmts};
ghost use Rattle.c_tree.specs.PlacedOf.{placed_directive, placed_stmt, placed_stmts};
ghost use Rattle.c_tree.specs.WellFormed.{WellFormedDirective, WellFormedStmt, WellFormedStmts};
ghost use Rattle.canonical_nests.specs.LoopRules.BreachSets.{least};
ghost use Rattle.canonical_nests.specs.LoopRules.Structure as structure;
ghost use Rattle.loop_structure.specs.Wanted.{first_of, directive_breaches, wanted_least};

use crate::bodies::body_breach;
use c_tree::tree::{Directive, Stmt};
use canonical_nests::clauses::Constants;
use canonical_nests::directive_plan::loops_asked_by;
use canonical_nests::least::lesser;
use canonical_nests::rules::LoopBreach;
use std::alloc::{AllocError, Global};

/// The first breach of those that there are, where the second counts only if the first is missing.
fn or_else(first: Option<LoopBreach>, second: Option<LoopBreach>) -> Option<LoopBreach>
    ensures { result ≡ first_of first second }
{
    match first {
        None => second,
        Some(breach) => Some(breach),
    }
}

/// The least breach of structure by the directives that a directive takes, where it wants so many loops of a statement,
/// one at least.
#[tactic(auto, using(crate::proofs::WantedWalks::wanted))]
#[cycle(stmt_breach)]
fn stmt_breach<C: Constants>(
    alloc: Global,
    constants: &C,
    stmt: &Stmt,
    wanted: u64,
) -> Result<Option<LoopBreach>, AllocError>
    requires held { C.are_held constants.now }
    requires well_formed { WellFormedStmt (bare_stmt stmt.now) }
    requires some { 0 < wanted }
    ensures { IfOk result (λ b. b ≡ wanted_least (C.defines constants.now) wanted (placed_stmt stmt.now)) }
{
    match stmt {
        Stmt::For { body, .. } => {
            let below = stmts_breach(alloc, constants, body.as_slice(), wanted - 1)?;
            Ok(below)
        }
        Stmt::Block { body, .. } => {
            let below = stmts_breach(alloc, constants, body.as_slice(), wanted)?;
            Ok(below)
        }
        Stmt::Omp {
            directive,
            body,
            ..
        } => {
            let breach = directive_breach(alloc, constants, body.as_slice(), directive, wanted)?;
            Ok(breach)
        }
        Stmt::Decl { .. } => Ok(None),
        Stmt::Set { .. } => Ok(None),
        Stmt::Step { .. } => Ok(None),
        Stmt::Print { .. } => Ok(None),
        Stmt::Input { .. } => Ok(None),
        Stmt::If { no: None, .. } => Ok(None),
        Stmt::If { no: Some(_), .. } => Ok(None),
        Stmt::While { .. } => Ok(None),
        Stmt::Do { .. } => Ok(None),
        Stmt::Break { .. } => Ok(None),
        Stmt::Continue { .. } => Ok(None),
        Stmt::Empty { .. } => Ok(None),
        Stmt::Call { .. } => Ok(None),
    }
}

/// The least breach of structure in the directives that have to give loops where a directive round a statement wants so
/// many of it, by place and then by rule, and `None` exactly where there is none.
#[tactic(auto, using(crate::proofs::WantedWalks::statements))]
pub fn wanted_breach<C: Constants>(
    alloc: Global,
    constants: &C,
    stmt: &Stmt,
    wanted: u64,
) -> Result<Option<LoopBreach>, AllocError>
    requires held { C.are_held constants.now }
    requires well_formed { WellFormedStmt (bare_stmt stmt.now) }
    ensures { IfOk result (λ b. b ≡ least (structure.stmt_breaches (C.defines constants.now) wanted (placed_stmt stmt.now))) }
{
    if wanted == 0 {
        return Ok(None);
    }
    let breach = stmt_breach(alloc, constants, stmt, wanted)?;
    Ok(breach)
}

#[tactic(auto, using(crate::proofs::WantedWalks::wanted_walks))]
#[cycle(stmt_breach)]
fn stmts_breach<C: Constants>(
    alloc: Global,
    constants: &C,
    stmts: &[Stmt],
    wanted: u64,
) -> Result<Option<LoopBreach>, AllocError>
    requires held { C.are_held constants.now }
    requires well_formed { WellFormedStmts (bare_stmts stmts.now) }
    ensures { IfOk result (λ b. b ≡ least (structure.stmts_breaches (C.defines constants.now) wanted (placed_stmts stmts.now))) }
{
    if wanted == 0 {
        return Ok(None);
    }
    let mut found = None;
    'each: for stmt in stmts {
        let here = stmt_breach(alloc, constants, stmt, wanted)?;
        found = lesser(found, here);
    }
    Ok(found)
}

/// The least breach of structure in a directive of which a directive round it wants so many loops, 0 where none does: in
/// the directives that it takes, else in its own (L1, L7 and L19 to L22).
#[tactic(auto, using(crate::proofs::WantedWalks::directives))]
#[cycle(stmt_breach)]
pub fn directive_breach<C: Constants>(
    alloc: Global,
    constants: &C,
    body: &[Stmt],
    directive: &Directive,
    wanted: u64,
) -> Result<Option<LoopBreach>, AllocError>
    requires held { C.are_held constants.now }
    requires body { WellFormedStmts (bare_stmts body.now) }
    requires directive { WellFormedDirective (bare_directive directive.now) }
    ensures { IfOk result (λ b. b ≡ least (directive_breaches (C.defines constants.now) wanted (placed_directive directive.now) (placed_stmts body.now))) }
{
    let asked = loops_asked_by(alloc, constants, directive, wanted)?;
    let below = stmts_breach(alloc, constants, body, asked)?;
    let own = body_breach(alloc, constants, directive, body)?;
    Ok(or_else(below, own))
}

/// The least breach of structure in a construct (L1, L7 and L19 to L22), by place and then by rule, and `None` exactly
/// where there is none: in the directives that it takes, else in its own. Other constructs in its body are not looked at.
pub fn construct_breach<C: Constants>(
    alloc: Global,
    constants: &C,
    directive: &Directive,
    body: &[Stmt],
) -> Result<Option<LoopBreach>, AllocError>
    requires held { C.are_held constants.now }
    requires directive { WellFormedDirective (bare_directive directive.now) }
    requires body { WellFormedStmts (bare_stmts body.now) }
    ensures { IfOk result (λ b. b ≡ least (structure.construct_breaches (C.defines constants.now) (placed_directive directive.now) (placed_stmts body.now))) }
{
    let breach = directive_breach(alloc, constants, body, directive, 0)?;
    Ok(breach)
}
