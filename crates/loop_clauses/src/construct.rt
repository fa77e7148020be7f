//! The clause rules of a construct: of its directive and of the directives that it takes.

ghost use Rattle.std.specs.Prelude.{◌≡◌, ◌<◌, IfOk};
ghost use Rattle.c_tree.specs.BareOf.{bare_directive, bare_stmt, bare_stmts};
ghost use Rattle.c_tree.specs.PlacedOf.{placed_directive, placed_stmt, placed_stmts};
ghost use Rattle.c_tree.specs.WellFormed.{WellFormedDirective, WellFormedStmt, WellFormedStmts};
ghost use Rattle.canonical_nests.specs.LoopRules.BreachSets.{least};
ghost use Rattle.canonical_nests.specs.LoopRules.Clauses as rules;
ghost use Rattle.canonical_nests.specs.LoopRules.Programs as programs;
ghost use Rattle.loop_clauses.specs.Taken.{wanted_clauses};

use crate::directive::directive_breach;
use c_tree::tree::{Directive, Stmt};
use canonical_nests::clauses::Constants;
use canonical_nests::directive_plan::loops_asked_by;
use canonical_nests::least::lesser;
use canonical_nests::rules::LoopBreach;
use std::alloc::{AllocError, Global};

/// The least breach by a well-formed directive.
#[tactic(auto, using(crate::proofs::TakenWalks::held))]
fn own_breach<C: Constants>(
    alloc: Global,
    constants: &C,
    directive: &Directive,
) -> Result<Option<LoopBreach>, AllocError>
    requires held { C.are_held constants.now }
    requires well_formed { WellFormedDirective (bare_directive directive.now) }
    ensures { IfOk result (λ b. b ≡ least (rules.directive_breaches (C.defines constants.now) (placed_directive directive.now))) }
{
    directive_breach(alloc, constants, directive)
}

/// The least breach of a clause rule by the directives that a directive takes, where it wants so many loops of a
/// statement, one at least.
#[cycle(stmt_breach)]
fn stmt_breach<C: Constants>(
    alloc: Global,
    constants: &C,
    stmt: &Stmt,
    wanted: u64,
) -> Result<Option<LoopBreach>, AllocError>
    requires held { C.are_held constants.now }
    requires well_formed { WellFormedStmt (bare_stmt stmt.now) }
    requires some { 0 < wanted }
    ensures { IfOk result (λ b. b ≡ least (wanted_clauses (C.defines constants.now) wanted (placed_stmt stmt.now))) }
{
    match stmt {
        Stmt::For { body, .. } => {
            let below = stmts_breach(alloc, constants, body.as_slice(), wanted - 1)?;
            Ok(below)
        }
        Stmt::Block { body, .. } => {
            let below = stmts_breach(alloc, constants, body.as_slice(), wanted)?;
            Ok(below)
        }
        Stmt::Omp {
            directive,
            body,
            ..
        } => {
            let own = own_breach(alloc, constants, directive)?;
            let asked = loops_asked_by(alloc, constants, directive, wanted)?;
            let below = stmts_breach(alloc, constants, body.as_slice(), asked)?;
            Ok(lesser(own, below))
        }
        Stmt::Decl { .. } => Ok(None),
        Stmt::Set { .. } => Ok(None),
        Stmt::Step { .. } => Ok(None),
        Stmt::Print { .. } => Ok(None),
        Stmt::Input { .. } => Ok(None),
        Stmt::If { no: None, .. } => Ok(None),
        Stmt::If { no: Some(_), .. } => Ok(None),
        Stmt::While { .. } => Ok(None),
        Stmt::Do { .. } => Ok(None),
        Stmt::Break { .. } => Ok(None),
        Stmt::Continue { .. } => Ok(None),
        Stmt::Empty { .. } => Ok(None),
        Stmt::Call { .. } => Ok(None),
    }
}

#[tactic(auto, using(crate::proofs::TakenWalks::taken_walks))]
#[cycle(stmt_breach)]
fn stmts_breach<C: Constants>(
    alloc: Global,
    constants: &C,
    stmts: &[Stmt],
    wanted: u64,
) -> Result<Option<LoopBreach>, AllocError>
    requires held { C.are_held constants.now }
    requires well_formed { WellFormedStmts (bare_stmts stmts.now) }
    ensures { IfOk result (λ b. b ≡ least (programs.taken_clauses_in (C.defines constants.now) wanted (placed_stmts stmts.now))) }
{
    if wanted == 0 {
        return Ok(None);
    }
    let mut found = None;
    'each: for stmt in stmts {
        let here = stmt_breach(alloc, constants, stmt, wanted)?;
        found = lesser(found, here);
    }
    Ok(found)
}

/// The least breach of a clause rule in a construct (L10 to L15, L17 to L19 and L23 to L25), by place and then by rule,
/// and `None` exactly where there is none: in its directive with all items, and in the directives that it takes. Other
/// constructs in its body are not looked at. It takes memory only for the numbers in clauses and for plans.
#[tactic(auto, using(crate::proofs::TakenWalks::taken_walks))]
pub fn construct_breach<C: Constants>(
    alloc: Global,
    constants: &C,
    directive: &Directive,
    body: &[Stmt],
) -> Result<Option<LoopBreach>, AllocError>
    requires held { C.are_held constants.now }
    requires directive { WellFormedDirective (bare_directive directive.now) }
    requires body { WellFormedStmts (bare_stmts body.now) }
    ensures { IfOk result (λ b. b ≡ least (programs.clause_breaches (C.defines constants.now) (placed_directive directive.now) (placed_stmts body.now))) }
{
    let own = own_breach(alloc, constants, directive)?;
    let asked = loops_asked_by(alloc, constants, directive, 0)?;
    let below = stmts_breach(alloc, constants, body, asked)?;
    Ok(lesser(own, below))
}
