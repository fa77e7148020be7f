//! The statements of a list, without a block that alone holds them.

ghost use Rattle.std.specs.Prelude.{◌≡◌, map};
ghost use Rattle.c_tree.specs.BareOf.{bare_stmts};
ghost use Rattle.c_tree.specs.PlacedOf.{placed_stmt, placed_stmts};
ghost use Rattle.c_tree.specs.WellFormed.{WellFormedStmts};
ghost use Rattle.canonical_nests.specs.LoopRules.Structure as structure;

use c_tree::tree::Stmt;

/// The statements of a list; where it holds only one block, those of the block.
#[tactic(auto, using(crate::proofs::Unwrapping::unwrapping))]
pub fn unwrapped(stmts: &[Stmt]) -> &[Stmt]
    requires { WellFormedStmts (bare_stmts stmts.now) }
    ensures list { map placed_stmt result.now ≡ structure.unwrapped (placed_stmts stmts.now) }
    ensures well_formed { WellFormedStmts (bare_stmts result.now) }
{
    if stmts.len() != 1 {
        return stmts;
    }
    match &stmts[0] {
        Stmt::Block { body, .. } => unwrapped(body.as_slice()),
        Stmt::Decl { .. } => stmts,
        Stmt::Set { .. } => stmts,
        Stmt::Step { .. } => stmts,
        Stmt::Print { .. } => stmts,
        Stmt::Input { .. } => stmts,
        Stmt::If { no: None, .. } => stmts,
        Stmt::If { no: Some(_), .. } => stmts,
        Stmt::While { .. } => stmts,
        Stmt::Do { .. } => stmts,
        Stmt::For { .. } => stmts,
        Stmt::Break { .. } => stmts,
        Stmt::Continue { .. } => stmts,
        Stmt::Empty { .. } => stmts,
        Stmt::Omp { .. } => stmts,
        Stmt::Call { .. } => stmts,
    }
}
