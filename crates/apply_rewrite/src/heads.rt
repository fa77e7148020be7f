//! Loops that constructs take, with the types of their variables, taken out of their statements.

ghost use Rattle.std.specs.Prelude.{◌≡◌, IfOk};
ghost use Rattle.std.specs.Option.{option_map};
ghost use Rattle.c_tree.specs.BareOf.{bare_head};
ghost use Rattle.c_tree.specs.WellFormed.{WellFormedHead};
ghost use Rattle.canonical_nests.specs.Canonical.{seen_loop, test_op};
ghost use Rattle.loop_normal.specs.SourceOf.{source_of};
ghost use Rattle.loop_normal.specs.Laws.{source_loop};
ghost use Rattle.carried_out.specs.CarriedOut as c;

use c_tree::copy::copy_expr;
use c_tree::tree::{BinOp, ForHead, Ty};
use canonical_nests::canonical::{CanonLoop, Test};
use loop_counts::heads::canonical;
use loop_counts::scope::Scope;
use loop_normal::normal::OwnedLoop;
use std::alloc::{AllocError, Global};

fn operator(test: Test) -> BinOp
    ensures { result ≡ test_op test }
{
    match test {
        Test::Lt => BinOp::Lt,
        Test::Le => BinOp::Le,
        Test::Gt => BinOp::Gt,
        Test::Ge => BinOp::Ge,
        Test::Ne => BinOp::Ne,
    }
}

/// The parts of a loop whose variable has this type, copied.
fn copied(alloc: Global, found: CanonLoop, ty: Ty) -> Result<OwnedLoop, AllocError>
    ensures { IfOk result (λ head. source_of head ≡ source_loop (seen_loop found.entry) ty) }
{
    let var = found.var.copy(alloc)?;
    let lb = copy_expr(alloc, found.lb)?;
    let ub = copy_expr(alloc, found.ub)?;
    Ok(OwnedLoop {
        var,
        ty,
        lb,
        ub,
        test: operator(found.test),
        step: found.step,
    })
}

/// The type of a loop's variable: as its head declares it, else that of the variable which is visible there.
#[tactic(auto, using(crate::proofs::Scopes::typed))]
fn variable_type(scope: &Scope, found: &CanonLoop) -> Option<Ty>
    ensures { result ≡ c.variable_type scope.now.state (seen_loop found.now).ty (seen_loop found.now).var }
{
    match found.ty {
        Some(ty) => Some(ty),
        None => scope.variable_type(found.var),
    }
}

/// The parts of a loop with this head, where the head is canonical and its variable has a type.
pub(crate) fn typed_head(
    alloc: Global,
    scope: &Scope,
    head: &ForHead,
) -> Result<Option<OwnedLoop>, AllocError>
    requires { WellFormedHead (bare_head head.now) }
    ensures { IfOk result (λ found. option_map source_of found ≡ c.loop_at scope.now.defines scope.now.state (bare_head head.now)) }
{
    let found = match canonical(scope, head) {
        None => return Ok(None),
        Some(found) => found,
    };
    match variable_type(scope, &found) {
        None => Ok(None),
        Some(ty) => Ok(Some(copied(alloc, found, ty)?)),
    }
}
