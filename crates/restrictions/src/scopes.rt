//! What is visible in the bodies of loops.

ghost use Rattle.std.specs.Prelude.{◌≡◌, OnOk};
ghost use Rattle.c_tree.specs.BareOf.{bare_head};
ghost use Rattle.c_tree.specs.PlacedOf.{placed_head};
ghost use Rattle.c_tree.specs.WellFormed.{WellFormedHead};
ghost use Rattle.c_semantics.specs.Loops.CanonicalForm as form;
ghost use Rattle.canonical_nests.specs.LoopRules.Heads as rules;
ghost use Rattle.restrictions.specs.Walks.{for_state};

use c_tree::tree::ForHead;
use loop_counts::heads::canonical;
use loop_counts::scope::Scope;
use loop_counts::shapes::enter;
use loop_counts::trip::loop_type;
use std::alloc::AllocError;

/// Makes visible what is so in an affected loop with this head, whose variable is a private copy.
#[tactic(auto, using(crate::proofs::Visibility::entered))]
fn enter_affected(scope: &mut Scope, head: &ForHead) -> Result<(), AllocError>
    requires { WellFormedHead (bare_head head.now) }
    ensures { OnOk result (scope.new ≡ record scope.old { state = rules.scope_below scope.old.defines scope.old.state (rules.init_of (placed_head head.now)) (form.canonical scope.old.defines (bare_head head.now)) }) }
{
    match canonical(scope, head) {
        None => {
            enter(scope, head)?;
            Ok(())
        }
        Some(l) => {
            let ty = loop_type(scope, &l);
            scope.declare(l.var, ty)?;
            Ok(())
        }
    }
}

/// Makes visible what is so in a loop with this head, of which a directive round it wants so many loops.
#[tactic(auto, using(crate::proofs::Visibility::wanted))]
pub fn enter_loop(scope: &mut Scope, head: &ForHead, wanted: u64) -> Result<(), AllocError>
    requires { WellFormedHead (bare_head head.now) }
    ensures { OnOk result (scope.new ≡ record scope.old { state = for_state scope.old.defines scope.old.state wanted (placed_head head.now) }) }
{
    if wanted == 0 {
        enter(scope, head)?;
        return Ok(());
    }
    enter_affected(scope, head)?;
    Ok(())
}
