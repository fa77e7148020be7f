//! The form of a loop's head (OpenMP 6.0, 6.4.1, canonical loop nest form): L2, L3 and L4.

ghost use Rattle.std.specs.Prelude.{◌≡◌, is_none};
ghost use Rattle.std.specs.Option.{option_map};
ghost use Rattle.c_tree.specs.BareOf.{bare_expr, bare_head, bare_stmt, maybe_stmt};
ghost use Rattle.c_tree.specs.PlacedOf.{placed_head};
ghost use Rattle.c_tree.specs.WellFormed.{WellFormedHead};
ghost use Rattle.c_semantics.specs.Loops.CanonicalForm as form;
ghost use Rattle.canonical_nests.specs.LoopRules.BreachSets.{least};
ghost use Rattle.canonical_nests.specs.LoopRules.Heads as rules;
ghost use Rattle.loop_counts.specs.Heads.{seen_init};

use c_tree::boxed::Boxed;
use c_tree::name::Name;
use c_tree::tree::{Expr, ForHead, Stmt};
use canonical_nests::least::breach_if;
use canonical_nests::rules::{LoopBreach, LoopRule};
use loop_counts::heads::{Init, canonical, init_of, test_part};
use loop_counts::scope::Scope;

/// The first part of a head, where it is canonical.
fn first_part<'p>(part: &'p Option<Boxed<Stmt>>) -> Option<Init<'p>>
    ensures { option_map seen_init result ≡ form.init (maybe_stmt (option_map bare_stmt part.now)) }
{
    match part {
        None => None,
        Some(stmt) => init_of(stmt.get()),
    }
}

fn has_no_test(name: &Name, test: &Option<Expr>) -> bool
    ensures { result ≡ is_none (form.test name.now (option_map bare_expr test.now)) }
{
    match test {
        None => true,
        Some(test) => test_part(name, test).is_none(),
    }
}

#[tactic(auto, using(crate::proofs::HeadForms::none_of_map))]
fn is_not_canonical(scope: &Scope, head: &ForHead) -> bool
    requires { WellFormedHead (bare_head head.now) }
    ensures { result ≡ is_none (form.canonical scope.now.defines (bare_head head.now)) }
{
    canonical(scope, head).is_none()
}

/// The breach of a head: of L2 where its first part isn't canonical, else of L3 where its test isn't, else of L4 where
/// its increment isn't or its step doesn't fit. `None` exactly where the head is canonical.
#[tactic(auto, using(crate::proofs::HeadForms::no_init))]
pub fn form_breach(scope: &Scope, head: &ForHead) -> Option<LoopBreach>
    requires { WellFormedHead (bare_head head.now) }
    ensures { result ≡ least (rules.form_breaches scope.now.defines (placed_head head.now)) }
{
    match first_part(&head.init) {
        None => breach_if(true, LoopRule::L2, head.init_at),
        Some(init) => {
            if has_no_test(init.var, &head.test) {
                return breach_if(true, LoopRule::L3, head.test_at);
            }
            breach_if(is_not_canonical(scope, head), LoopRule::L4, head.step_at)
        }
    }
}
