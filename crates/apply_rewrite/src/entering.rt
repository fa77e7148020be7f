//! What becomes visible where a walk enters functions and loops, and passes items.

ghost use Rattle.std.specs.Prelude.{◌≡◌, [], OnOk, map};
ghost use Rattle.std.specs.Option.{option_map};
ghost use Rattle.c_tree.specs.BareOf.{bare_param, bare_top};
ghost use Rattle.c_tree.specs.WellFormed.{WellFormedTop};
ghost use Rattle.c_semantics.specs.Meaning.FileVariables.{defines_with};
ghost use Rattle.c_scopes.specs.Laws.{scope_with};
ghost use Rattle.c_scopes.specs.Types.{with_params};
ghost use Rattle.loop_normal.specs.SourceOf.{source_of};
ghost use Rattle.carried_out.specs.CarriedOut.{scope_below};

use c_tree::tree::{Item, Param};
use loop_counts::scope::Scope;
use loop_normal::normal::OwnedLoop;
use std::alloc::AllocError;

/// What is visible in the body of a loop that a construct takes.
pub(crate) fn enter_loop(scope: &mut Scope, found: &Option<OwnedLoop>) -> Result<(), AllocError>
    ensures { OnOk result (scope.new ≡ record scope.old { state = scope_below scope.old.state (option_map source_of found.now) }) }
{
    match found {
        None => Ok(()),
        Some(found) => scope.declare(&found.var, found.ty),
    }
}

/// What is visible in a function with these parameters, the last one innermost.
#[tactic(auto, using(crate::proofs::Scopes::params))]
pub(crate) fn enter_params(scope: &mut Scope, params: &[Param]) -> Result<(), AllocError>
    ensures { OnOk result (scope.new ≡ record scope.old { state = with_params (map bare_param params.now) scope.old.state }) }
{
    'each: for param in params {
        scope.declare(&param.name, param.ty)?;
    }
    Ok(())
}

/// What is visible after an item of the file, outside functions: of two variables with one name the first is seen.
#[tactic(auto, using(crate::proofs::Scopes::filed))]
pub(crate) fn pass_item(scope: &mut Scope, item: &Item) -> Result<(), AllocError>
    requires well_formed { WellFormedTop (bare_top item.now) }
    requires outside { scope.old.state.frame ≡ [] }
    ensures { OnOk result (scope.new ≡ record {
      defines = defines_with scope.old.defines (bare_top item.now);
      state = scope_with scope.old.state (bare_top item.now);
    }) }
{
    match item {
        Item::Global { name, .. } => {
            if scope.variable_type(name).is_some() {
                return Ok(());
            }
            scope.add_item(item)?;
            Ok(())
        }
        Item::Define { .. } | Item::Extern { .. } | Item::Function { .. } | Item::Main { .. } => {
            scope.add_item(item)?;
            Ok(())
        }
    }
}
