//! Programs with their reverse constructs carried out.

ghost use Rattle.std.specs.Prelude.{◌≡◌, IfOk, OnOk, [], IsTrue, map, ℕ, List, ℤ};
ghost use Rattle.c_tree.specs.BareOf.{bare_param, bare_program, bare_stmts, bare_top};
ghost use Rattle.c_tree.specs.WellFormed.{WellFormedStmts, WellFormedTop, WellFormedTops};
ghost use Rattle.c_semantics.specs.Meaning.State.{nowhere};
ghost use Rattle.c_scopes.specs.Types.{with_params};
ghost use Rattle.c_semantics.specs.Meaning.Programs.{outcome, turns_of};
ghost use Rattle.c_semantics.specs.Structure.Skeleton.{skeleton};
ghost use Rattle.carried_out.specs.CarriedOut as c;
ghost use Rattle.apply_rewrite.specs.NoDirectives.{HoldsNoDirective};
ghost use Rattle.carried_out.specs.AllReverse.{all_reverse};
ghost use Rattle.apply_rewrite.specs.Rewritten.{ProgramRewritten};

use crate::carrying::carried_all;
use crate::entering::{enter_params, pass_item};
use c_tree::checked::Checked;
use c_tree::tree::{Item, ItemList, Param, Program, StmtList};
use canonical_nests::admitted::Admitted;
use loop_counts::scope::Scope;
use loop_normal::fresh::Fresh;
use std::alloc::{AllocError, Global};

/// The body of a function with these parameters, its constructs carried out.
#[tactic(auto, using(crate::proofs::Scopes::leaving))]
fn carried_body(
    alloc: Global,
    scope: &mut Scope,
    params: &[Param],
    body: StmtList,
    fresh: &mut Fresh,
) -> Result<StmtList, AllocError>
    requires { WellFormedStmts (bare_stmts body) }
    ensures tree { IfOk result (λ answer. bare_stmts answer ≡ (c.carried_all scope.old.defines (with_params (map bare_param params.now) scope.old.state) (bare_stmts body) fresh.old).tree) }
    ensures left { OnOk result (fresh.new ≡ (c.carried_all scope.old.defines (with_params (map bare_param params.now) scope.old.state) (bare_stmts body) fresh.old).left) }
    ensures scope { OnOk result (scope.new ≡ scope.old) }
{
    let len = scope.len();
    enter_params(scope, params)?;
    let body = carried_all(alloc, scope, body, fresh)?;
    scope.keep(len);
    Ok(body)
}

fn carried_item(
    alloc: Global,
    scope: &mut Scope,
    item: Item,
    fresh: &mut Fresh,
) -> Result<Item, AllocError>
    requires { WellFormedTop (bare_top item) }
    ensures tree { IfOk result (λ answer. bare_top answer ≡ (c.carried_top scope.old.defines scope.old.state (bare_top item) fresh.old).tree) }
    ensures left { OnOk result (fresh.new ≡ (c.carried_top scope.old.defines scope.old.state (bare_top item) fresh.old).left) }
    ensures scope { OnOk result (scope.new ≡ scope.old) }
{
    match item {
        Item::Function {
            name,
            name_span,
            params,
            body,
            span,
        } => {
            let body = carried_body(alloc, scope, params.as_slice(), body, fresh)?;
            Ok(Item::Function {
                name,
                name_span,
                params,
                body,
                span,
            })
        }
        Item::Main { body, span } => {
            let body = carried_all(alloc, scope, body, fresh)?;
            Ok(Item::Main { body, span })
        }
        other => Ok(other),
    }
}

/// Items with their constructs carried out, where no variable but those of the file is visible round them.
#[tactic(auto, using(crate::proofs::ItemMore::carrying_items, crate::proofs::Scopes::items))]
fn carried_from(
    alloc: Global,
    scope: &mut Scope,
    items: ItemList,
    fresh: &mut Fresh,
) -> Result<ItemList, AllocError>
    requires well_formed { WellFormedTops (map bare_top items) }
    requires outside { scope.old.state.frame ≡ [] }
    ensures { IfOk result (λ done. map bare_top done ≡ (c.carried_items scope.old.defines scope.old.state (map bare_top items) fresh.old).tree) }
{
    let mut done = ItemList::new(alloc);
    'each: for item in items.into_items() {
        pass_item(scope, &item)?;
        done.push(carried_item(alloc, scope, item, fresh)?)?;
    }
    Ok(done)
}

fn carried_items(alloc: Global, items: ItemList, fresh: &mut Fresh) -> Result<ItemList, AllocError>
    requires { WellFormedTops (map bare_top items) }
    ensures { IfOk result (λ done. map bare_top done ≡ (c.carried_items [] nowhere (map bare_top items) fresh.old).tree) }
{
    let mut scope = Scope::new(alloc);
    carried_from(alloc, &mut scope, items, fresh)
}

/// The program with its constructs carried out, inner ones first: each becomes a block (OpenMP 6.0, 11.1 and 11.5). Bodies
/// are moved.
///
/// Every directive is a `reverse`, and so is every item of `apply` but `nothing`. The answer has no directive. On every input
/// and at every bound on the turns it has the outcome and the turns of the source, and it has the loops and the body copies
/// that the source asks for. As a checked program it breaks no name rule and has height at most 256.
///
/// # Errors
///
/// `AllocError` where there is no memory for the answer.
pub fn rewrite(alloc: Global, source: Admitted) -> Result<Checked, AllocError>
    requires { IsTrue (all_reverse (bare_program source)) }
    ensures text { IfOk result (λ answer. bare_program answer ≡ c.carried_out (bare_program source)) }
    ensures rewritten { IfOk result (λ answer. ProgramRewritten [] nowhere (bare_program source) (bare_program answer)) }
    ensures plain { IfOk result (λ answer. HoldsNoDirective (bare_program answer)) }
    ensures outcome { IfOk result (λ answer. (n : ℕ) (input : List ℤ) → outcome n (bare_program answer) input ≡ outcome n (bare_program source) input) }
    ensures turns { IfOk result (λ answer. (n : ℕ) (input : List ℤ) → turns_of n (bare_program answer) input ≡ turns_of n (bare_program source) input) }
    ensures structure { IfOk result (λ answer. skeleton (bare_program answer) ≡ skeleton (bare_program source)) }
{
    let checked = source.into_checked();
    let mut fresh = Fresh::new(alloc, &checked)?;
    let Program { items } = checked.into_program();
    let items = carried_items(alloc, items, &mut fresh)?;
    Ok(Checked::new(Program { items }))
}
