//! The loop rules of the constructs in a whole program.

ghost use Rattle.std.specs.Prelude.{◌≡◌, [], map, IfOk, OnOk};
ghost use Rattle.c_tree.specs.BareOf.{bare_program, bare_top};
ghost use Rattle.c_tree.specs.PlacedOf.{placed_program, placed_top};
ghost use Rattle.c_tree.specs.WellFormed.{WellFormedTop, WellFormedTops};
ghost use Rattle.c_semantics.specs.Meaning.FileVariables as files;
ghost use Rattle.canonical_nests.specs.LoopRules.BreachSets.{least};
ghost use Rattle.canonical_nests.specs.LoopRules.Programs as programs;
ghost use Rattle.restrictions.specs.Alike.{Alike};

use crate::items::item_breach;
use c_tree::tree::{Item, Program};
use canonical_nests::least::lesser;
use canonical_nests::rules::LoopBreach;
use loop_counts::scope::Scope;
use loop_heads::access_walk::function_access;
use loop_heads::functions::Functions;
use std::alloc::{AllocError, Global};

/// Makes known what a function reads and assigns, where this is visible before it. Other items leave all as it was.
#[tactic(auto, using(crate::proofs::Accesses::added))]
fn add_function(
    alloc: Global,
    item: &Item,
    functions: &mut Functions,
    scope: &Scope,
) -> Result<(), AllocError>
    requires { WellFormedTop (bare_top item.now) }
    ensures { OnOk result (Alike (files.accesses_with scope.now.defines functions.old (bare_top item.now)) functions.new) }
{
    match item {
        Item::Function {
            name,
            params,
            body,
            ..
        } => {
            let touched = function_access(
                alloc,
                params.as_slice(),
                body.as_slice(),
                &*functions,
                scope,
            )?;
            functions.add(name, touched)?;
            Ok(())
        }
        Item::Define { .. } | Item::Extern { .. } | Item::Global { .. } | Item::Main { .. } => Ok(
            (),
        ),
    }
}

/// The least breach of the constructs in items, each by the first tier of rules that it breaks, where no variable but
/// those of the file is visible round them. `None` exactly where there is none.
#[tactic(auto, using(crate::proofs::Programs::programs))]
fn items_breach(
    alloc: Global,
    items: &[Item],
    functions: &mut Functions,
    scope: &mut Scope,
) -> Result<Option<LoopBreach>, AllocError>
    requires well_formed { WellFormedTops (map bare_top items.now) }
    requires outside { scope.old.state.frame ≡ [] }
    ensures { IfOk result (λ b. b ≡ least (programs.breaches_from scope.old.defines functions.old scope.old.state (map placed_top items.now))) }
{
    let mut found = None;
    'each: for item in items {
        let here = item_breach(alloc, item, &*functions, scope)?;
        add_function(alloc, item, functions, &*scope)?;
        scope.add_item(item)?;
        found = lesser(found, here);
    }
    Ok(found)
}

/// The least breach of the constructs in a well-formed program (L1 to L25 and L28), each by the first tier of rules that
/// it breaks. `None` exactly where there is none.
pub fn program_breach(alloc: Global, program: &Program) -> Result<Option<LoopBreach>, AllocError>
    requires { WellFormedTops (bare_program program.now) }
    ensures { IfOk result (λ b. b ≡ least (programs.nest_breaches (placed_program program.now))) }
{
    let mut scope = Scope::new(alloc);
    let mut functions = Functions::new(alloc);
    items_breach(alloc, program.items.as_slice(), &mut functions, &mut scope)
}
