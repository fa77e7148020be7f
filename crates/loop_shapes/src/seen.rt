//! What is visible at a statement's place.

ghost use Rattle.std.specs.Prelude.{◌≡◌, ◌++◌, [], ◌∷◌, map, IfOk, OnOk};
ghost use Rattle.c_tree.specs.BareOf.{bare_program, bare_top};
ghost use Rattle.c_tree.specs.WellFormed.{WellFormedTop, WellFormedTops};
ghost use Rattle.c_semantics.specs.Meaning.State.{with_frame};
ghost use Rattle.canonical_nests.specs.Canonical.{program_defines};
ghost use Rattle.loop_shapes.specs.Seen.{variable_of, visible_at};

use c_tree::name::Name;
use c_tree::tree::{Item, Program, Ty};
use loop_counts::scope::Scope;
use std::alloc::{AllocError, Global};

/// A scalar variable that is visible.
#[derive(Debug, Drop)]
pub struct Seen {
    pub name: Name,
    pub ty: Ty,
}

/// Makes the define visible that an item is, if it is one.
fn add_define(scope: &mut Scope, item: &Item) -> Result<(), AllocError>
    requires { WellFormedTop (bare_top item.now) }
    ensures { OnOk result (scope.new ≡ record scope.old { defines = program_defines (bare_top item.now ∷ []) ++ scope.old.defines }) }
{
    match item {
        Item::Define { .. } => {
            scope.add_item(item)?;
            Ok(())
        }
        Item::Extern { .. } | Item::Global { .. } | Item::Function { .. } | Item::Main { .. } => {
            Ok(())
        }
    }
}

/// Makes the defines visible, the first one innermost.
#[tactic(auto, using(crate::proofs::Visibility::defines))]
fn add_defines(scope: &mut Scope, items: &[Item]) -> Result<(), AllocError>
    requires { WellFormedTops (map bare_top items.now) }
    ensures { OnOk result (scope.new ≡ record scope.old { defines = program_defines (map bare_top items.now) ++ scope.old.defines }) }
{
    let mut left = items.len();
    'each: while left > 0 {
        left -= 1;
        let item = &items[left];
        add_define(scope, item)?;
    }
    Ok(())
}

/// Makes variables visible, the first one innermost.
#[tactic(auto, using(crate::proofs::Visibility::variables))]
fn declare_all(scope: &mut Scope, vars: &[Seen]) -> Result<(), AllocError>
    ensures { OnOk result (scope.new ≡ record scope.old { state = with_frame (map variable_of vars.now ++ scope.old.state.frame) scope.old.state }) }
{
    let mut left = vars.len();
    'each: while left > 0 {
        left -= 1;
        let seen = &vars[left];
        scope.declare(&seen.name, seen.ty)?;
    }
    Ok(())
}

/// The defines of a program, of which the first of a name counts, and these variables, the innermost first.
#[tactic(auto, using(crate::proofs::Visibility::places))]
pub fn scope_at(alloc: Global, program: &Program, vars: &[Seen]) -> Result<Scope, AllocError>
    requires { WellFormedTops (bare_program program.now) }
    ensures { IfOk result (λ scope. scope ≡ visible_at (bare_program program.now) vars.now) }
{
    let mut scope = Scope::new(alloc);
    add_defines(&mut scope, program.items.as_slice())?;
    declare_all(&mut scope, vars)?;
    Ok(scope)
}
