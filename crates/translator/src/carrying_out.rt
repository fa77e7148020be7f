//! Programs with their directives carried out.

ghost use Rattle.std.specs.Prelude.{IfOk, IfErr};
ghost use Rattle.c_tree.specs.BareOf.{bare_program};
ghost use Rattle.c_tree.specs.PlacedOf.{placed_program};
ghost use Rattle.translator.specs.Answers.{IsUnbuilt, StandsFor};

use crate::first_unbuilt::first_unbuilt;
use crate::refusal::Refusal;
use apply_rewrite::rewrite::rewrite;
use c_tree::checked::Checked;
use c_tree::laws::places_only_are_forgotten;
use canonical_nests::admitted::Admitted;
use canonical_nests::first_directive::first_directive;
use std::alloc::Global;

/// The program with its directives carried out, which is itself where it has none.
///
/// # Errors
///
/// `NotBuilt` exactly where a directive or an item of `apply` isn't carried out yet, which is each other than `reverse` and
/// `nothing`: at the name of the first one. `Memory` where there is no memory for the answer.
#[tactic(auto, using(crate::proofs::CarryingOut::carrying_out))]
pub fn carry_out(alloc: Global, source: Admitted) -> Result<Checked, Refusal>
    ensures stands { IfOk result (λ checked. StandsFor (placed_program source) (bare_program checked)) }
    ensures refused { IfErr result (λ refusal. IsUnbuilt refusal (placed_program source)) }
{
    let program = source.checked().program();
    places_only_are_forgotten(program);
    if let Some(place) = first_unbuilt(program) {
        return Err(Refusal::NotBuilt(place));
    }
    if first_directive(program).is_none() {
        return Ok(source.into_checked());
    }
    let checked = rewrite(alloc, source)?;
    places_only_are_forgotten(checked.program());
    Ok(checked)
}
