//! Laws over the definitions alone. Each stands on a function that does nothing.

ghost use Rattle.std.specs.Prelude.{◌≡◌};
ghost use Rattle.c_tree.specs.BareOf.{bare_program};
ghost use Rattle.c_tree.specs.PlacedOf.{placed_program};
ghost use Rattle.c_tree.specs.Forget.{forget_program};

use crate::tree::Program;

/// The bare tree of a program is what is left of its tree with places when the places are forgotten. So a rule that
/// is stated over places and a meaning that is stated over bare trees speak of one program.
#[tactic(auto, using(crate::proofs::Forgotten::forgotten))]
pub fn places_only_are_forgotten(program: &Program)
    ensures { bare_program program.now ≡ forget_program (placed_program program.now) }
{}
