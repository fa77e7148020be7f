//! How high the translation of a program may be.

ghost use Rattle.std.specs.Prelude.{◌≡◌};
ghost use Rattle.c_tree.specs.PlacedOf.{placed_program};
ghost use Rattle.canonical_nests.specs.LoopRules.BreachSets.{least};
ghost use Rattle.canonical_nests.specs.LoopRules.Programs as programs;

use c_tree::tree::Program;
use canonical_nests::first_directive::first_directive;
use canonical_nests::least::breach_if;
use canonical_nests::rules::{LoopBreach, LoopRule};
use canonical_nests::tall_height::tall_height;

/// The greatest tall height of a program that is translated.
const MOST_HEIGHT: u64 = 256;

/// The breach of a program with directives whose tall height is above 256 (L26), at the first directive's name, and
/// `None` exactly where there is none. It takes no memory.
#[tactic(auto, using(crate::proofs::Heights::heights))]
pub fn height_breach(program: &Program) -> Option<LoopBreach>
    ensures { result ≡ least (programs.height_breaches (programs.first_directive (placed_program program.now)) (placed_program program.now)) }
{
    match first_directive(program) {
        None => None,
        Some(place) => breach_if(MOST_HEIGHT < tall_height(program), LoopRule::L26, place),
    }
}
