//! Whether the directives of a program can be carried out.

ghost use Rattle.std.specs.Prelude.{◌≡◌, IfErr, IfOk, OnOk};
ghost use Rattle.c_tree.specs.BareOf.{bare_program};
ghost use Rattle.c_tree.specs.PlacedOf.{placed_program};
ghost use Rattle.c_tree.specs.WellFormed.{WellFormedTops};
ghost use Rattle.canonical_nests.specs.Admitted.{BreaksNone};
ghost use Rattle.canonical_nests.specs.LoopRules.BreachSets.{least, or_else};
ghost use Rattle.canonical_nests.specs.LoopRules.Programs as programs;
ghost use Rattle.restrictions.specs.Admission.{IsLeast};

use crate::height::height_breach;
use crate::program::program_breach;
use c_tree::checked::Checked;
use c_tree::tree::Program;
use canonical_nests::admitted::Admitted;
use canonical_nests::rules::{LoopBreach, LoopRule};
use loop_weight::weight::weight_breach;
use std::alloc::{AllocError, Global};

/// Why a program isn't admitted.
#[derive(Clone, Copy, Debug, PartialEq, Eq)]
pub enum Breach {
    /// A loop rule is broken, and where: a byte offset in the text. It is the least breach of L1 to L25 and L28 by place
    /// and then by the number of the rule, else that of L26, else that of L27.
    At(LoopRule, u64),
    /// There isn't enough memory.
    Memory,
}

/// The breach of L26, else of L27.
#[tactic(auto, using(crate::proofs::Tiers::tiers))]
fn size_breach(alloc: Global, program: &Program) -> Result<Option<LoopBreach>, AllocError>
    requires { WellFormedTops (bare_program program.now) }
    ensures { IfOk result (λ b. let first = programs.first_directive (placed_program program.now) in
        b ≡ least (or_else (programs.height_breaches first (placed_program program.now)) (programs.weight_breaches first (placed_program program.now)))) }
{
    match height_breach(program) {
        Some(breach) => Ok(Some(breach)),
        None => {
            let below = weight_breach(alloc, program)?;
            Ok(below)
        }
    }
}

/// The breach that a well-formed program is refused by, and `None` exactly where there is none.
#[tactic(auto, using(crate::proofs::Tiers::tiers))]
fn least_breach(alloc: Global, program: &Program) -> Result<Option<LoopBreach>, AllocError>
    requires { WellFormedTops (bare_program program.now) }
    ensures { IfOk result (λ b. b ≡ least (programs.breaches (placed_program program.now))) }
{
    match program_breach(alloc, program)? {
        Some(breach) => Ok(Some(breach)),
        None => {
            let below = size_breach(alloc, program)?;
            Ok(below)
        }
    }
}

/// The program as an admitted one, with the same tree, exactly where it breaks no loop rule. `At` is exactly the breach
/// that the program is refused by: the least of L1 to L25 and L28, else L26, else L27.
#[tactic(auto, using(canonical_nests::proofs::Order::has_none))]
pub fn admit(alloc: Global, checked: Checked) -> Result<Admitted, Breach>
    ensures same { IfOk result (λ admitted. admitted ≡ checked) }
    ensures admitted { OnOk result (BreaksNone checked) }
    ensures refused { IfErr result (λ breach. IsLeast breach (placed_program checked)) }
{
    match least_breach(alloc, checked.program()) {
        Err(_) => Err(Breach::Memory),
        Ok(None) => Ok(Admitted::new(checked)),
        Ok(Some(breach)) => Err(Breach::At(breach.rule, breach.place)),
    }
}
