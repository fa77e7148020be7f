//! The name rules of a whole program.

ghost use Rattle.std.specs.Prelude.{◌≡◌, ◌≤◌, IfErr, IfOk, OnOk, map};
ghost use Rattle.c_tree.specs.BareOf.{bare_top, bare_program};
ghost use Rattle.c_tree.specs.PlacedOf.{placed_top, placed_program};
ghost use Rattle.c_tree.specs.Height.{program_height};
ghost use Rattle.c_tree.specs.WellFormed.{WellFormed, WellFormedTops};
ghost use Rattle.c_tree.specs.Checked.{most_height};
ghost use Rattle.c_tree.specs.NameRules.Programs.{breaches};
ghost use Rattle.c_tree.specs.NameRules.BreachSets.{HasNone, least};
ghost use Rattle.c_types.specs.Answers.{NamesLeast};

use crate::items::item_breach;
use crate::known::Table;
use crate::least::lesser;
use c_tree::checked::Checked;
use c_tree::name_rule::{Breach, NameRule};
use c_tree::tree::{Item, Program};
use std::alloc::{AllocError, Global};

/// Why a program has no checked form.
#[derive(Clone, Copy, Debug, PartialEq, Eq)]
pub enum CheckFault {
    /// A name rule is broken, and where: a byte offset in the text. It is the least breach by place, and then by the
    /// number of the rule.
    At(NameRule, u64),
    /// There isn't enough memory.
    Memory,
}

/// The least breach in the items of a program.
#[tactic(auto, using(crate::proofs::Programs::programs))]
fn first_breach(alloc: Global, items: &[Item]) -> Result<Option<Breach>, AllocError>
    requires { WellFormedTops (map bare_top items.now) }
    ensures { IfOk result (λ breach. breach ≡ least (breaches (map placed_top items.now))) }
{
    let mut known = Table::new(alloc);
    let mut breach = None;
    'each: for item in items {
        let found = item_breach(&mut known, item)?;
        breach = lesser(breach, found);
    }
    Ok(breach)
}

/// The program as a checked one, with the same tree, exactly where it breaks no name rule. A program is well formed and
/// has height at most 256. `At` is exactly the least breach of the rules N1 to N12, by place and then by number.
#[tactic(auto, using(crate::proofs::Programs::programs))]
pub fn check(alloc: Global, program: Program) -> Result<Checked, CheckFault>
    requires well_formed { WellFormed (bare_program program) }
    requires height { program_height (bare_program program) ≤ most_height }
    ensures same { IfOk result (λ checked. checked ≡ program) }
    ensures no_breach { OnOk result (HasNone (breaches (placed_program program))) }
    ensures least { IfErr result (λ fault. NamesLeast (breaches (placed_program program)) fault) }
{
    match first_breach(alloc, program.items.as_slice()) {
        Err(_) => Err(CheckFault::Memory),
        Ok(None) => Ok(Checked::new(program)),
        Ok(Some(breach)) => Err(CheckFault::At(breach.rule, breach.place)),
    }
}
