//! The rules of counts of a directive over given parts (OpenMP 6.0, 11: `tile` and `interchange` take a rectangular
//! nest, `unroll` with `full` a constant count): L8 of the loops that it takes, and L16.

ghost use Rattle.std.specs.Prelude.{◌≡◌, ◌==◌, ◌&&◌, not, is_none, map, IfOk};
ghost use Rattle.std.specs.List.{list_any};
ghost use Rattle.canonical_nests.specs.Kinds as kinds;
ghost use Rattle.canonical_nests.specs.LoopRules.BreachSets.{least};
ghost use Rattle.canonical_nests.specs.LoopRules.Counts as rules;
ghost use Rattle.canonical_nests.specs.Plans.{seen_transformation, seen_plan, seen_item, gather};

use crate::known::known_count;
use crate::part::{Part, beyond, part_at, up_to};
use crate::plan_kinds::{place_of, placed_kinds};
use crate::transformed::transformed_kinds;
use canonical_nests::depths::sum;
use canonical_nests::least::{breach_if, lesser};
use canonical_nests::nest::CountKind;
use canonical_nests::plan::{Applied, Plan, Transformation};
use canonical_nests::rules::{LoopBreach, LoopRule};
use std::alloc::{AllocError, Global};

fn is_among_taken(round: u64, taken: u64, position: u64) -> bool
    ensures { result ≡ rules.is_among_taken round taken position }
{
    round < position && position - round <= taken
}

#[tactic(auto, using(crate::proofs::Dependences::dependences))]
fn any_taken(round: u64, taken: u64, own: u64, positions: &[u64]) -> bool
    ensures { result ≡ list_any (λ p. rules.is_among_taken round taken p && not (p == own)) positions.now }
{
    'each: for position in positions {
        if is_among_taken(round, taken, *position) && *position != own {
            return true;
        }
    }
    false
}

/// Whether the loop at a position depends on another of those that are taken.
fn depends_on_taken(round: u64, taken: u64, own: u64, kind: &CountKind) -> bool
    ensures { result ≡ rules.depends_on_taken round taken own kind.now }
{
    match kind {
        CountKind::Depends(positions) => any_taken(round, taken, own, positions.as_slice()),
        CountKind::Known(_) | CountKind::Entry => false,
    }
}

/// Whether one of the loops from a position on depends on another of those that are taken.
#[tactic(auto, using(crate::proofs::Dependences::dependences))]
fn some_depends(round: u64, taken: u64, first: u64, part: &[CountKind]) -> Result<bool, AllocError>
    ensures { IfOk result (λ b. b ≡ rules.some_depends round taken first part.now) }
{
    let mut own = first;
    'each: for kind in part {
        if depends_on_taken(round, taken, own, kind) {
            return Ok(true);
        }
        own = sum(own, 1)?;
    }
    Ok(false)
}

/// Whether the count of one of so many loops depends on another of them.
fn depend_on_another(round: u64, taken: u64, part: &[CountKind]) -> Result<bool, AllocError>
    ensures { IfOk result (λ b. b ≡ rules.depend_on_another round taken part.now) }
{
    some_depends(
        round,
        taken,
        sum(round, 1)?,
        up_to(beyond(part, round), taken),
    )
}

/// Whether the count of the loop below so many others is known.
#[tactic(auto, using(crate::proofs::Dependences::counts))]
fn is_known(round: u64, part: &[CountKind]) -> bool
    ensures { result ≡ not (is_none (kinds.known_count (kinds.kind_at part.now round))) }
{
    round < part.len() as u64 && known_count(&part[round as usize]).is_some()
}

/// The breach of a transformation that stands at a place, below so many loops of the first part.
fn taken_breach(
    c: &Transformation,
    at: u64,
    round: u64,
    parts: &[Part],
) -> Result<Option<LoopBreach>, AllocError>
    ensures { IfOk result (λ breach. breach ≡ least (rules.taken_breaches (seen_transformation c.now) at round parts.now)) }
{
    let part = part_at(parts, 0);
    match c {
        Transformation::Tile(sizes) => {
            let taken = sizes.len() as u64;
            Ok(breach_if(depend_on_another(round, taken, part)?, LoopRule::L8, at))
        }
        Transformation::Interchange(permutation) => {
            let taken = permutation.len() as u64;
            Ok(breach_if(depend_on_another(round, taken, part)?, LoopRule::L8, at))
        }
        Transformation::UnrollFull => Ok(breach_if(!is_known(round, part), LoopRule::L16, at)),
        Transformation::Reverse
        | Transformation::Split(_)
        | Transformation::Fuse(_)
        | Transformation::UnrollPartial(_) => Ok(None),
    }
}

/// The least breach of a directive over these parts, below so many loops of the first, and of its items.
#[cycle(plan_breach)]
pub fn plan_breach(
    alloc: Global,
    plan: &Plan,
    round: u64,
    parts: &[Part],
) -> Result<Option<LoopBreach>, AllocError>
    ensures { IfOk result (λ breach. breach ≡ least (rules.plan_breaches (seen_plan plan.now) round parts.now)) }
{
    let own = taken_breach(&plan.transformation, plan.place, round, parts)?;
    let given = transformed_kinds(alloc, &plan.transformation, round, parts)?;
    let items = items_breach(
        alloc,
        &plan.transformation,
        plan.items.as_slice(),
        round,
        given,
    )?;
    Ok(lesser(own, items))
}

#[tactic(auto, using(crate::proofs::ItemBreaches::item_breaches))]
#[cycle(plan_breach)]
fn items_breach(
    alloc: Global,
    c: &Transformation,
    items: &[Applied],
    round: u64,
    given: Vec<Part>,
) -> Result<Option<LoopBreach>, AllocError>
    ensures { IfOk result (λ breach. breach ≡ least (rules.items_breaches (seen_transformation c.now) (gather (map seen_item items.now)) round given.items)) }
{
    let mut parts = given;
    let mut found = None;
    'each: for item in items {
        let place = place_of(c, item.position);
        let inside = sum(round, place.below)?;
        let here = plan_breach(
            alloc,
            &item.plan,
            inside,
            beyond(parts.as_slice(), place.part),
        )?;
        found = lesser(found, here);
        parts = placed_kinds(alloc, &item.plan, place, round, parts.as_slice())?;
    }
    Ok(found)
}
