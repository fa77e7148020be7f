//! Breaches of loop rules in the order of their places, and then of their rules.

ghost use Rattle.std.specs.Prelude.{◌≡◌};
ghost use Rattle.canonical_nests.specs.LoopRules.BreachSets as order;
ghost use Rattle.canonical_nests.specs.LoopRules.BreachSets.{least, breach_if};

use crate::rules::{LoopBreach, LoopRule};

fn is_before(a: LoopBreach, b: LoopBreach) -> bool
    ensures { result ≡ order.is_before a b }
{
    a.place < b.place || (a.place == b.place && a.rule.number() <= b.rule.number())
}

/// The lesser of two breaches, of those that there are.
pub fn lesser(a: Option<LoopBreach>, b: Option<LoopBreach>) -> Option<LoopBreach>
    ensures { result ≡ order.lesser a b }
{
    match (a, b) {
        (None, b) => b,
        (Some(a), None) => Some(a),
        (Some(a), Some(b)) => { if is_before(a, b) { Some(a) } else { Some(b) } }
    }
}

/// A breach of the rule at the place, where the condition holds.
pub fn breach_if(broken: bool, rule: LoopRule, place: u64) -> Option<LoopBreach>
    ensures { result ≡ least (breach_if broken rule place) }
{
    if broken {
        Some(LoopBreach { place, rule })
    } else {
        None
    }
}
