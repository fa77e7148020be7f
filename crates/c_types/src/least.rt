//! Breaches in the order of their places, and then of their rules.

ghost use Rattle.std.specs.Prelude.{◌≡◌};
ghost use Rattle.c_tree.specs.NameRules.BreachSets as order;
ghost use Rattle.c_tree.specs.NameRules.BreachSets.{least};
ghost use Rattle.c_tree.specs.NameRules.Breaches.{breach_if};

use c_tree::name_rule::{Breach, NameRule};

fn is_before(a: Breach, b: Breach) -> bool
    ensures { result ≡ order.is_before a b }
{
    a.place < b.place || (a.place == b.place && a.rule.number() <= b.rule.number())
}

/// The lesser of two breaches, of those that there are.
pub fn lesser(a: Option<Breach>, b: Option<Breach>) -> Option<Breach>
    ensures { result ≡ order.lesser a b }
{
    match (a, b) {
        (None, b) => b,
        (Some(a), None) => Some(a),
        (Some(a), Some(b)) => { if is_before(a, b) { Some(a) } else { Some(b) } }
    }
}

/// A breach of the rule at the place, where the condition holds.
pub fn breach_if(broken: bool, rule: NameRule, place: u64) -> Option<Breach>
    ensures { result ≡ least (breach_if broken rule place) }
{
    if broken {
        Some(Breach { place, rule })
    } else {
        None
    }
}
