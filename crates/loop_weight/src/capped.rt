//! Weights up to the cap: one more than the greatest weight that a program with directives may have stands for any
//! greater one.

ghost use Rattle.std.specs.Prelude.{◌≡◌, ◌+◌, ◌*◌};
ghost use Rattle.canonical_nests.specs.Weight.{capped_weight};

/// One more than the greatest weight that a program with directives may have.
pub const CAP: u64 = 0x10_0001;

/// A number, or the cap for any greater one.
pub fn capped(n: u64) -> u64
    ensures { result ≡ capped_weight n }
{
    n.min(CAP)
}

pub fn plus(a: u64, b: u64) -> u64
    ensures { result ≡ capped_weight (a + b) }
{
    a.saturating_add(b).min(CAP)
}

#[tactic(auto, using(crate::proofs::Caps::caps))]
pub fn times(a: u64, b: u64) -> u64
    ensures { result ≡ capped_weight (a * b) }
{
    a.saturating_mul(b).min(CAP)
}
