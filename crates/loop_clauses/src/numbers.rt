//! Lists of numbers: which differ, and which are shared.

ghost use Rattle.std.specs.Prelude.{◌≡◌, IfOk};
ghost use Rattle.canonical_nests.specs.LoopRules.Clauses as rules;

use std::alloc::{AllocError, Global};

/// Whether a number is among others.
#[tactic(auto, using(crate::proofs::NumberLists::number_lists))]
pub fn is_in(number: u64, among: &[u64]) -> bool
    ensures { result ≡ rules.is_in number among.now }
{
    'each: for other in among {
        if number == *other {
            return true;
        }
    }
    false
}

/// Whether each number stands once.
#[tactic(auto, using(crate::proofs::NumberLists::number_lists))]
pub fn all_different(numbers: &[u64]) -> bool
    ensures { result ≡ rules.all_different numbers.now }
{
    'each: for (i, number) in numbers.iter().enumerate() {
        if is_in(*number, &numbers[i + 1..]) {
            return false;
        }
    }
    true
}

/// Whether some number is in both lists.
#[tactic(auto, using(crate::proofs::NumberLists::number_lists))]
pub fn shares(numbers: &[u64], others: &[u64]) -> bool
    ensures { result ≡ rules.shares numbers.now others.now }
{
    'each: for number in numbers {
        if is_in(*number, others) {
            return true;
        }
    }
    false
}

/// The numbers from 1 on, so many.
#[tactic(auto, using(crate::proofs::NumberLists::number_lists))]
pub fn one_to(alloc: Global, count: usize) -> Result<Vec<u64>, AllocError>
    ensures { IfOk result (λ numbers. numbers.items ≡ rules.one_to count) }
{
    let mut numbers = Vec::new(alloc);
    'each: for i in 0..count {
        numbers.push(i as u64 + 1)?;
    }
    Ok(numbers)
}
