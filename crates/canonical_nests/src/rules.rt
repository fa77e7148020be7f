//! The loop rules of a program, and where a program breaks one.

/// A loop rule. A program that breaks one is refused. The rules stand for restrictions of OpenMP 6.0: the canonical form
/// of loop nests and loop sequences (6.4), the loop-transforming constructs (11.3 to 11.9) and the clause `apply`
/// (11.1); or they are this profile's own.
#[derive(Clone, Copy, Debug, PartialEq, Eq)]
pub enum LoopRule {
    /// What a directive stands before is no loop and no directive. (A construct is followed by a canonical loop nest, or
    /// for `fuse` by a canonical loop sequence.)
    L1,
    /// The first part of a loop's head isn't canonical. (Canonical loop nest form, init-expr.)
    L2,
    /// The test of a loop isn't canonical. (Canonical loop nest form, test-expr.)
    L3,
    /// The increment of a loop isn't canonical, or its step doesn't fit. (Canonical loop nest form, incr-expr.)
    L4,
    /// The variable of a loop is assigned in its body. (Canonical loop nest form: the variable is modified only by
    /// the increment.)
    L5,
    /// A bound reads what is assigned in the construct. (Canonical loop nest form: bounds are loop-invariant.)
    L6,
    /// The nest is less deep than the directive takes. (Canonical loop nest form, depth of the associated nest.)
    L7,
    /// A count depends on another loop. (The affected nest of `tile` and `interchange` is rectangular; that no nest of
    /// affected source loops may be another is this profile's own.)
    L8,
    /// A `break` would leave a loop. (Canonical loop nest form: no `break` that leaves an affected loop.)
    L9,
    /// A size isn't a positive constant. (The clause `sizes`; that sizes are constants is this profile's own.)
    L10,
    /// `tile` without `sizes`, or `split` without `counts`. (These clauses are required.)
    L11,
    /// A clause stands twice, or `full` with `partial`. (These clauses are unique, and exclude each other.)
    L12,
    /// A clause doesn't belong to the directive. (The clauses that each construct takes.)
    L13,
    /// A permutation isn't one of the numbers 1 to n, for n of at least 2. (The clause `permutation`.)
    L14,
    /// A factor isn't a positive constant. (The clause `partial`.)
    L15,
    /// A loop that is fully unrolled has no constant count. (The construct `unroll` with `full`.)
    L16,
    /// Not exactly one count is `omp_fill`. (The clause `counts`.)
    L17,
    /// A count isn't a constant of at least 0. (The clause `counts`; that counts are constants is this profile's own.)
    L18,
    /// A loop range isn't made of positive constants, or ends after the last loop. (The clause `looprange`.)
    L19,
    /// A member of a sequence is neither a loop nor a directive. (Canonical loop sequence form.)
    L20,
    /// A directive has several statements or several loops to act on. (A canonical loop nest is one loop.)
    L21,
    /// A directive finds no loop, since the directive before left none. (A construct takes generated loops.)
    L22,
    /// The modifier of `apply` isn't one of the directive's, is missing on `tile`, or an item is `fuse`. (The clause
    /// `apply`; that `fuse` is no item is this profile's own.)
    L23,
    /// There are more items than generated loops of that kind. (The clause `apply`.)
    L24,
    /// An index of `apply` isn't one of a generated loop, or a loop has two directives. (The clause `apply`.)
    L25,
    /// The translated program would be nested too deeply. (This profile's own.)
    L26,
    /// The translated program would be too large. (This profile's own.)
    L27,
    /// A call in the body of a loop may read the loop's variable. (This profile's own: the body has a private copy.)
    L28,
}

impl LoopRule {
    ghost use Rattle.std.specs.Prelude.{◌≡◌};
    ghost use Rattle.canonical_nests.specs.LoopRules.BreachSets.{rule_number};

    /// The number in the rule's name.
    pub fn number(&self) -> u8
        ensures { result ≡ rule_number self.now }
    {
        match self {
            LoopRule::L1 => 1,
            LoopRule::L2 => 2,
            LoopRule::L3 => 3,
            LoopRule::L4 => 4,
            LoopRule::L5 => 5,
            LoopRule::L6 => 6,
            LoopRule::L7 => 7,
            LoopRule::L8 => 8,
            LoopRule::L9 => 9,
            LoopRule::L10 => 10,
            LoopRule::L11 => 11,
            LoopRule::L12 => 12,
            LoopRule::L13 => 13,
            LoopRule::L14 => 14,
            LoopRule::L15 => 15,
            LoopRule::L16 => 16,
            LoopRule::L17 => 17,
            LoopRule::L18 => 18,
            LoopRule::L19 => 19,
            LoopRule::L20 => 20,
            LoopRule::L21 => 21,
            LoopRule::L22 => 22,
            LoopRule::L23 => 23,
            LoopRule::L24 => 24,
            LoopRule::L25 => 25,
            LoopRule::L26 => 26,
            LoopRule::L27 => 27,
            LoopRule::L28 => 28,
        }
    }
}

/// A loop rule that is broken, and the place of the breach: a byte offset in the text.
#[derive(Clone, Copy, Debug, PartialEq, Eq)]
pub struct LoopBreach {
    pub place: u64,
    pub rule: LoopRule,
}
