//! Worked examples of the loop rules: programs, each with the breach that it is refused by, or accepted.

ghost use Rattle.canonical_nests.specs.Examples.Functions.{Functions};
ghost use Rattle.canonical_nests.specs.Examples.OneDirective.{OneDirective};
ghost use Rattle.canonical_nests.specs.Examples.Shapes.{Shapes};
ghost use Rattle.canonical_nests.specs.Examples.Stacks.{Stacks};

/// Each rule once, by a directive over loops.
pub fn one_directive()
    ensures { OneDirective }
{}

/// Directives on directives, items at further positions, and how much a program may grow.
pub fn stacks()
    ensures { Stacks }
{}

/// Constructs whose loops call functions, and what bounds may read.
pub fn functions()
    ensures { Functions }
{}

/// The counts of the loops that directives give, weights, and the numbers of constructs.
pub fn shapes()
    ensures { Shapes }
{}
