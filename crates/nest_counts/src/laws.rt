//! What the kinds of counts say of the trees of a construct.

ghost use Rattle.nest_counts.specs.Laws.{AdmittedBodiesHaveKinds, AdmittedConstructsFind, AdmittedConstructsHaveKinds, AdmittedCountsHold, AdmittedNestsAreRectangular, ArgumentsOfRulesFit, AskedLoopsSuffice, BoundsAreInvariant, ConstructsHaveKinds, DeeperBodiesServe, DirectivesFindAsked, DirectivesKeepKinds, KnownCountsHold, LoopsGiveDepths, PermutationsAreOrders, RulesFindLoops, StatementsHaveLoops, StructureFindsLoops, TakenLoopsAreRectangular};

/// Where the count of a loop is known, every tree at its depth is a loop of that many turns.
pub fn known_counts_hold()
    ensures { KnownCountsHold }
{}

/// Loops one below another, none of which depends on another of them, are a nest that is as wide everywhere.
pub fn taken_loops_are_rectangular()
    ensures { TakenLoopsAreRectangular }
{}

/// Where a directive and its items find the loops that they take, and those of `tile` and `interchange` don't depend on one
/// another, the parts that they give have the kinds of counts that they give.
pub fn directives_keep_kinds()
    ensures { DirectivesKeepKinds }
{}

/// Where the directives of a construct find the loops that they take, and its loops are typed in the scope as in the state
/// of the entry, the parts that it runs have the kinds of counts by which the loop rules decide.
pub fn constructs_have_kinds()
    ensures { ConstructsHaveKinds }
{}

/// In a construct that breaks no rule of heads, no bound of an affected loop reads what the construct or a function that it
/// calls may assign, nor the variable of an affected loop round it.
pub fn bounds_are_invariant()
    ensures { BoundsAreInvariant }
{}

/// A directive finds what it takes where its arguments fit, it and its items find enough loops, and it breaks no rule of
/// counts.
pub fn rules_find_loops()
    ensures { RulesFindLoops }
{}

/// As many different numbers from 1 to n as n, and n isn't 0, are an order of n loops.
pub fn permutations_are_orders()
    ensures { PermutationsAreOrders }
{}

/// In a directive that breaks no rule of clauses, sizes are at least 1, a permutation is one, `split` has a count, no item
/// is `fuse`, and each item's arguments fit.
pub fn arguments_of_rules_fit()
    ensures { ArgumentsOfRulesFit }
{}

/// Over a part of which a directive and its items break no rule of structure, they find enough loops.
pub fn structure_finds_loops()
    ensures { StructureFindsLoops }
{}

/// Over deeper parts a directive and its items still find enough loops, and give as many parts, each no less deep.
pub fn deeper_bodies_serve()
    ensures { DeeperBodiesServe }
{}

/// Where a directive other than `fuse` gives parts as deep as is wanted of it, its body has the loops that it asks for, and
/// over any part that has as many it gives as many parts, each as deep as is wanted.
pub fn asked_loops_suffice()
    ensures { AskedLoopsSuffice }
{}

/// So a directive other than `fuse` and its items find the loops that they take in a part that has the loops that it asks
/// for, where they break no rule of counts there.
pub fn directives_find_asked()
    ensures { DirectivesFindAsked }
{}

/// A `for` or a directive gives loops where no directive that has to give loops breaks a rule of structure.
pub fn loops_give_depths()
    ensures { LoopsGiveDepths }
{}

/// A statement of which loops are wanted, which breaks no rule of clauses, structure and counts and gives parts as deep as is
/// wanted, has as many parts, each with the loops that are wanted.
pub fn statements_have_loops()
    ensures { StatementsHaveLoops }
{}

/// In a construct that breaks no loop rule, and whose loops are typed in its scope as in the state of the entry, each
/// directive that has to give loops finds what it takes.
pub fn admitted_constructs_find()
    ensures { AdmittedConstructsFind }
{}

/// So the parts that it runs have the kinds of counts by which the loop rules decide.
pub fn admitted_constructs_have_kinds()
    ensures { AdmittedConstructsHaveKinds }
{}

/// And so have the parts in its body, before its directive acts.
pub fn admitted_bodies_have_kinds()
    ensures { AdmittedBodiesHaveKinds }
{}

/// Where the count of a loop that it runs is known, every tree at its depth is a loop of that many turns.
pub fn admitted_counts_hold()
    ensures { AdmittedCountsHold }
{}

/// The loops that its `tile` or `interchange` takes are a nest that is as wide everywhere.
pub fn admitted_nests_are_rectangular()
    ensures { AdmittedNestsAreRectangular }
{}
