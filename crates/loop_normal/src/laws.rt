//! Laws of generated code.

ghost use Rattle.loop_normal.specs.DrawnNames.{DrawnIsUntaken, DrawnOnce};
ghost use Rattle.loop_normal.specs.Laws.{BlocksRun, LeafDenotes, RebasedDenotes, FixedDenotes};

/// The block of a Gen does what the trees do that it denotes: in every state, with the same lines, variables, input, turns
/// and end, at every bound on the turns.
pub fn blocks_run()
    ensures { BlocksRun }
{}

/// The normal form of a canonical loop denotes the loop over its body, or the trap of its entry: for each test, with steps
/// up and down.
pub fn leaf_denotes()
    ensures { LeafDenotes }
{}

/// A loop that is brought to begin at 0 denotes what it denoted.
pub fn rebased_denotes()
    ensures { RebasedDenotes }
{}

/// A loop whose count is known denotes the same with that count as its end.
pub fn fixed_denotes()
    ensures { FixedDenotes }
{}

/// A drawn name isn't taken, and is none that is drawn later.
pub fn drawn_names_are_new()
    ensures untaken { DrawnIsUntaken }
    ensures once { DrawnOnce }
{}
