//! Worked examples: what some programs print, how they end, in how many turns of `for` loops, and the loops that their
//! constructs ask for.

ghost use Rattle.c_semantics.specs.Examples.ApplyClause.{ApplyClause};
ghost use Rattle.c_semantics.specs.Examples.Depths.{Depths};
ghost use Rattle.c_semantics.specs.Examples.FileVariables.{FileVariables};
ghost use Rattle.c_semantics.specs.Examples.Functions.{Functions};
ghost use Rattle.c_semantics.specs.Examples.OneLoop.{OneLoop};
ghost use Rattle.c_semantics.specs.Examples.SeveralLoops.{SeveralLoops};
ghost use Rattle.c_semantics.specs.Examples.Statements.{Statements};

/// Constructs over one loop: `reverse`, `tile`, `split` and `unroll`.
pub fn one_loop()
    ensures { OneLoop }
{}

/// Constructs over several loops, and directives on directives: `tile`, `interchange` and `fuse`.
pub fn several_loops()
    ensures { SeveralLoops }
{}

/// Directives that the clause `apply` puts on generated loops.
pub fn apply_clause()
    ensures { ApplyClause }
{}

/// Expressions, statements and traps.
pub fn statements()
    ensures { Statements }
{}

/// Calls of functions, and constructs in functions.
pub fn functions()
    ensures { Functions }
{}

/// The loops that directives need of their bodies, and the depths of the nests that they give.
pub fn depths()
    ensures { Depths }
{}

/// The file-scope variables that functions may read and may assign.
pub fn file_variables()
    ensures { FileVariables }
{}
