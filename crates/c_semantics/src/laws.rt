//! Laws of runs.

ghost use Rattle.c_semantics.specs.Laws.Bounds.{LinesGrow, OutcomeStays};
ghost use Rattle.c_semantics.specs.Laws.LeastNeed.{LeastNeed};
ghost use Rattle.c_semantics.specs.Laws.Apart.{RunsWithoutGlobal, RunsWithoutLocal, RunsWithoutUntouched};

/// An outcome that isn't cut off is the outcome at every greater bound, with the same turns of `for` loops.
pub fn greater_bounds()
    ensures { OutcomeStays }
{}

/// The lines at a bound begin the lines at every greater bound.
pub fn lines_at_greater_bounds()
    ensures { LinesGrow }
{}

/// Statements run alike with and without a variable of the innermost frame that they don't name.
pub fn unnamed_variable()
    ensures { RunsWithoutLocal }
{}

/// Statements run alike with and without a file-scope variable that they don't name, where the functions that they call
/// run alike.
pub fn unnamed_file_variable()
    ensures { RunsWithoutGlobal }
{}

/// Statements run alike with and without a file-scope variable that they don't name, and that is neither among those that
/// a function which they call may read nor among those that it may assign.
pub fn untouched_file_variable()
    ensures { RunsWithoutUntouched }
{}

/// What a directive asks of its body is the least number of loops with which each of its items finds the loops that it
/// takes and each of its parts is as deep as is wanted, and none where there is no such number.
pub fn least_need()
    ensures { LeastNeed }
{}
