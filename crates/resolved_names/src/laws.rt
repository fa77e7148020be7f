//! Laws of renamed programs.

ghost use Rattle.resolved_names.specs.RenamedRuns.{RenamedRunsAlike};

/// A program without directives, renamed by a renaming that keeps different names different, has the same run on every
/// input and at every bound, with its variables renamed: the same lines, end and turns, and the same input left.
pub fn renamed_runs_alike()
    ensures { RenamedRunsAlike }
{}
