//! What holds of programs that break no name rule.

ghost use Rattle.c_tree.specs.BareOf.{bare_program};
ghost use Rattle.c_soundness.specs.NameBreaches.{BreaksNone, BreachesWithoutPlaces};
ghost use Rattle.c_soundness.specs.NeverStuck.{NeverStuck, IsNeverStuck};

use c_tree::checked::Checked;

/// Whether a program breaks a name rule doesn't depend on the places of its tree, so of a bare tree too it can be said
/// that it breaks none.
pub fn breaches_without_places()
    ensures { BreachesWithoutPlaces }
{}

/// A run of a well-formed program that breaks no name rule and has no directive meets none of the answers that the
/// definitions have only to be total, at any bound: each name that is read, assigned or called is found, and has as many
/// subscripts or arguments as it was declared with.
pub fn never_stuck()
    ensures { NeverStuck }
{}

/// The bare tree of a checked program breaks no name rule, and so the program is never stuck.
pub fn checked_is_never_stuck(checked: &Checked)
    ensures breaks_none { BreaksNone (bare_program checked.now) }
    ensures never_stuck { IsNeverStuck (bare_program checked.now) }
{
    let _program = checked.program();
}
