//! Which programs are carried out.

ghost use Rattle.carried_admitted.specs.Laws.{AdmittedReversals};

/// A checked program that breaks no loop rule, and whose directives are all `reverse`, those of `apply` too, is one that is
/// carried out: each directive leads to one canonical loop whose variable has a type and that no `break` leaves.
pub fn admitted_reversals_are_carried_out()
    ensures { AdmittedReversals }
{}
