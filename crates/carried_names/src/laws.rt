//! The name rules of a carried-out program.

ghost use Rattle.carried_names.specs.Laws.{AdmittedCarriedOutBreaksNone, AdmittedHaveBoundsApart, CarriedOutBreaksNone};

/// A well-formed program that breaks no name rule, and none of whose affected loops names in a bound the variable that its
/// head declares, breaks none when its reverse constructs are carried out: each name that the generated code reads, assigns
/// or calls is visible there and means what it meant, each fresh name is declared once in its block, and each function
/// keeps its depth.
pub fn carried_out_breaks_none()
    ensures { CarriedOutBreaksNone }
{}

/// A program that breaks none of the loop rules L1 to L25 and L28, and whose directives only reverse, has no affected loop
/// that names in a bound the variable that its head declares.
pub fn admitted_have_bounds_apart()
    ensures { AdmittedHaveBoundsApart }
{}

/// An admitted program whose directives only reverse breaks no name rule when they are carried out.
pub fn admitted_carried_out_breaks_none()
    ensures { AdmittedCarriedOutBreaksNone }
{}
