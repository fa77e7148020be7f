//! The height of a carried-out program.

ghost use Rattle.carried_heights.specs.Laws.{AdmittedCarriedOutIsLow, CarriedOutIsNoHigher};

/// A program whose constructs are carried out is no higher than the tall height of the source, in which each directive
/// makes its construct higher by 12 and by the loops that it generates.
pub fn carried_out_is_no_higher()
    ensures { CarriedOutIsNoHigher }
{}

/// An admitted program is no higher than a program may be when its constructs are carried out.
pub fn admitted_carried_out_is_low()
    ensures { AdmittedCarriedOutIsLow }
{}
