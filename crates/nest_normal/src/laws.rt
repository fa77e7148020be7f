//! Laws of nests.

ghost use Rattle.nest_normal.specs.Outlines.{CountsAreNotShown, NestsAreShown};
ghost use Rattle.nest_normal.specs.Laws.{CountedDenotes, CountedIsSteady, CountedNestDenotes, CountedWithin, HidesItsVariables, InnermostDenotes, LeafIsNest, NestDenotes, RoundDenotes, RoundIsTemplate};

/// A nest hides exactly the names of its loops' variables; a loop whose variable it doesn't hide is put round it by the
/// template.
pub fn texts_of_nests()
    ensures hides { HidesItsVariables }
    ensures template { RoundIsTemplate }
{}

/// The innermost loop of a nest denotes the loop over its body, or the trap of its entry, within any outer loops: for each
/// test, with steps up and down.
pub fn innermost_denotes()
    ensures nest { LeafIsNest }
    ensures denotes { InnermostDenotes }
{}

/// A loop round a nest denotes the loop over what the nest denotes; else the trap of its entry, else that of the nest's.
/// Its variable may be hidden by one of the nest.
pub fn round_denotes()
    ensures { RoundDenotes }
{}

/// A nest within no loop denotes as a Gen what it denotes.
pub fn nest_denotes()
    ensures { NestDenotes }
{}

/// Where the loops at a depth of a nest have a known count, the nest with that count as their end, and without the
/// declarations that nothing reads any more, denotes the same; so does a Gen of one nest. A nest whose loop begins at the
/// literal 0 stays steady, and denotes the same within outer loops.
pub fn counted_denotes()
    ensures nest { CountedNestDenotes }
    ensures code { CountedDenotes }
    ensures steady { CountedIsSteady }
    ensures within { CountedWithin }
{}

/// The normal form of a nest shows one `for` loop for each of its loops, in their order, and the leaves of the body once; a
/// known count changes nothing of it.
pub fn outlines_kept()
    ensures nests { NestsAreShown }
    ensures counts { CountsAreNotShown }
{}
