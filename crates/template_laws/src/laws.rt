//! Laws of the templates that the rewrites answer.

ghost use Rattle.template_laws.specs.Outlines.{CountKeepsOutline, LeafShowsOneMore, RebaseKeepsOutline, ReverseKeepsOutline, RoundShowsOneMore};
ghost use Rattle.template_laws.specs.Directives.{CountAddsNone, LeafAddsNone, RebaseAddsNone, ReverseAddsNone, RoundAddsNone};
ghost use Rattle.template_laws.specs.Forms.{CountKeepsForm, DrawnAreNames, LeafKeepsForm, RebaseKeepsForm, ReverseKeepsForm, RoundKeepsForm};
ghost use Rattle.template_laws.specs.NoBreaks.{CountStaysIn, LeafStaysIn, RebaseStaysIn, ReverseStaysIn, RoundStaysIn};
ghost use Rattle.template_laws.specs.Names.{CountBreaksNone, DrawnAreApart, LeafBreaksNone, RebaseBreaksNone, ReverseBreaksNone, RoundBreaksNone};
ghost use Rattle.template_laws.specs.Heights.{CountIsLow, LeafIsLow, RebaseIsLow, ReverseIsLow, RoundIsLow};

/// The loops and the leaves that code shows in the order of its text (OpenMP 6.0, 6.4.1: the loops of a canonical loop nest,
/// and 11: the loops that a loop-transforming construct generates). The normal form of a loop, alone or round a nest, shows
/// one `for` loop more. Code that is brought to begin at 0, given a known count, or reversed shows what it showed.
pub fn outlines_kept()
    ensures leaf { LeafShowsOneMore }
    ensures round { RoundShowsOneMore }
    ensures rebase { RebaseKeepsOutline }
    ensures count { CountKeepsOutline }
    ensures reverse { ReverseKeepsOutline }
{}

/// Code made of code that holds no directive holds none (OpenMP 6.0, 11: a construct is replaced by its generated loops).
pub fn no_directive_added()
    ensures leaf { LeafAddsNone }
    ensures round { RoundAddsNone }
    ensures rebase { RebaseAddsNone }
    ensures count { CountAddsNone }
    ensures reverse { ReverseAddsNone }
{}

/// Code made of well-formed code, and of names, is well formed (C11 A.2). A drawn name is a name (C11 6.4.2.1).
pub fn form_kept()
    ensures names { DrawnAreNames }
    ensures leaf { LeafKeepsForm }
    ensures round { RoundKeepsForm }
    ensures rebase { RebaseKeepsForm }
    ensures count { CountKeepsForm }
    ensures reverse { ReverseKeepsForm }
{}

/// How much higher the answer's list may be than what was given. The normal form of a loop is at most 2 higher than its body,
/// and that of a loop round a nest 5 higher than the nest; both are at most 1 higher than the bounds, or 8 high. A loop
/// from 0 is at most 1 higher than what it was made of, a new counter for a known count adds at most 1, and a reversal at
/// most 2, with the loop brought to begin at 0.
pub fn heights_added()
    ensures leaf { LeafIsLow }
    ensures round { RoundIsLow }
    ensures rebase { RebaseIsLow }
    ensures count { CountIsLow }
    ensures reverse { ReverseIsLow }
{}

/// No `break` leaves a loop of the answer where none would leave a loop round what was given (OpenMP 6.0, 6.4.1: no
/// statement leaves a canonical loop; C11 6.8.6.3).
pub fn no_loop_left()
    ensures leaf { LeafStaysIn }
    ensures round { RoundStaysIn }
    ensures rebase { RebaseStaysIn }
    ensures count { CountStaysIn }
    ensures reverse { ReverseStaysIn }
{}

/// Where the code that was given breaks no name rule, the answer breaks none in the same place, if the drawn names are new
/// there (C11 6.2.1 and 6.7). The bounds of a loop don't name its own counter (OpenMP 6.0, 6.4.1: they are loop invariant),
/// and the list below it doesn't declare that again. No name is drawn twice.
pub fn names_kept()
    ensures drawn { DrawnAreApart }
    ensures leaf { LeafBreaksNone }
    ensures round { RoundBreaksNone }
    ensures rebase { RebaseBreaksNone }
    ensures count { CountBreaksNone }
    ensures reverse { ReverseBreaksNone }
{}
