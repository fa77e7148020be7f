//! Laws of the printed form.

ghost use Rattle.std.specs.Prelude.{◌≡◌, ℕ, List};
ghost use Rattle.c_tree.specs.Bare.{Program};
ghost use Rattle.c_tree.specs.Forget.{forget_program};
ghost use Rattle.c_tree.specs.Placed as placed;
ghost use Rattle.c_tree.specs.WellFormed.{WellFormed};
ghost use Rattle.c_lexer.specs.Cut.{Cut};
ghost use Rattle.c_lexer.specs.declared.token.Token.{Token};
ghost use Rattle.c_grammar.specs.Programs.{Spells};
ghost use Rattle.c_printer.specs.Programs.{printed};
ghost use Rattle.c_printer.specs.ReadsBack.{Reads};

/// The printed form of a well-formed program reads back as that program.
pub fn reads_back()
    ensures { (program : Program) → WellFormed program → Reads (printed program) program }
{}

/// A text reads as at most one program.
pub fn texts_read_as_one_program()
    ensures { (text : List ℕ) (this that : Program) → Reads text this → Reads text that → this ≡ that }
{}

/// What the tokens of a well-formed program's printed form spell is that program with other places, so printing it
/// again gives the same bytes.
pub fn prints_again_alike()
    ensures program { (program : Program) (tokens : List Token) (again : placed.Program) → WellFormed program → Cut (printed program) tokens → Spells again tokens
        → forget_program again ≡ program }
    ensures bytes { (program : Program) (tokens : List Token) (again : placed.Program) → WellFormed program → Cut (printed program) tokens → Spells again tokens
        → printed (forget_program again) ≡ printed program }
{}
