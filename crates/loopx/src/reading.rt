//! Reads the text that the source has left.

ghost use Rattle.std.specs.Prelude.{◌≡◌, ◌≤◌, ℕ, List, length, IfSome, IfOk, IfErr, OnOk, IsErrOf, MatchResult};
ghost use Rattle.c_lexer.specs.Cut.{Cut, IsFault};
ghost use Rattle.c_lexer.specs.Lines.{MapsLines};
ghost use Rattle.outside_io.specs.Bytes.{TakesAll};
ghost use Rattle.outside_io.specs.Faults.{Rose};
ghost use Rattle.loopx.specs.Answer.{greatest_length};
ghost use Rattle.loopx.specs.Told.{FitsEnd};

use c_lexer::token::{LexFault, Token};
use outside_io::{ReadEnd, Source, read_pieces};
use std::alloc::Global;
use translator::intake::Intake;
use translator::positions::Positions;

/// The most bytes of a text.
const GREATEST_LENGTH: u64 = 1 << 24;

/// The tokens of a text, or its first lexical fault, and the positions of its places.
#[derive(Drop)]
pub struct Text {
    pub cut: Result<Vec<Token>, LexFault>,
    pub positions: Positions,
}

/// Takes the text that the source has left, in pieces, so that it is never held whole.
pub fn read<S: Source>(alloc: Global, source: &mut S) -> Result<Text, ReadEnd>
    ensures read { IfOk result (λ text. (bytes : List ℕ) × (length bytes ≤ greatest_length) × MatchResult text.cut (λ tokens. Cut bytes tokens.items) (IsFault bytes) × MapsLines text.positions bytes × IfSome (S.left source.old) (λ left. bytes ≡ left)) }
    ensures whole { OnOk result (TakesAll (S.left source.old) (S.left source.new)) }
    ensures end { IfErr result (λ end. IfSome (S.left source.old) (FitsEnd end)) }
    ensures read_fault { IsErrOf result ReadEnd.ReadFault → Rose (S.faults source.old) (S.faults source.new) }
    ensures faults { S.faults source.old ≤ S.faults source.new }
{
    let mut intake = Intake::new(alloc);
    match read_pieces(source, GREATEST_LENGTH, &mut intake) {
        Ok(()) => {
            let (cut, positions) = intake.finish();
            Ok(Text { cut, positions })
        }
        Err(end) => Err(end),
    }
}
