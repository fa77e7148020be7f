//! The top call: what the words ask for.

ghost use Rattle.std.specs.Prelude.{◌≡◌, ◌≢◌, ◌⊎◌, ◌≤◌, IfSome, map, string_bytes};
ghost use Rattle.outside_io.specs.Bytes.{Gains, GainsPrefix, TakesAll};
ghost use Rattle.outside_io.specs.Faults.{Rose};
ghost use Rattle.loopx.specs.Answer.{usage_line, IsFinished, FitsText, GainsOutput, GainsPart, GainsLine, GainsPartOfLine, IsComplete};
ghost use Rattle.loopx.specs.Words as commands;
ghost use Rattle.loopx.specs.Words.{AskForNothing, Asks};
ghost use Rattle.loopx.specs.declared.status.Status.{Status};

use crate::command::{Command, asked};
use crate::running::run_source;
use crate::status::Status;
use crate::told::{Told, tell};
use crate::translating::translate_source;
use outside_io::{Sink, Source};
use std::alloc::Global;

/// Runs the program: does with the text of the source what the words after the program's name ask for, or says on `diag`
/// why not.
///
/// `translate` writes the translated text to `out`; `run BOUND [NUMBER ...]` writes the lines that the translated program
/// prints. The answers are told by the status and, but for `Done`, by one line on `diag`. The first that applies is given:
/// the words are in no list (nothing is read), the source can't be read or is longer than 2^24 bytes, the text is refused,
/// the run is trapped or cut off. A failed write makes the status `WriteFault`, whatever was on the way. Want of memory
/// may come at any text.
pub fn run<S: Source, O: Sink, E: Sink>(
    alloc: Global,
    words: &[String],
    source: &mut S,
    out: &mut O,
    diag: &mut E,
) -> Status
    // Words outside the lists: nothing is read or written but the usage line, and no memory is taken.
    ensures usage { result ≡ Status.Usage → AskForNothing (map string_bytes words.now) }
    ensures only_usage { AskForNothing (map string_bytes words.now) → (result ≡ Status.Usage) ⊎ (result ≡ Status.WriteFault) }
    ensures unread { AskForNothing (map string_bytes words.now) → (source.new ≡ source.old) × (out.new ≡ out.old) }
    ensures usage_told { AskForNothing (map string_bytes words.now) → result ≢ Status.WriteFault → Gains (E.held diag.old) (E.held diag.new) usage_line }
    ensures usage_part { AskForNothing (map string_bytes words.now) → result ≡ Status.WriteFault → GainsPrefix (E.held diag.old) (E.held diag.new) usage_line }

    // The causes of the other answers.
    ensures read_fault { result ≡ Status.ReadFault → Rose (S.faults source.old) (S.faults source.new) }
    ensures write_fault { result ≡ Status.WriteFault → Rose (O.faults out.old) (O.faults out.new) ⊎ Rose (E.faults diag.old) (E.faults diag.new) }
    ensures text { (command : commands.Command) → Asks (map string_bytes words.now) command → IfSome (S.left source.old) (FitsText command result) }
    ensures read_whole { IsFinished result ⊎ (result ≡ Status.Refused) → TakesAll (S.left source.old) (S.left source.new) }

    // Where nothing failed, what is accepted is translated or run, unless there is no memory.
    ensures complete { (command : commands.Command) → Asks (map string_bytes words.now) command → ¬ Rose (S.faults source.old) (S.faults source.new)
        → ¬ Rose (O.faults out.old) (O.faults out.new) → ¬ Rose (E.faults diag.old) (E.faults diag.new)
        → IfSome (S.left source.old) (IsComplete command result) }

    // What is written: all of it where the command is carried out, a first part of it where a write failed or memory was
    // wanting in a run, and else nothing.
    ensures written { (command : commands.Command) → Asks (map string_bytes words.now) command → IsFinished result → IfSome (S.left source.old) (GainsOutput command (O.held out.old) (O.held out.new)) }
    ensures part { (command : commands.Command) → Asks (map string_bytes words.now) command → (result ≡ Status.WriteFault) ⊎ (result ≡ Status.Memory) → IfSome (S.left source.old) (GainsPart command (O.held out.old) (O.held out.new)) }
    ensures kept { (result ≡ Status.Refused) ⊎ (result ≡ Status.ReadFault) ⊎ (result ≡ Status.TooLong) → out.new ≡ out.old }
    ensures kept_without_memory { Asks (map string_bytes words.now) commands.translate → result ≡ Status.Memory → out.new ≡ out.old }

    // What is told: the answer's line, or a first part of one where a write failed.
    ensures told { (command : commands.Command) → Asks (map string_bytes words.now) command → result ≢ Status.WriteFault → IfSome (S.left source.old) (GainsLine command result (E.held diag.old) (E.held diag.new)) }
    ensures told_part { (command : commands.Command) → Asks (map string_bytes words.now) command → result ≡ Status.WriteFault → IfSome (S.left source.old) (GainsPartOfLine command (E.held diag.old) (E.held diag.new)) }

    // A count of faults never falls.
    ensures source_faults { S.faults source.old ≤ S.faults source.new }
    ensures out_faults { O.faults out.old ≤ O.faults out.new }
    ensures diag_faults { E.faults diag.old ≤ E.faults diag.new }
{
    match asked(words) {
        None => tell(diag, Told::Usage),
        Some(Command::Translate) => translate_source(alloc, source, out, diag),
        Some(Command::Run { bound, numbers }) => {
            run_source(alloc, bound, numbers, source, out, diag)
        }
    }
}
