//! The command that runs.

ghost use Rattle.std.specs.Prelude.{◌≡◌, ◌≢◌, ◌⊎◌, ◌≤◌, ℤ, List, true, length, IfSome, IfOk, IfErr, OnOk, OnErr, Err, map, string_bytes};
ghost use Rattle.c_tree.specs.BareOf.{bare_program};
ghost use Rattle.c_semantics.specs.Meaning.Programs.{outcome};
ghost use Rattle.c_meaning.specs.Ends.{finish_of};
ghost use Rattle.c_meaning.specs.Plain.{is_plain};
ghost use Rattle.c_meaning.specs.Running.{lines_text};
ghost use Rattle.outside_io.specs.Bytes.{Gains, GainsPrefix, TakesAll};
ghost use Rattle.outside_io.specs.Faults.{Rose};
ghost use Rattle.translator.specs.Answers.{IsAccepted, IsTranslatedTree};
ghost use Rattle.loopx.specs.Answer.{greatest_length, IsFinished, FitsText, GainsOutput, GainsPart, GainsLine, GainsPartOfLine};
ghost use Rattle.loopx.specs.Told.{told_status, FitsTold, IsOfSource};
ghost use Rattle.loopx.specs.Words.{run, AllNumbers, AreNumbers};
ghost use Rattle.loopx.specs.declared.status.Status.{Status};

use crate::command::numbers;
use crate::reading::{Text, read};
use crate::status::Status;
use crate::told::{Told, refused, tell, unread};
use c_meaning::interpret::interpret;
use c_meaning::run::{RunEnd, RunFault};
use c_tree::checked::Checked;
use outside_io::{Sink, Source};
use std::alloc::Global;
use translator::tree::cut_tree;

/// The translated program of the text that the source has left, or what is told in its place.
fn program<S: Source>(alloc: Global, source: &mut S) -> Result<Checked, Told>
    ensures plain { IfOk result (λ checked. is_plain (bare_program checked) ≡ true) }
    ensures tree { IfOk result (λ checked. IfSome (S.left source.old) (λ text.
        (length text ≤ greatest_length) × IsAccepted text × IsTranslatedTree text (bare_program checked))) }
    ensures told { IfErr result (λ told. IfSome (S.left source.old) (FitsTold told)) }
    ensures of_source { IfErr result IsOfSource }
    ensures read_fault { IfErr result (λ told. told_status told ≡ Status.ReadFault → Rose (S.faults source.old) (S.faults source.new)) }
    ensures whole { OnOk result (TakesAll (S.left source.old) (S.left source.new)) }
    ensures refused_whole { IfErr result (λ told. told_status told ≡ Status.Refused → TakesAll (S.left source.old) (S.left source.new)) }
    ensures faults { S.faults source.old ≤ S.faults source.new }
{
    let Text { cut, positions } = match read(alloc, source) {
        Ok(text) => text,
        Err(end) => return Err(unread(end)),
    };
    match cut_tree(alloc, cut) {
        Ok(checked) => Ok(checked),
        Err(refusal) => Err(refused(alloc, &positions, refusal)),
    }
}

/// Runs the program on the input that the words spell. What it prints goes to `out`.
fn run_on<O: Sink>(
    alloc: Global,
    checked: &Checked,
    bound: u64,
    words: &[String],
    out: &mut O,
) -> Result<RunEnd, RunFault>
    requires plain { is_plain (bare_program checked.now) ≡ true }
    requires numbers { AllNumbers (map string_bytes words.now) }
    ensures lines { (input : List ℤ) → AreNumbers (map string_bytes words.now) input →
        OnOk result (Gains (O.held out.old) (O.held out.new) (lines_text (outcome bound (bare_program checked.now) input).lines)) }
    ensures end { (input : List ℤ) → AreNumbers (map string_bytes words.now) input →
        IfOk result (λ end. finish_of end ≡ (outcome bound (bare_program checked.now) input).end) }
    ensures part { (input : List ℤ) → AreNumbers (map string_bytes words.now) input →
        OnErr result (GainsPrefix (O.held out.old) (O.held out.new) (lines_text (outcome bound (bare_program checked.now) input).lines)) }
    ensures failed { result ≡ Err RunFault.WriteFault → Rose (O.faults out.old) (O.faults out.new) }
    ensures faults { O.faults out.old ≤ O.faults out.new }
{
    let input = match numbers(alloc, words) {
        Ok(input) => input,
        Err(_) => return Err(RunFault::Memory),
    };
    match interpret(alloc, checked, bound, input.as_slice(), out) {
        Ok(run) => Ok(run.end),
        Err(fault) => Err(fault),
    }
}

/// Reads the source whole, and writes the lines that the translated program of its text prints, with this bound on the
/// turns of each execution of a loop and the input that the words spell; or says on `diag` why not. The lines that were
/// printed before a trap, a cut or want of memory stay.
pub fn run_source<S: Source, O: Sink, E: Sink>(
    alloc: Global,
    bound: u64,
    words: &[String],
    source: &mut S,
    out: &mut O,
    diag: &mut E,
) -> Status
    requires { AllNumbers (map string_bytes words.now) }
    ensures read_fault { result ≡ Status.ReadFault → Rose (S.faults source.old) (S.faults source.new) }
    ensures write_fault { result ≡ Status.WriteFault → Rose (O.faults out.old) (O.faults out.new) ⊎ Rose (E.faults diag.old) (E.faults diag.new) }
    ensures no_usage { result ≢ Status.Usage }
    ensures text { (input : List ℤ) → AreNumbers (map string_bytes words.now) input → IfSome (S.left source.old) (FitsText (run bound input) result) }
    ensures read_whole { IsFinished result ⊎ (result ≡ Status.Refused) → TakesAll (S.left source.old) (S.left source.new) }
    ensures written { (input : List ℤ) → AreNumbers (map string_bytes words.now) input → IsFinished result → IfSome (S.left source.old) (GainsOutput (run bound input) (O.held out.old) (O.held out.new)) }
    ensures part { (input : List ℤ) → AreNumbers (map string_bytes words.now) input → (result ≡ Status.WriteFault) ⊎ (result ≡ Status.Memory) → IfSome (S.left source.old) (GainsPart (run bound input) (O.held out.old) (O.held out.new)) }
    ensures kept { (result ≡ Status.Refused) ⊎ (result ≡ Status.ReadFault) ⊎ (result ≡ Status.TooLong) → out.new ≡ out.old }
    ensures told { (input : List ℤ) → AreNumbers (map string_bytes words.now) input → result ≢ Status.WriteFault → IfSome (S.left source.old) (GainsLine (run bound input) result (E.held diag.old) (E.held diag.new)) }
    ensures told_part { (input : List ℤ) → AreNumbers (map string_bytes words.now) input → result ≡ Status.WriteFault → IfSome (S.left source.old) (GainsPartOfLine (run bound input) (E.held diag.old) (E.held diag.new)) }
    ensures source_faults { S.faults source.old ≤ S.faults source.new }
    ensures out_faults { O.faults out.old ≤ O.faults out.new }
    ensures diag_faults { E.faults diag.old ≤ E.faults diag.new }
{
    let checked = match program(alloc, source) {
        Ok(checked) => checked,
        Err(told) => return tell(diag, told),
    };
    match run_on(alloc, &checked, bound, words, out) {
        Ok(RunEnd::Ended) => Status::Done,
        Ok(RunEnd::Trapped(trap)) => tell(diag, Told::Trapped(trap)),
        Ok(RunEnd::Cut) => tell(diag, Told::Cut),
        Err(RunFault::WriteFault) => Status::WriteFault,
        Err(RunFault::Memory) => tell(diag, Told::Memory),
    }
}
