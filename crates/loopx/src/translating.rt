//! The command that translates.

ghost use Rattle.std.specs.Prelude.{◌≡◌, ◌≢◌, ◌⊎◌, ◌≤◌, length, IfSome, IfOk, IfErr, OnOk};
ghost use Rattle.outside_io.specs.Bytes.{TakesAll};
ghost use Rattle.outside_io.specs.Faults.{Rose};
ghost use Rattle.translator.specs.Answers.{IsAccepted, IsTranslation};
ghost use Rattle.loopx.specs.Answer.{greatest_length, FitsText, GainsOutput, GainsPart, GainsLine, GainsPartOfLine};
ghost use Rattle.loopx.specs.Told.{told_status, FitsTold, IsOfSource};
ghost use Rattle.loopx.specs.Words.{translate};
ghost use Rattle.loopx.specs.declared.status.Status.{Status};

use crate::reading::{Text, read};
use crate::status::Status;
use crate::told::{Told, refused, tell, unread};
use outside_io::{Sink, Source, write_all};
use std::alloc::Global;
use translator::translate::translate_cut;

/// The translation of the text that the source has left, or what is told in its place.
fn translated<S: Source>(alloc: Global, source: &mut S) -> Result<Vec<u8>, Told>
    ensures written { IfOk result (λ written. IfSome (S.left source.old) (λ text.
        (length text ≤ greatest_length) × IsAccepted text × IsTranslation text written.items)) }
    ensures told { IfErr result (λ told. IfSome (S.left source.old) (FitsTold told)) }
    ensures of_source { IfErr result IsOfSource }
    ensures read_fault { IfErr result (λ told. told_status told ≡ Status.ReadFault → Rose (S.faults source.old) (S.faults source.new)) }
    ensures whole { OnOk result (TakesAll (S.left source.old) (S.left source.new)) }
    ensures refused_whole { IfErr result (λ told. told_status told ≡ Status.Refused → TakesAll (S.left source.old) (S.left source.new)) }
    ensures faults { S.faults source.old ≤ S.faults source.new }
{
    let Text { cut, positions } = match read(alloc, source) {
        Ok(text) => text,
        Err(end) => return Err(unread(end)),
    };
    match translate_cut(alloc, cut) {
        Ok(written) => Ok(written),
        Err(refusal) => Err(refused(alloc, &positions, refusal)),
    }
}

/// Reads the source whole, and writes the translation of its text to `out`, or says on `diag` why not.
pub fn translate_source<S: Source, O: Sink, E: Sink>(
    alloc: Global,
    source: &mut S,
    out: &mut O,
    diag: &mut E,
) -> Status
    ensures read_fault { result ≡ Status.ReadFault → Rose (S.faults source.old) (S.faults source.new) }
    ensures write_fault { result ≡ Status.WriteFault → Rose (O.faults out.old) (O.faults out.new) ⊎ Rose (E.faults diag.old) (E.faults diag.new) }
    ensures no_usage { result ≢ Status.Usage }
    ensures no_run { (result ≢ Status.Trapped) × (result ≢ Status.Cut) }
    ensures text { IfSome (S.left source.old) (FitsText translate result) }
    ensures read_whole { (result ≡ Status.Done) ⊎ (result ≡ Status.Refused) → TakesAll (S.left source.old) (S.left source.new) }
    ensures written { result ≡ Status.Done → IfSome (S.left source.old) (GainsOutput translate (O.held out.old) (O.held out.new)) }
    ensures part { result ≡ Status.WriteFault → IfSome (S.left source.old) (GainsPart translate (O.held out.old) (O.held out.new)) }
    ensures kept { result ≢ Status.Done → result ≢ Status.WriteFault → out.new ≡ out.old }
    ensures told { result ≢ Status.WriteFault → IfSome (S.left source.old) (GainsLine translate result (E.held diag.old) (E.held diag.new)) }
    ensures told_part { result ≡ Status.WriteFault → IfSome (S.left source.old) (GainsPartOfLine translate (E.held diag.old) (E.held diag.new)) }
    ensures source_faults { S.faults source.old ≤ S.faults source.new }
    ensures out_faults { O.faults out.old ≤ O.faults out.new }
    ensures diag_faults { E.faults diag.old ≤ E.faults diag.new }
{
    match translated(alloc, source) {
        Ok(written) => match write_all(out, written.as_slice()) {
            Ok(()) => Status::Done,
            Err(_) => Status::WriteFault,
        },
        Err(told) => tell(diag, told),
    }
}
