//! Writing a whole piece to a sink.

ghost use Rattle.std.specs.Prelude.{◌≤◌, OnErr, OnOk};
ghost use Rattle.outside_io.specs.Bytes.{Gains, GainsPrefix};
ghost use Rattle.outside_io.specs.Faults.{Rose};

use super::traits::{Put, Sink};

/// A write to the sink failed.
#[derive(Clone, Copy, Debug, PartialEq, Eq)]
pub struct WriteFault;

/// Writes the whole piece. A fault comes only where the sink had one in this call, and leaves a
/// first part of the piece written. It takes no memory.
pub fn write_all<K: Sink>(sink: &mut K, piece: &[u8]) -> Result<(), WriteFault>
    ensures whole { OnOk result (Gains (K.held sink.old) (K.held sink.new) piece.now) }
    ensures part { OnErr result (GainsPrefix (K.held sink.old) (K.held sink.new) piece.now) }
    ensures failed { OnErr result (Rose (K.faults sink.old) (K.faults sink.new)) }
    ensures faults { K.faults sink.old ≤ K.faults sink.new }
{
    let mut rest = piece;
    while !rest.is_empty() {
        match sink.write(rest) {
            Put::Took(count) => rest = &rest[count..],
            Put::Failed => return Err(WriteFault),
        }
    }
    Ok(())
}
