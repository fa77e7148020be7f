//! Printed lines.

ghost use Rattle.std.specs.Prelude.{◌≤◌, OnOk, OnErr};
ghost use Rattle.outside_io.specs.Bytes.{Gains, GainsPrefix};
ghost use Rattle.outside_io.specs.Faults.{Rose};
ghost use Rattle.c_meaning.specs.Running.{line_text};

use itoa::Buffer;
use outside_io::traits::Sink;
use outside_io::writing::{WriteFault, write_all};

/// Writes a line: the decimal text of the number, and LF. A fault comes only where the sink had one in this call, and
/// leaves a first part of the line written.
pub fn write_line<K: Sink>(out: &mut K, number: i64) -> Result<(), WriteFault>
    ensures whole { OnOk result (Gains (K.held out.old) (K.held out.new) (line_text number)) }
    ensures part { OnErr result (GainsPrefix (K.held out.old) (K.held out.new) (line_text number)) }
    ensures failed { OnErr result (Rose (K.faults out.old) (K.faults out.new)) }
    ensures faults { K.faults out.old ≤ K.faults out.new }
{
    let mut buffer = Buffer::new();
    match write_all(out, buffer.format(number).as_bytes()) {
        Ok(()) => match write_all(out, b"\n") {
            Ok(()) => Ok(()),
            Err(fault) => Err(fault),
        },
        Err(fault) => Err(fault),
    }
}
