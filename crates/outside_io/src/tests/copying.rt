//! A caller that knows its source and its sink by their contracts alone, as the program does.

ghost use Rattle.std.specs.Prelude.{◌≡◌, ◌≢◌, ◌^◌, ◌<◌, ◌≤◌, IfSome, length};
ghost use Rattle.outside_io.specs.Bytes.{Gains, GainsPrefix, TakesAll};
ghost use Rattle.outside_io.specs.Faults.{Rose};

use super::super::memory_sinks::{CleanSink, MemSink};
use super::super::memory_sources::{CleanSource, MemSource};
use super::super::reading::{ReadEnd, read_all};
use super::super::traits::{Sink, Source};
use super::super::writing::write_all;
use std::alloc::Global;
use std::test::Fail;

#[derive(Clone, Copy, Debug, PartialEq, Eq)]
enum Copied {
    Whole,
    ReadFault,
    TooLong,
    WriteFault,
    Memory,
}

/// Copies a source that has at most `limit` bytes to a sink.
fn copy<S: Source, K: Sink>(alloc: Global, source: &mut S, limit: u64, sink: &mut K) -> Copied
    requires { limit ≤ 2 ^ 32 }

    ensures copied { result ≡ Copied.Whole
        → IfSome (S.left source.old) (Gains (K.held sink.old) (K.held sink.new)) }
    ensures taken { result ≡ Copied.Whole → TakesAll (S.left source.old) (S.left source.new) }
    ensures fits { result ≡ Copied.Whole
        → IfSome (S.left source.old) (λ text. length text ≤ limit) }

    ensures read_fault { result ≡ Copied.ReadFault
        → Rose (S.faults source.old) (S.faults source.new) }
    ensures too_long { result ≡ Copied.TooLong
        → IfSome (S.left source.old) (λ text. limit < length text) }
    ensures write_fault { result ≡ Copied.WriteFault
        → Rose (K.faults sink.old) (K.faults sink.new) }

    ensures part { result ≡ Copied.WriteFault
        → IfSome (S.left source.old) (GainsPrefix (K.held sink.old) (K.held sink.new)) }
    ensures untouched { result ≢ Copied.Whole → result ≢ Copied.WriteFault
        → K.held sink.new ≡ K.held sink.old }
{
    let bytes = match read_all(alloc, source, limit) {
        Ok(bytes) => bytes,
        Err(ReadEnd::ReadFault) => return Copied::ReadFault,
        Err(ReadEnd::TooLong) => return Copied::TooLong,
        Err(ReadEnd::Memory) => return Copied::Memory,
    };
    match write_all(sink, bytes.as_slice()) {
        Ok(()) => Copied::Whole,
        Err(_) => Copied::WriteFault,
    }
}

/// Over a source and a sink that never fail there is no fault.
fn copy_clean(alloc: Global, source: &mut CleanSource, sink: &mut CleanSink) -> Copied
    ensures no_read_fault { result ≢ Copied.ReadFault }
    ensures no_write_fault { result ≢ Copied.WriteFault }
    ensures long { result ≡ Copied.TooLong → 100 < length source.old.left }
{
    copy(alloc, source, 100, sink)
}

#[test]
fn copies_a_source_to_a_sink(rt: HostRuntime) -> Result<(), Fail> {
    let text = b"0123456789";
    let mut source = CleanSource::new(text.to_vec(rt.alloc())?, 3);
    let mut sink = CleanSink::new(rt.alloc(), 10, 4)?;
    assert_eq!(rt;
        copy_clean(rt.alloc(), &mut source, &mut sink),
        Copied::Whole
    );
    assert_eq!(rt; sink.bytes(), text.as_slice());

    let mut source = MemSource::new(text.to_vec(rt.alloc())?, 3, Vec::new(rt.alloc()));
    let mut sink = MemSink::new(rt.alloc(), 10, 4, Vec::new(rt.alloc()))?;
    assert_eq!(rt; copy(rt.alloc(), &mut source, 10, &mut sink), Copied::Whole);
    assert_eq!(rt; sink.bytes(), text.as_slice());
    Ok(())
}
