//! Writing whole pieces, over writes that fail and rooms that end.

use super::super::memory_sinks::{CleanSink, MemSink};
use super::super::writing::{WriteFault, write_all};
use std::test::Fail;

#[test]
fn fails_exactly_at_the_numbers_given(rt: HostRuntime) -> Result<(), Fail> {
    // Writes of 5, 5 and 2 bytes.
    for (number, whole, held) in [
        (1, Err(WriteFault), ""),
        (2, Err(WriteFault), "01234"),
        (3, Err(WriteFault), "0123456789"),
        (4, Ok(()), "0123456789ab"),
    ] {
        let fails = [number].to_vec(rt.alloc())?;
        let mut sink = MemSink::new(rt.alloc(), 100, 5, fails)?;
        assert_eq!(rt; write_all(&mut sink, b"0123456789ab"), whole, "at {number}");
        assert_eq!(rt; sink.bytes(), held.as_bytes(), "at {number}");
    }
    Ok(())
}

#[test]
fn a_write_past_the_room_is_a_fault(rt: HostRuntime) -> Result<(), Fail> {
    for (room, whole, held) in [
        (12, Ok(()), "0123456789ab"),
        (11, Err(WriteFault), "0123456789"),
        (4, Err(WriteFault), ""),
        (0, Err(WriteFault), ""),
    ] {
        let mut sink = MemSink::new(rt.alloc(), room, 5, Vec::new(rt.alloc()))?;
        assert_eq!(rt;
            write_all(&mut sink, b"0123456789ab"),
            whole,
            "with room {room}"
        );
        assert_eq!(rt; sink.bytes(), held.as_bytes(), "with room {room}");
        assert_eq!(rt; write_all(&mut sink, b""), Ok(()), "with room {room}");
    }
    Ok(())
}

#[test]
fn a_clean_sink_keeps_the_first_bytes(rt: HostRuntime) -> Result<(), Fail> {
    for (room, kept) in [
        (12, "0123456789ab"),
        (11, "0123456789a"),
        (7, "0123456"),
        (0, ""),
    ] {
        let mut sink = CleanSink::new(rt.alloc(), room, 5)?;
        assert_eq!(rt;
            write_all(&mut sink, b"0123456789ab"),
            Ok(()),
            "with room {room}"
        );
        assert_eq!(rt; sink.bytes(), kept.as_bytes(), "with room {room}");
    }
    Ok(())
}
