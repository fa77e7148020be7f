//! The adapters over std's readers and writers in memory.

use super::super::reading::{ReadEnd, read_all};
use super::super::std_streams::{StdSink, StdSource};
use super::super::writing::{WriteFault, write_all};
use std::io;
use std::io::{ErrorKind, Read, Write};
use std::test::Fail;

/// A reader and writer whose every call is an error.
#[derive(Drop)]
struct Broken;

impl Read for Broken {
    fn read(&mut self, _buf: &mut [u8]) -> io::Result<usize> {
        Err(io::Error::from(ErrorKind::BrokenPipe))
    }
}

impl Write for Broken {
    fn write(&mut self, _buf: &[u8]) -> io::Result<usize> {
        Err(io::Error::from(ErrorKind::BrokenPipe))
    }

    fn flush(&mut self) -> io::Result<()> {
        Ok(())
    }
}

#[test]
fn reads_a_reader(rt: HostRuntime) -> Result<(), Fail> {
    let mut source = StdSource::new(b"0123456789".as_slice());
    assert_eq!(rt;
        read_all(rt.alloc(), &mut source, 4).err(),
        Some(ReadEnd::TooLong)
    );
    assert_eq!(rt;
        read_all(rt.alloc(), &mut source, 5)?.as_slice(),
        b"56789".as_slice()
    );

    let mut source = StdSource::new(Broken);
    assert_eq!(rt;
        read_all(rt.alloc(), &mut source, 4).err(),
        Some(ReadEnd::ReadFault)
    );
    Ok(())
}

#[test]
fn writes_a_writer(rt: HostRuntime) -> Result<(), Fail> {
    let mut written = Vec::new(rt.alloc());
    let mut sink = StdSink::new(&mut written);
    assert_eq!(rt; write_all(&mut sink, b"01234"), Ok(()));
    assert_eq!(rt; write_all(&mut sink, b"56789"), Ok(()));
    assert_eq!(rt; written.as_slice(), b"0123456789".as_slice());

    // A writer that is full takes no byte.
    let mut room = [0u8; 3];
    let mut sink = StdSink::new(room.as_mut_slice());
    assert_eq!(rt; write_all(&mut sink, b"0123"), Err(WriteFault));
    assert_eq!(rt; room, *b"012");

    assert_eq!(rt; write_all(&mut StdSink::new(Broken), b"0"), Err(WriteFault));
    Ok(())
}
