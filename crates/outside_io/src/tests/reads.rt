//! Reading to the end, up to limits, and over reads that fail.

ghost use Rattle.std.specs.Prelude.{◌≡◌, None, vec_len};

use super::super::memory_sources::{CleanSource, MemSource};
use super::super::reading::{ReadEnd, read_all, read_pieces};
use super::super::traits::{Got, Source, Taker};
use std::alloc::{AllocError, Global};
use std::test::Fail;

#[test]
fn fails_exactly_at_the_numbers_given(rt: HostRuntime) -> Result<(), Fail> {
    // Reads of 3, 3, 3 and 1 bytes, and one that tells the end.
    for (number, rest) in [
        (1, "0123456789"),
        (2, "3456789"),
        (3, "6789"),
        (4, "9"),
        (5, ""),
    ] {
        let text = b"0123456789".to_vec(rt.alloc())?;
        let fails = [number].to_vec(rt.alloc())?;
        let mut source = MemSource::new(text, 3, fails);
        assert_eq!(rt;
            read_all(rt.alloc(), &mut source, 10),
            Err(ReadEnd::ReadFault),
            "at {number}"
        );
        let rest_read = read_all(rt.alloc(), &mut source, 10)?;
        assert_eq!(rt; rest_read.as_slice(), rest.as_bytes(), "after {number}");
    }
    Ok(())
}

#[test]
fn reads_up_to_the_limit(rt: HostRuntime) -> Result<(), Fail> {
    for (text, limit, whole, rest) in [
        ("", 0, true, ""),
        ("0123456789", 0, false, "123456789"),
        ("0123456789", 5, false, "6789"),
        ("0123456789", 9, false, ""),
        ("0123456789", 10, true, ""),
        ("0123456789", 11, true, ""),
    ] {
        let bytes = text.as_bytes().to_vec(rt.alloc())?;
        let mut source = CleanSource::new(bytes, 4);
        match read_all(rt.alloc(), &mut source, limit) {
            Ok(read) => {
                assert!(rt; whole, "at {limit}");
                assert_eq!(rt; read.as_slice(), text.as_bytes(), "at {limit}");
            }
            Err(end) => {
                assert!(rt; !whole, "at {limit}");
                assert_eq!(rt; end, ReadEnd::TooLong, "at {limit}");
            }
        }
        let rest_read = read_all(rt.alloc(), &mut source, 10)?;
        assert_eq!(rt; rest_read.as_slice(), rest.as_bytes(), "after {limit}");
    }
    Ok(())
}

/// A taker that keeps its text and the lengths of its pieces, and takes `most` of them.
#[derive(Drop)]
struct Pieces {
    bytes: Vec<u8>,
    lengths: Vec<usize>,
    most: usize,
}

impl Taker for Pieces {
    ghost count = { λ pieces. vec_len pieces.bytes };

    ghost stands_for = { λ pieces text. pieces.bytes.items ≡ text };

    fn take(&mut self, piece: &[u8]) -> Result<(), AllocError> {
        if self.lengths.len() >= self.most {
            return Err(AllocError);
        }
        self.lengths.push(piece.len())?;
        self.bytes.extend_from_slice(piece)
    }
}

/// Some bytes, as many as are asked for.
fn long_text(alloc: Global, len: usize) -> Result<Vec<u8>, AllocError> {
    vec![in alloc; 7u8; len]
}

#[test]
fn hands_pieces_on_while_they_fit(rt: HostRuntime) -> Result<(), Fail> {
    let text = long_text(rt.alloc(), 10000)?;
    for (limit, most, end, lengths) in [
        (10000, 9, None, [4096, 4096, 1808].as_slice()),
        (9999, 9, Some(ReadEnd::TooLong), [4096, 4096].as_slice()),
        (0, 9, Some(ReadEnd::TooLong), [].as_slice()),
        (10000, 2, Some(ReadEnd::Memory), [4096, 4096].as_slice()),
        (10000, 0, Some(ReadEnd::Memory), [].as_slice()),
    ] {
        let mut source = CleanSource::new(text.clone()?, 5000);
        let mut pieces = Pieces {
            bytes: Vec::new(rt.alloc()),
            lengths: Vec::new(rt.alloc()),
            most,
        };
        let got = read_pieces(&mut source, limit, &mut pieces);
        assert_eq!(rt; got.err(), end, "at {limit} and {most}");
        assert_eq!(rt; pieces.lengths.as_slice(), lengths, "at {limit} and {most}");
        assert!(rt; text.as_slice().starts_with(pieces.bytes.as_slice()));
    }
    Ok(())
}

/// A source that fills each buffer until it has given `left` of them, and then answers that it
/// gave no byte. It counts the bytes that it was asked for, and tells nothing of those to come.
#[derive(Drop)]
struct Buffers {
    left: u64,
    asked: u64,
    longest: u64,
}

impl Source for Buffers {
    ghost left = { λ _. None };

    ghost faults = { λ _. 0 };

    fn read(&mut self, buffer: &mut [u8]) -> Got {
        if self.left == 0 {
            return Got::Gave(0);
        }
        let room = buffer.len() as u64;
        self.left -= 1;
        self.asked = self.asked.saturating_add(room);
        self.longest = self.longest.max(room);
        Got::Gave(buffer.len())
    }
}

#[test]
fn asks_for_no_more_than_it_may(rt: HostRuntime) -> Result<(), Fail> {
    for (limit, buffers, end, asked, longest) in [
        (9000, 100, Some(ReadEnd::TooLong), 9001, 4096),
        (9000, 2, None, 8192, 4096),
        (0, 100, Some(ReadEnd::TooLong), 1, 1),
        (0, 0, None, 0, 0),
    ] {
        let mut source = Buffers {
            left: buffers,
            asked: 0,
            longest: 0,
        };
        let got = read_all(rt.alloc(), &mut source, limit);
        assert_eq!(rt; got.err(), end, "at {limit}");
        assert_eq!(rt;
            (source.asked, source.longest),
            (asked, longest),
            "at {limit}"
        );
    }
    Ok(())
}
