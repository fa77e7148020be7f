//! Reading a source to its end, up to a limit: piece by piece, or whole.

ghost use Rattle.std.specs.Prelude.{◌≡◌, ℕ, ◌+◌, ◌^◌, ◌<◌, ◌≤◌, List, length, take, vec_len, IfErr, IfOk, IfSome, IsErrOf, MatchResult, OnErr, OnOk};
ghost use Rattle.std.specs.Io.KnownBytes.{Consumes, IsAtEnd, Keeps};
ghost use Rattle.outside_io.specs.Bytes.{IsPrefix, LosesFirst, TakesAll};
ghost use Rattle.outside_io.specs.Faults.{Rose};
ghost use Rattle.outside_io.specs.Taker.{IsHanded};
ghost use Rattle.outside_io.specs.declared.reading.ReadEnd.TheVariants.{Memory};

use super::traits::{Got, Source, Taker};
use std::alloc::{AllocError, Global};

/// Why a source was not read to its end.
#[derive(Clone, Copy, Debug, PartialEq, Eq)]
pub enum ReadEnd {
    /// A read failed.
    ReadFault,
    /// The source gave more bytes than the limit.
    TooLong,
    /// Memory was wanting.
    Memory,
}

impl From<AllocError> for ReadEnd {
    ghost from_gives = { λ _ end. end ≡ Memory };

    fn from(_: AllocError) -> ReadEnd {
        ReadEnd::Memory
    }
}

/// The most bytes that are read at a time.
const PIECE: usize = 4096;

/// Reads the source to its end and hands what it gives to the taker, in pieces.
///
/// It reads at most 4096 bytes at a time and `limit + 1` in all, and hands a piece on only while
/// the total is at most the limit. After a refusal the taker has what was handed on before it.
pub fn read_pieces<S: Source, T: Taker>(
    source: &mut S,
    limit: u64,
    taker: &mut T,
) -> Result<(), ReadEnd>
    requires limit { limit ≤ 2 ^ 32 }
    requires fresh { T.count taker.old ≡ 0 }

    // The taker has all that was left, or after a refusal a first part of it.
    ensures handed { (bytes : List ℕ)
        × IsHanded limit (T.stands_for taker.old) (T.stands_for taker.new) (T.count taker.new) bytes
        × MatchResult result (λ _. IfSome (S.left source.old) (λ text. bytes ≡ text))
        (λ _. IfSome (S.left source.old) (IsPrefix bytes)) }
    ensures end { OnOk result (TakesAll (S.left source.old) (S.left source.new)) }

    // The causes of a refusal, but for want of memory.
    ensures read_fault { IsErrOf result ReadEnd.ReadFault
        → Rose (S.faults source.old) (S.faults source.new) }
    ensures too_long { IsErrOf result ReadEnd.TooLong
        → IfSome (S.left source.old) (λ text. limit < length text) }

    // What was read is gone from the source.
    ensures one_more { IsErrOf result ReadEnd.TooLong
        → LosesFirst (S.left source.old) (S.left source.new) (limit + 1) }
    ensures at_most { (n : ℕ) × (n ≤ limit + 1)
        × LosesFirst (S.left source.old) (S.left source.new) n }
    ensures faults { S.faults source.old ≤ S.faults source.new }
{
    let mut buffer = [0u8; PIECE];
    let mut total = 0u64;
    loop {
        let room = (limit - total + 1).min(PIECE as u64) as usize;
        let count = read_piece(source, &mut buffer[..room])?;
        if count == 0 {
            return Ok(());
        }
        total += count as u64;
        if total > limit {
            return Err(ReadEnd::TooLong);
        }
        taker.take(&buffer[..count])?;
    }
}

/// Reads the source to its end. The limits, the causes of a refusal and what is then gone from
/// the source are those of [`read_pieces`].
pub fn read_all<S: Source>(alloc: Global, source: &mut S, limit: u64) -> Result<Vec<u8>, ReadEnd>
    requires { limit ≤ 2 ^ 32 }

    // All that was left, to its end.
    ensures whole { IfOk result (λ bytes. IfSome (S.left source.old) (λ text. bytes.items ≡ text)) }
    ensures end { OnOk result (TakesAll (S.left source.old) (S.left source.new)) }
    ensures within { IfOk result (λ bytes. vec_len bytes ≤ limit) }

    // The causes of a refusal, but for want of memory.
    ensures read_fault { IsErrOf result ReadEnd.ReadFault
        → Rose (S.faults source.old) (S.faults source.new) }
    ensures too_long { IsErrOf result ReadEnd.TooLong
        → IfSome (S.left source.old) (λ text. limit < length text) }

    // What was read is gone from the source.
    ensures one_more { IsErrOf result ReadEnd.TooLong
        → LosesFirst (S.left source.old) (S.left source.new) (limit + 1) }
    ensures at_most { (n : ℕ) × (n ≤ limit + 1)
        × LosesFirst (S.left source.old) (S.left source.new) n }
    ensures faults { S.faults source.old ≤ S.faults source.new }
{
    let mut bytes = Vec::new(alloc);
    read_pieces(source, limit, &mut bytes)?;
    Ok(bytes)
}

/// A vector takes a text by holding its bytes.
impl Taker for Vec<u8> {
    ghost count = { vec_len };

    ghost stands_for = { λ bytes text. bytes.items ≡ text };

    fn take(&mut self, piece: &[u8]) -> Result<(), AllocError> {
        self.extend_from_slice(piece)
    }
}

/// Reads once, and answers how many bytes the front of the buffer got. None tells the end.
fn read_piece<S: Source>(source: &mut S, buffer: &mut [u8]) -> Result<usize, ReadEnd>
    requires { 0 < length buffer.old }
    ensures fits { IfOk result (λ count. count ≤ length buffer.new) }
    ensures bytes { IfOk result
        (λ count. Consumes (S.left source.old) (S.left source.new) (take count buffer.new)) }
    ensures end { IfOk result (λ count. count ≡ 0 → IsAtEnd (S.left source.new)) }
    ensures failed { OnErr result (Rose (S.faults source.old) (S.faults source.new)) }
    ensures kept { OnErr result (Keeps (S.left source.old) (S.left source.new)) }
    ensures error { IfErr result (λ e. e ≡ ReadEnd.ReadFault) }
    ensures faults { S.faults source.old ≤ S.faults source.new }
{
    match source.read(buffer) {
        Got::Gave(count) => Ok(count),
        Got::End => Ok(0),
        Got::Failed => Err(ReadEnd::ReadFault),
    }
}
