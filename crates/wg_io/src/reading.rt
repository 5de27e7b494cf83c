ghost use Rattle.std.specs.Prelude.{◌≡◌, ◌≤◌, ◌<◌, ◌+◌, length, IfOk, OnOk, OnErr, IsErrOf, vec_len, []};
ghost use Rattle.std.specs.Io.KnownBytes.{Consumes};
ghost use Rattle.wg_io.specs.Causes.{Rose};
ghost use Rattle.wg_io.specs.declared.reading.ReadError.TheVariants.{NoMemory, Fault};
ghost use Rattle.wg_io.specs.Reading.{GaveAll, GaveMore, GaveWithin, ReadsOn};

use crate::{Failed, Source};
use std::alloc::{AllocError, Global};

/// Why a source was not read to its end.
#[derive(Clone, Copy, PartialEq, Eq, Debug)]
pub enum ReadError {
    /// There was no memory for more bytes.
    NoMemory,
    /// A read failed.
    Fault,
    /// The source gave a byte over the limit.
    TooLarge,
}

impl From<AllocError> for ReadError {
    ghost from_gives = { λ _ error. error ≡ NoMemory };

    fn from(_error: AllocError) -> ReadError {
        ReadError::NoMemory
    }
}

impl From<Failed> for ReadError {
    ghost from_gives = { λ _ error. error ≡ Fault };

    fn from(_error: Failed) -> ReadError {
        ReadError::Fault
    }
}

/// Reads all that the source has, of which it may give at most `limit` bytes. Each turn asks for at
/// most 4,096 bytes, and for none past the first byte over the limit.
#[tactic(auto, using(crate::proofs::ReadingLemmas::consumes_none, crate::proofs::ReadingLemmas::taken_on, crate::proofs::ReadingLemmas::all_taken))]
pub fn read_all<R: Source>(
    alloc: Global,
    source: &mut R,
    limit: usize,
) -> Result<Vec<u8>, ReadError>
    ensures all { IfOk result (λ bytes. GaveAll (R.left source.old) (R.left source.new) limit bytes.items) }
    ensures more { IsErrOf result ReadError.TooLarge → GaveMore (R.left source.old) (R.left source.new) limit }
    ensures fault { IsErrOf result ReadError.Fault → Rose (R.faults source.old) (R.faults source.new) }
    ensures fault_within { IsErrOf result ReadError.Fault → GaveWithin (R.left source.old) (R.left source.new) limit }
    ensures memory_within { IsErrOf result ReadError.NoMemory → GaveWithin (R.left source.old) (R.left source.new) limit }
    ensures later { R.faults source.old ≤ R.faults source.new }
{
    let mut bytes = Vec::new(alloc);
    let mut piece = [0; 4096];
    while bytes.len() <= limit {
        if read_some(source, &mut bytes, &mut piece, limit)? {
            return Ok(bytes);
        }
    }
    Err(ReadError::TooLarge)
}

// Reads once, at most one byte past the limit, and says whether that was the end.
fn read_some<R: Source>(
    source: &mut R,
    bytes: &mut Vec<u8>,
    piece: &mut [u8],
    limit: usize,
) -> Result<bool, ReadError>
    requires within { vec_len bytes.old ≤ limit }
    requires some { 0 < length piece.old }
    ensures read { IfOk result (λ end. ReadsOn (R.left source.old) (R.left source.new) bytes.old.items bytes.new.items end) }
    ensures over { OnOk result (vec_len bytes.new ≤ limit + 1) }
    ensures in_limit { IsErrOf result ReadError.TooLarge → ⊥ }
    ensures fault { IsErrOf result ReadError.Fault → Rose (R.faults source.old) (R.faults source.new) }
    ensures none { OnErr result (Consumes (R.left source.old) (R.left source.new) []) }
    ensures later { R.faults source.old ≤ R.faults source.new }
{
    let room = (limit - bytes.len()).min(piece.len() - 1) + 1;
    bytes.reserve(room)?;
    let count = source.read(&mut piece[..room])?;
    bytes.extend_from_slice(&piece[..count]).unwrap();
    Ok(count == 0)
}
