// The loop that reads the whole of a source.
ghost use Rattle.std.specs.Prelude.{◌≡◌, ◌≤◌, ◌<◌, ◌+◌, ◌++◌, ℕ, List, length, IfOk, OnOk, IsErrOf};
ghost use Rattle.rowtext.specs.Bytes.{Takes, IsAtEnd};
ghost use Rattle.rowtext.specs.FaultCounts.{HasRisen};
ghost use Rattle.rowtext.specs.declared.read.ReadFault.TheVariants.{Memory};

use crate::{Source, SourceFailed};
use std::alloc::{AllocError, Global};

/// The most bytes that an input may have.
pub const MAX_BYTES: usize = 67_108_864;

/// How many bytes a call asks for at most.
const PIECE: usize = 65_536;

/// Why the whole of a source was not read.
#[derive(Debug, Drop)]
pub enum ReadFault {
    /// The source failed.
    Failed,
    /// The source has more than `MAX_BYTES` bytes.
    Long,
    /// There was no memory for the bytes.
    Memory,
}

impl From<AllocError> for ReadFault {
    ghost from_gives = { λ _ e. e ≡ Memory };

    fn from(_: AllocError) -> ReadFault {
        ReadFault::Memory
    }
}

/// A buffer of zeros.
fn buffer(alloc: Global, size: usize) -> Result<Vec<u8>, AllocError>
    ensures { IfOk result (λ v. length v.items ≡ size) }
{
    vec![in alloc; 0u8; size]
}

/// Appends the next bytes, and gives their number: none at the end.
fn read_piece<S: Source>(
    source: &mut S,
    piece: &mut [u8],
    bytes: &mut Vec<u8>,
) -> Result<usize, ReadFault>
    requires { 0 < length piece.old }
    ensures count { IfOk result (λ n. length bytes.new.items ≡ length bytes.old.items + n) }
    ensures most { IfOk result (λ n. n ≤ length piece.old) }
    ensures taken { IfOk result (λ n. (front : List ℕ)
        × Takes (S.left source.old) front (S.left source.new) × (bytes.new.items ≡ bytes.old.items ++ front)) }
    ensures end { IfOk result (λ n. n ≡ 0 → IsAtEnd (S.left source.new)) }
    ensures failed { IsErrOf result ReadFault.Failed → HasRisen (S.faults source.old) (S.faults source.new) }
    ensures kept { IsErrOf result ReadFault.Failed → S.left source.new ≡ S.left source.old }
    ensures long { IsErrOf result ReadFault.Long → ⊥ }
    ensures no_lower { S.faults source.old ≤ S.faults source.new }
{
    match source.read(piece) {
        Ok(count) => {
            bytes.extend_from_slice(&piece[..count])?;
            Ok(count)
        }
        Err(SourceFailed) => Err(ReadFault::Failed),
    }
}

/// All the bytes that the source has left, or why they could not be had.
///
/// A call of the source asks for at most 65,536 bytes, and at most one byte above `MAX_BYTES` is ever taken.
/// After an error the bytes that were taken are lost.
pub fn read_whole<S: Source>(alloc: Global, source: &mut S) -> Result<Vec<u8>, ReadFault>
    ensures whole { IfOk result (λ v. Takes (S.left source.old) v.items (S.left source.new)) }
    ensures end { OnOk result (IsAtEnd (S.left source.new)) }
    ensures fits { IfOk result (λ v. length v.items ≤ MAX_BYTES) }
    ensures failed { IsErrOf result ReadFault.Failed → HasRisen (S.faults source.old) (S.faults source.new) }
    ensures few { IsErrOf result ReadFault.Failed → (taken : List ℕ)
        × Takes (S.left source.old) taken (S.left source.new) × (length taken ≤ MAX_BYTES) }
    ensures long { IsErrOf result ReadFault.Long → (taken : List ℕ)
        × Takes (S.left source.old) taken (S.left source.new) × (length taken ≡ MAX_BYTES + 1) }
    ensures no_lower { S.faults source.old ≤ S.faults source.new }
{
    let mut piece = buffer(alloc, PIECE)?;
    let mut bytes = Vec::new(alloc);
    loop {
        let room = PIECE.min(MAX_BYTES + 1 - bytes.len());
        let count = read_piece(source, &mut piece[..room], &mut bytes)?;
        if count == 0 {
            return Ok(bytes);
        }
        if bytes.len() > MAX_BYTES {
            return Err(ReadFault::Long);
        }
    }
}
