//! Reading a source whole.

ghost use Rattle.std.specs.Prelude.{◌≡◌, ◌+◌, ◌≤◌, ℕ, List, Some, IfOk, IfErr, length};
ghost use Rattle.ee_io.specs.ReadWhole.{ReadsWhole, TakesAtMost};

use crate::source::Source;
use std::alloc::Global;
use thiserror::Error;

/// Why a source was not read whole.
#[derive(Clone, Copy, Debug, PartialEq, Eq, Error)]
pub enum ReadFault {
    /// The source has more bytes than the caller takes.
    #[error("too many bytes")]
    TooLong,
    /// A read failed, or was interrupted.
    #[error("the reader failed")]
    ReadFailed,
    /// Memory was refused.
    #[error("out of memory")]
    NoMemory,
}

/// Reads all bytes that the reader has left, if they are at most `most`. Stops at the first failed read,
/// without a second try; an interrupted read is a failed one. Takes `most + 1` bytes from a longer source,
/// and never more.
pub fn read_whole<R: Source>(
    alloc: Global,
    reader: &mut R,
    most: usize,
) -> Result<Vec<u8>, ReadFault>
    ensures whole { (source : List ℕ) → R.remaining reader.old ≡ Some source → ReadsWhole (λ v. v.items) most source result }
    ensures taken { (source : List ℕ) → R.remaining reader.old ≡ Some source → TakesAtMost (most + 1) source (R.remaining reader.new) }
    ensures few { IfOk result (λ v. length v.items ≤ most) }
    ensures failed { IfErr result (λ fault. fault ≡ ReadFault.ReadFailed → R.may_have_failed reader.new) }
{
    let mut bytes = Vec::new(alloc);
    let mut chunk = [0u8; 4096];
    while bytes.len() <= most {
        let room = chunk.len().min((most - bytes.len()).saturating_add(1));
        let Ok(count) = reader.read_once(&mut chunk[..room]) else {
            return Err(ReadFault::ReadFailed);
        };
        if count == 0 {
            return Ok(bytes);
        }
        if bytes.extend_from_slice(&chunk[..count]).is_err() {
            return Err(ReadFault::NoMemory);
        }
    }
    Err(ReadFault::TooLong)
}
