// Reading to the end, and writing the whole of a text.
ghost use Rattle.std.specs.Prelude.{◌≡◌, ℕ, ◌<◌, ◌≤◌, List, length, take, IfOk, OnOk, OnErr, IsErrOf};
ghost use Rattle.std.specs.Io.KnownBytes.{Appends};
ghost use Rattle.io_edge.specs.Faults.{Rose, HasCause};
ghost use Rattle.io_edge.specs.Reads.{Gave, GaveSome};

use crate::{Failed, Sink, Source};
use std::alloc::Global;
use thiserror::Error;

/// How many bytes are asked for at once.
const CHUNK: usize = 4096;

/// Why a source was not read to its end.
#[derive(Clone, Copy, Debug, PartialEq, Eq, Error)]
pub enum ReadAllError {
    /// The source failed, and counted it.
    #[error("the source failed")]
    Failed,
    /// The source gave more bytes than the limit.
    #[error("more bytes than the limit")]
    TooLong,
    /// Memory ran out.
    #[error("out of memory")]
    Memory,
}

/// Reads all the bytes that are left, at most `limit` of them.
///
/// After `Ok` the source was read to its end. After a refusal what it has left is what it had without
/// the bytes that it gave in this call.
pub fn read_all<S: Source>(
    alloc: Global,
    source: &mut S,
    limit: usize,
) -> Result<Vec<u8>, ReadAllError>
    // All bytes that were left, and no more than the limit.
    ensures all { IfOk result (λ bytes. Gave (S.left source.old) (S.left source.new) limit bytes.items) }
    ensures few { IfOk result (λ bytes. length bytes.items ≤ limit) }
    // A fault comes only where it was counted.
    ensures later { S.faults source.old ≤ S.faults source.new }
    ensures kept { OnOk result (S.faults source.new ≡ S.faults source.old) }
    ensures failed { IsErrOf result ReadAllError.Failed → Rose (S.faults source.old) (S.faults source.new) }
    ensures memory_kept { IsErrOf result ReadAllError.Memory → S.faults source.new ≡ S.faults source.old }
    ensures too_long_kept { IsErrOf result ReadAllError.TooLong → S.faults source.new ≡ S.faults source.old }
    // More bytes than the limit were given, or else not more.
    ensures too_long { IsErrOf result ReadAllError.TooLong →
        (bytes : List ℕ) × Gave (S.left source.old) (S.left source.new) limit bytes × (limit < length bytes) }
    ensures failed_at { IsErrOf result ReadAllError.Failed → GaveSome (S.left source.old) (S.left source.new) limit }
    ensures memory_at { IsErrOf result ReadAllError.Memory → GaveSome (S.left source.old) (S.left source.new) limit }
{
    let mut bytes = Vec::new(alloc);
    let mut buf = [0u8; CHUNK];
    loop {
        let count = match source.read(&mut buf) {
            Ok(count) => count,
            Err(_) => return Err(ReadAllError::Failed),
        };
        if count == 0 {
            return Ok(bytes);
        }
        if count > limit - bytes.len() {
            return Err(ReadAllError::TooLong);
        }
        if bytes.extend_from_slice(&buf[..count]).is_err() {
            return Err(ReadAllError::Memory);
        }
    }
}

/// Writes the whole text. After an `Err` a part of it from its beginning was written. Takes no memory.
pub fn write_all_counted<K: Sink>(sink: &mut K, text: &[u8]) -> Result<(), Failed>
    ensures ok { OnOk result (Appends (K.written sink.old) (K.written sink.new) text.now) }
    ensures err { OnErr result ((n : ℕ) × (n ≤ length text.now) × Appends (K.written sink.old) (K.written sink.new) (take n text.now)) }
    ensures cause { HasCause (K.faults sink.old) (K.faults sink.new) result }
    ensures kept { OnOk result (K.faults sink.new ≡ K.faults sink.old) }
{
    let mut done = 0;
    while done < text.len() {
        done += sink.write(&text[done..])?;
    }
    Ok(())
}
