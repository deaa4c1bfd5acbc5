//! Reading a source to its end.
ghost use Rattle.std.specs.Prelude.{◌≡◌, ◌+◌, ◌≤◌, IfOk, OnOk, IsErrOf, vec_len};
ghost use Rattle.tw_io.specs.Devices.{Takes, TakesBetween, TakesExactly, IsAtEnd, CountsRead};

use crate::device::{BUFFER_LEN, ReadError, Source};
use std::alloc::Global;

/// Reads all bytes that `source` has left. At most `limit + 1` bytes are taken off the source.
///
/// - `TooLong`: the source has more than `limit` bytes. `limit + 1` bytes were taken.
/// - `ReadFault`: a read failed, and the source's error counter rose. At most `limit` bytes were
///   taken, and they are lost.
/// - `Memory`: out of memory for the bytes. From 1 to `limit + 1` bytes were taken.
///
/// The error counter is unchanged unless the result is `ReadFault`.
pub fn read_all<S: Source>(alloc: Global, source: &mut S, limit: u64) -> Result<Vec<u8>, ReadError>
    ensures bytes { IfOk result (λ v. Takes (S.left source.old) (S.left source.new) v.items) }
    ensures end { OnOk result (IsAtEnd (S.left source.new)) }
    ensures within_limit { IfOk result (λ v. vec_len v ≤ limit) }
    ensures too_long { IsErrOf result ReadError.TooLong
        → TakesExactly (S.left source.old) (S.left source.new) (limit + 1) }
    ensures fault_within { IsErrOf result ReadError.ReadFault
        → TakesBetween (S.left source.old) (S.left source.new) 0 limit }
    ensures memory_within { IsErrOf result ReadError.Memory
        → TakesBetween (S.left source.old) (S.left source.new) 1 (limit + 1) }
    ensures takes { TakesBetween (S.left source.old) (S.left source.new) 0 (limit + 1) }
    ensures steady { CountsRead result (S.faults source.old) (S.faults source.new) }
{
    let limit = limit as usize;
    let mut bytes = Vec::new(alloc);
    let mut buf = [0; BUFFER_LEN];
    while bytes.len() <= limit {
        let room = (limit - bytes.len()).min(BUFFER_LEN - 1) + 1;
        let Ok(taken) = source.read(&mut buf[..room]) else {
            return Err(ReadError::ReadFault);
        };
        if taken == 0 {
            return Ok(bytes);
        }
        if bytes.extend_from_slice(&buf[..taken]).is_err() {
            return Err(ReadError::Memory);
        }
    }
    Err(ReadError::TooLong)
}
