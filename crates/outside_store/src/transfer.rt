// Bytes to and from the system, piece by piece.
ghost use Rattle.std.specs.Prelude.{◌≡◌, ℕ, ◌<◌, ◌≤◌, ◌+◌, take, vec_len, IfOk, IfSome, IsTrue};
ghost use Rattle.std.specs.Io.KnownBytes.{Appends};

use crate::ReadStop;
use std::alloc::Global;
use std::io::{Read, Write};

const PIECE: usize = 4096;

/// The first bytes that a reader gives, at most so many. A read that gives nothing ends the input.
pub(crate) fn read_up_to<F: Read>(
    alloc: Global,
    file: &mut F,
    most: usize,
) -> Result<Vec<u8>, ReadStop>
    ensures within { IfOk result (λ bytes. vec_len bytes ≤ most) }
    ensures first { IfOk result (λ bytes.
        IfSome (F.remaining file.old) (λ given. bytes.items ≡ take most given)) }
{
    let mut bytes = Vec::new(alloc);
    let mut piece = [0u8; PIECE];
    while bytes.len() < most {
        let room = PIECE.min(most - bytes.len());
        let Ok(count) = file.read(&mut piece[..room]) else {
            return Err(ReadStop::Failed);
        };
        if count == 0 {
            break;
        }
        if bytes.extend_from_slice(&piece[..count]).is_err() {
            return Err(ReadStop::Memory);
        }
    }
    Ok(bytes)
}

/// Whether a writer took all the bytes, and no more than a prefix of them where it did not.
///
/// One that takes nothing of a piece that is not empty has failed.
pub(crate) fn write_whole<F: Write>(file: &mut F, bytes: &[u8]) -> bool
    ensures whole { IsTrue result
        → Appends (F.contents file.old) (F.contents file.new) bytes.now }
    ensures cut { ¬ IsTrue result
        → (k : ℕ) × Appends (F.contents file.old) (F.contents file.new) (take k bytes.now) }
{
    let mut rest = bytes;
    while !rest.is_empty() {
        match file.write(rest) {
            Ok(count) if count > 0 => rest = &rest[count..],
            _ => return false,
        }
    }
    true
}
