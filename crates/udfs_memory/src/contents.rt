//! The bytes of a file in memory: a piece is written, and it is given a size.

ghost use Rattle.std.specs.Prelude.{◌≡◌, IfOk, drop};
ghost use Rattle.udfs_calls.specs.Files.{resized, written};

use std::alloc::Global;
use std::io::{Error, ErrorKind};

/// The bytes from a position on.
pub(crate) fn rest(bytes: &[u8], at: u64) -> &[u8]
    ensures { result.now ≡ drop at bytes.now }
{
    if at < bytes.len() as u64 {
        &bytes[at as usize..]
    } else {
        &[]
    }
}

/// The bytes of a file that is given this size: cut, or with zeros behind.
pub(crate) fn with_size(alloc: Global, bytes: &[u8], size: u64) -> Result<Vec<u8>, Error>
    ensures { IfOk result (λ after. after.items ≡ resized size bytes.now) }
{
    let mut after = Vec::from_slice(alloc, bytes)?;
    after.resize(size as usize, 0)?;
    Ok(after)
}

/// The bytes of a file after a piece was written at a position; where that is beyond the end, zeros are between.
pub(crate) fn with_piece(
    alloc: Global,
    bytes: &[u8],
    at: u64,
    piece: &[u8],
) -> Result<Vec<u8>, Error>
    ensures { IfOk result (λ after. after.items ≡ written at piece.now bytes.now) }
{
    let Some(end) = at.checked_add(piece.len() as u64) else {
        return Err(Error::from(ErrorKind::FileTooLarge));
    };
    let mut after = with_size(alloc, bytes, at)?;
    after.extend_from_slice(piece)?;
    after.extend_from_slice(rest(bytes, end))?;
    Ok(after)
}
