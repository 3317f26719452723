//! The inputs that an index looks into.

ghost use Rattle.std.specs.Prelude.{◌≡◌, ◌<◌, ℕ, List, Some, map, length, ◌/◌, ◌%◌, ◌^◌, OnOk, OnErr, IfErr};
ghost use Rattle.udfs_index.specs.Copying.{NoneFails};
ghost use Rattle.udfs_index.specs.Index.{IsFrontAt, contents_of};
ghost use Rattle.udfs_index.specs.Places.{AreHeld};

use crate::fault::Unread;
use crate::stored::{Stored, fill};

/// How many bytes an input has at most, so that a place of 64 bits names it and a byte of it.
pub const BYTES: u64 = 17_592_186_044_416;

/// Fills the buffer with the bytes from `place` on.
///
/// # Errors
///
/// `Unread` where the input could not be read, or ends before the buffer is full.
pub fn read_from<S: Stored>(inputs: &[&S], place: u64, buf: &mut [u8]) -> Result<(), Unread>
    ensures read { OnOk result (IsFrontAt (contents_of S.content inputs.now) place buf.new) }
    ensures input { IfErr result (λ unread. unread.input ≡ place / 2 ^ 44) }
    ensures at { IfErr result (λ unread. unread.at ≡ place % 2 ^ 44) }
    // It is read where the bytes of all inputs are known, this one has enough of them, some are asked for, and no input of its kind fails.
    ensures reads { (wholes : List (List ℕ)) → contents_of S.content inputs.now ≡ map Some wholes → NoneFails S.fails → 0 < length buf.old → AreHeld wholes place (length buf.old) → OnErr result ⊥ }
{
    let input = (place / BYTES) as usize;
    let at = place % BYTES;
    let Some(stored) = inputs.get(input) else {
        return Err(Unread { input, at });
    };
    match fill(*stored, at, buf) {
        Ok(true) => Ok(()),
        Ok(false) => Err(Unread { input, at }),
        Err(_) => Err(Unread { input, at }),
    }
}
