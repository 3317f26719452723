//! Laws of stored inputs, as contracts of functions that do nothing.

ghost use Rattle.udfs_index.specs.Copying.{AreAllTold, NoneFails};

use crate::bytes::StoredBytes;
use crate::stored::Stored;

/// The content of bytes in memory is known, and no call on them fails: what [`Index`](crate::Index) says of writing table
/// files holds for them without a condition on the inputs.
pub fn bytes_in_memory_are_told<'a>()
    ensures told { AreAllTold ⟦<StoredBytes<'a> as Stored>⟧.content }
    ensures fails { NoneFails ⟦<StoredBytes<'a> as Stored>⟧.fails }
{}
