//! Whether a line is the comment of a list of blocks to read again.

ghost use Rattle.std.specs.Prelude.{◌≡◌, ℕ, List, [], ◌∷◌, ◌++◌, OnOk, take};
ghost use Rattle.udfs_rescue.specs.Lines.{is_mark};

use std::alloc::{AllocError, Global};

/// That comment.
const MARK: &[u8] = b"# Blocks to read again, for ddrescue -m: not the mapfile of a pass";

/// The same with a CR at its end.
const MARK_RETURNED: &[u8] =
    b"# Blocks to read again, for ddrescue -m: not the mapfile of a pass\r";

/// Whether a line is that comment.
fn is_mark(line: &[u8]) -> bool
    ensures { result ≡ is_mark line.now }
{
    line == MARK || line == MARK_RETURNED
}

/// The first 68 bytes of a line, one more than the comment has with its CR.
#[derive(Drop)]
pub struct LineFront {
    kept: Vec<u8>,
}

impl LineFront {
    /// Before the first byte of a line.
    pub fn new(alloc: Global) -> LineFront
        ensures { result.kept.items ≡ [] }
    {
        LineFront {
            kept: Vec::new(alloc),
        }
    }

    /// Takes one more byte of the line.
    pub fn take(&mut self, byte: u8) -> Result<(), AllocError>
        ensures { OnOk result ((line : List ℕ) → self.old.kept.items ≡ take 68 line → self.new.kept.items ≡ take 68 (line ++ byte ∷ [])) }
    {
        if self.kept.len() < 68 {
            self.kept.push(byte)?;
        }
        Ok(())
    }

    /// Whether the line is the comment.
    pub fn is_mark(&self) -> bool
        ensures { result ≡ is_mark self.now.kept.items }
    {
        is_mark(&self.kept)
    }

    /// Begins the next line.
    pub fn clear(&mut self)
        ensures { self.new.kept.items ≡ [] }
    {
        self.kept.clear();
    }
}
