//! One piece of outgoing bytes for one file after another.

ghost use Rattle.std.specs.Prelude.{◌≡◌, [], IfOk};

use std::alloc::{AllocError, Global};
use std::cell::Cell;
use udfs_reading::Outgoing;

/// A piece of outgoing bytes that holds none.
#[derive(Drop)]
struct Piece {
    out: Box<Outgoing>,
    ghost empty: { out.value ≡ [] },
}

/// A piece of outgoing bytes that holds none, once there is one: it is made for the first file and serves for those after it, since making it takes as long as writing
/// a small file.
#[derive(Drop)]
pub struct Spare {
    piece: Cell<Option<Piece>>,
}

impl Spare {
    /// Without a piece yet.
    pub fn new() -> Spare {
        Spare {
            piece: Cell::new(None),
        }
    }

    /// Takes the piece, or makes one.
    pub fn take(&self, alloc: Global) -> Result<Box<Outgoing>, AllocError>
        ensures { IfOk result (λ out. out.value ≡ []) }
    {
        match self.piece.take() {
            Some(Piece { out }) => Ok(out),
            None => {
                let out = Box::new(alloc, Outgoing::new())?;
                Ok(out)
            }
        }
    }

    /// Keeps a piece for the next file.
    pub fn keep(&self, out: Box<Outgoing>)
        requires { out.value ≡ [] }
    {
        self.piece.set(Some(Piece { out }));
    }
}
