//! File characteristics.

ghost use Rattle.std.specs.Prelude.{⊤, ◌≡◌, ◌∷◌, [], codes, ◌%◌};

use bitflags::{Flag, Flags, bitflag_items};

/// The characteristics of a file identifier (ECMA-167 4/14.4.3), of which five are known: the others are
/// left out.
#[derive(Clone, Copy, PartialEq, Eq, Debug)]
pub struct Marks(u8);

bitflag_items! {
    impl Marks: u8 {
        /// The file need not be made known to the user.
        const HIDDEN = 1;
        /// The file is a directory.
        const DIRECTORY = 2;
        /// The file was deleted.
        const DELETED = 4;
        /// The entry of the directory that holds this one.
        const PARENT = 8;
        /// The file holds what streams need (UDF 2.3.4.2).
        const METADATA = 16;
    }
}

impl Flags for Marks {
    type Bits = u8;

    ghost exact = { ⊤ };

    ghost table = { (codes "HIDDEN", 1) ∷ (codes "DIRECTORY", 2) ∷ (codes "DELETED", 4) ∷ (codes "PARENT", 8) ∷ (codes "METADATA", 16) ∷ [] };

    ghost set_of = { λ marks. marks.0 };

    fn flags<'a>() -> &'a [Flag<Marks>] {
        Marks::FLAGS
    }

    fn bits(&self) -> u8 {
        self.0
    }

    fn from_bits_retain(bits: u8) -> Marks {
        Marks(bits)
    }
}

impl Marks {
    /// The known ones among these.
    pub(crate) fn read(byte: u8) -> Marks
        ensures { result.0 ≡ byte % 32 }
    {
        Marks(byte % 32)
    }
}
