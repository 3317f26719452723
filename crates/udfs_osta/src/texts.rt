//! Text that may be appended only in part, since memory may run out whenever it grows.

ghost use Rattle.std.specs.Prelude.{◌≡◌, ◌++◌, OnOk, OnErr};
ghost use Rattle.std.specs.String.{string_bytes};
ghost use Rattle.std.specs.Str.{IsAscii};
ghost use Rattle.udfs_osta.specs.Texts.{AppendsPart};

use std::alloc::AllocError;

/// Memory ran out. This is std's [`AllocError`] under the name that these crates use.
pub type OutOfMemory = AllocError;

/// Appends ASCII bytes.
pub(crate) fn push_ascii(text: &mut String, bytes: &[u8]) -> Result<(), OutOfMemory>
    requires { IsAscii bytes.now }
    ensures ok { OnOk result (string_bytes text.new ≡ string_bytes text.old ++ bytes.now) }
    ensures err { OnErr result (AppendsPart (string_bytes text.old) (string_bytes text.new) bytes.now) }
{
    let ascii = str::from_utf8(bytes).unwrap();
    text.push_str(ascii)
}
