//! The names that the directories of scripts have, as they are recorded (UDF 2.1.1).

use crate::texts::block_of;
use std::alloc::{AllocError, Global};
use udfs_samples::NamedEntry;

/// 127 times U+4E00, which has 3 bytes.
pub const LONG: &[u8] =
    b"\x10N\0N\0N\0N\0N\0N\0N\0N\0N\0N\0N\0N\0N\0N\0N\0N\0N\0N\0N\0N\0N\0N\0N\0N\0N\0N\0N\0N\0N\0N\0N\0N\0N\0N\0N\0N\0N\0N\0N\0N\0N\0N\0N\0N\0N\0N\0N\0N\0N\0N\0N\0N\0N\0N\0N\0N\0N\0N\0N\0N\0N\0N\0N\0N\0N\0N\0N\0N\0N\0N\0N\0N\0N\0N\0N\0N\0N\0N\0N\0N\0N\0N\0N\0N\0N\0N\0N\0N\0N\0N\0N\0N\0N\0N\0N\0N\0N\0N\0N\0N\0N\0N\0N\0N\0N\0N\0N\0N\0N\0N\0N\0N\0N\0N\0N\0N\0N\0N\0N\0N\0N\0N\0N\0N\0N\0N\0N\0";

/// 84 times U+4E00, and `~3`.
const TAKEN: &[u8] =
    b"\x10N\0N\0N\0N\0N\0N\0N\0N\0N\0N\0N\0N\0N\0N\0N\0N\0N\0N\0N\0N\0N\0N\0N\0N\0N\0N\0N\0N\0N\0N\0N\0N\0N\0N\0N\0N\0N\0N\0N\0N\0N\0N\0N\0N\0N\0N\0N\0N\0N\0N\0N\0N\0N\0N\0N\0N\0N\0N\0N\0N\0N\0N\0N\0N\0N\0N\0N\0N\0N\0N\0N\0N\0N\0N\0N\0N\0N\0N\0N\0N\0N\0N\0N\0N\0\0~\03";

/// 83 times U+4E00, and 22 times U+1F600, which has 4 bytes and is a pair.
const PAIRS: &[u8] =
    b"\x10N\0N\0N\0N\0N\0N\0N\0N\0N\0N\0N\0N\0N\0N\0N\0N\0N\0N\0N\0N\0N\0N\0N\0N\0N\0N\0N\0N\0N\0N\0N\0N\0N\0N\0N\0N\0N\0N\0N\0N\0N\0N\0N\0N\0N\0N\0N\0N\0N\0N\0N\0N\0N\0N\0N\0N\0N\0N\0N\0N\0N\0N\0N\0N\0N\0N\0N\0N\0N\0N\0N\0N\0N\0N\0N\0N\0N\0N\0N\0N\0N\0N\0N\0\xd8=\xde\0\xd8=\xde\0\xd8=\xde\0\xd8=\xde\0\xd8=\xde\0\xd8=\xde\0\xd8=\xde\0\xd8=\xde\0\xd8=\xde\0\xd8=\xde\0\xd8=\xde\0\xd8=\xde\0\xd8=\xde\0\xd8=\xde\0\xd8=\xde\0\xd8=\xde\0\xd8=\xde\0\xd8=\xde\0\xd8=\xde\0\xd8=\xde\0\xd8=\xde\0\xd8=\xde\0";

/// 253 times `a`, and U+00E9, which has 2 bytes: 255.
const FULL: &[u8] =
    b"\x08aaaaaaaaaaaaaaaaaaaaaaaaaaaaaaaaaaaaaaaaaaaaaaaaaaaaaaaaaaaaaaaaaaaaaaaaaaaaaaaaaaaaaaaaaaaaaaaaaaaaaaaaaaaaaaaaaaaaaaaaaaaaaaaaaaaaaaaaaaaaaaaaaaaaaaaaaaaaaaaaaaaaaaaaaaaaaaaaaaaaaaaaaaaaaaaaaaaaaaaaaaaaaaaaaaaaaaaaaaaaaaaaaaaaaaaaaaaaaaaaaaaaaaaaaaaaa\xe9";

/// 252 times `a`, and twice U+00E9: 256.
const OVER: &[u8] =
    b"\x08aaaaaaaaaaaaaaaaaaaaaaaaaaaaaaaaaaaaaaaaaaaaaaaaaaaaaaaaaaaaaaaaaaaaaaaaaaaaaaaaaaaaaaaaaaaaaaaaaaaaaaaaaaaaaaaaaaaaaaaaaaaaaaaaaaaaaaaaaaaaaaaaaaaaaaaaaaaaaaaaaaaaaaaaaaaaaaaaaaaaaaaaaaaaaaaaaaaaaaaaaaaaaaaaaaaaaaaaaaaaaaaaaaaaaaaaaaaaaaaaaaaaaaaaaaaa\xe9\xe9";

/// 43 controls, of which each is escaped in 6 bytes: 258.
const CONTROLS: &[u8] =
    b"\x08\x01\x01\x01\x01\x01\x01\x01\x01\x01\x01\x01\x01\x01\x01\x01\x01\x01\x01\x01\x01\x01\x01\x01\x01\x01\x01\x01\x01\x01\x01\x01\x01\x01\x01\x01\x01\x01\x01\x01\x01\x01\x01\x01";

/// 70 letters.
const LETTERS: &[u8] =
    b"\x08abcdefghijklmnopqrstuvwxyzabcdefghijklmnopqrstuvwxyzabcdefghijklmnopqr";

/// Each name, after the key by which lists select it.
static NAMES: [(&str, &[u8]); 50] = [
    ("A", b"\x08A"),
    ("B", b"\x08B"),
    ("C", b"\x08C"),
    ("D", b"\x08D"),
    ("DX", b"\x08DX"),
    ("E", b"\x08E"),
    ("F", b"\x08F"),
    ("X", b"\x08X"),
    ("dot", b"\x08."),
    ("dots", b"\x08.."),
    ("up", b"\x08../y"),
    ("root", b"\x08/etc/x"),
    ("spaced", b"\x08a b"),
    ("long", LONG),
    ("taken", TAKEN),
    ("pairs", PAIRS),
    ("full", FULL),
    ("over", OVER),
    ("controls", CONTROLS),
    ("a", b"\x08a"),
    ("b", b"\x08b"),
    ("c", b"\x08c"),
    ("d", b"\x08d"),
    ("e", b"\x08e"),
    ("f", b"\x08f"),
    ("g", b"\x08g"),
    ("h", b"\x08h"),
    ("i", b"\x08i"),
    ("j", b"\x08j"),
    ("k", b"\x08k"),
    ("l", b"\x08l"),
    ("m", b"\x08m"),
    ("n", b"\x08n"),
    ("o", b"\x08o"),
    ("p", b"\x08p"),
    ("q", b"\x08q"),
    ("r", b"\x08r"),
    ("s", b"\x08s"),
    ("t", b"\x08t"),
    ("u", b"\x08u"),
    ("v", b"\x08v"),
    ("w", b"\x08w"),
    ("x", b"\x08x"),
    ("y", b"\x08y"),
    ("z", b"\x08z"),
    ("japan", b"\x10\x65\xe5\x67\x2c"),
    ("turned", b"\x10\x20\x2e\x00a"),
    ("quoted", b"\x08a\"\x09b"),
    ("html", b"\x10\0<\0b\0>\0&\0\"\0'\x20\x2e"),
    ("letters", LETTERS),
];

/// The names of a list, each as `WORD=BLOCK` with the logical block of its entry.
pub fn names_of(alloc: Global, list: &str) -> Result<Vec<NamedEntry>, AllocError> {
    let mut names = Vec::new(alloc);
    for item in list.split(' ').filter(|item| !item.is_empty()) {
        let Some((word, block)) = item.split_once('=') else {
            return Err(AllocError);
        };
        names.push((name_of(word)?, block_of(block)?))?;
    }
    Ok(names)
}

/// The name with this key. Fails if the key is unknown.
fn name_of(word: &str) -> Result<&'static [u8], AllocError> {
    for (known, name) in &NAMES {
        if *known == word {
            return Ok(name);
        }
    }
    Err(AllocError)
}
