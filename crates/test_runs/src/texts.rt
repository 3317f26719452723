//! The texts of scripts, and the bytes that they are.

use std::alloc::{AllocError, Global};

/// A name that a script gave to some bytes.
#[derive(Drop)]
pub struct Name {
    /// The text between `«` and `»`.
    pub word: String,
    /// The bytes that replace it.
    pub bytes: Vec<u8>,
}

/// The bytes of a text, in which `\n`, `\r`, `\t`, `\0`, `\\` and `\x61` are escapes, `«3*ab»` is replaced by `ababab`, and `«NAME»` by the bytes
/// with this name. Fails if a name is unknown, a group or an escape is malformed, or memory runs out.
pub fn bytes_of(alloc: Global, names: &[Name], text: &str) -> Result<Vec<u8>, AllocError> {
    let mut bytes = Vec::new(alloc);
    for (place, piece) in text.split('«').enumerate() {
        if place == 0 {
            push_plain(&mut bytes, piece)?;
        } else {
            push_group(alloc, &mut bytes, names, piece)?;
        }
    }
    Ok(bytes)
}

/// The text that these bytes are.
pub fn text_of(alloc: Global, names: &[Name], text: &str) -> Result<String, AllocError> {
    let bytes = bytes_of(alloc, names, text)?;
    match std::str::from_utf8(bytes.as_slice()) {
        Ok(text) => String::from_str(alloc, text),
        Err(_) => Err(AllocError),
    }
}

/// Appends the bytes that replace the group before the `»`, and then the text after it.
fn push_group(
    alloc: Global,
    bytes: &mut Vec<u8>,
    names: &[Name],
    piece: &str,
) -> Result<(), AllocError> {
    let Some((group, rest)) = piece.split_once('»') else {
        return Err(AllocError);
    };
    match group.split_once('*') {
        Some((count, part)) => push_repeated(alloc, bytes, count, part)?,
        None => push_named(bytes, names, group)?,
    }
    push_plain(bytes, rest)
}

/// Adds the part as often as the count says.
fn push_repeated(
    alloc: Global,
    bytes: &mut Vec<u8>,
    count: &str,
    part: &str,
) -> Result<(), AllocError> {
    let mut once = Vec::new(alloc);
    push_plain(&mut once, part)?;
    let count = number_of(count)?;
    if let [byte] = once.as_slice() {
        return push_same(bytes, *byte, count);
    }
    for _ in 0..count {
        bytes.extend_from_slice(once.as_slice())?;
    }
    Ok(())
}

/// Adds `count` bytes that are all `byte`.
fn push_same(bytes: &mut Vec<u8>, byte: u8, count: usize) -> Result<(), AllocError> {
    let many = [byte; 2048];
    for _ in 0..count / 2048 {
        bytes.extend_from_slice(&many)?;
    }
    bytes.extend_from_slice(&many[..count % 2048])
}

/// Adds what was named so.
fn push_named(bytes: &mut Vec<u8>, names: &[Name], word: &str) -> Result<(), AllocError> {
    for name in names {
        if name.word.as_str() == word {
            return bytes.extend_from_slice(name.bytes.as_slice());
        }
    }
    Err(AllocError)
}

/// Adds a text in which there are escapes.
fn push_plain(bytes: &mut Vec<u8>, text: &str) -> Result<(), AllocError> {
    let mut rest = text;
    for _ in 0..text.len() {
        let Some((before, behind)) = rest.split_once('\\') else {
            return bytes.extend_from_slice(rest.as_bytes());
        };
        bytes.extend_from_slice(before.as_bytes())?;
        let (byte, more) = escape(behind)?;
        bytes.push(byte)?;
        rest = more;
    }
    bytes.extend_from_slice(rest.as_bytes())
}

/// The byte of the escape at the beginning of a text, without its `\`, and the text after it.
fn escape(text: &str) -> Result<(u8, &str), AllocError> {
    for (letter, byte) in [("n", 10u8), ("r", 13), ("t", 9), ("0", 0), ("\\", 92)] {
        if let Some(rest) = text.strip_prefix(letter) {
            return Ok((byte, rest));
        }
    }
    let (Some("x"), Some(digits), Some(rest)) = (text.get(..1), text.get(1..3), text.get(3..))
    else {
        return Err(AllocError);
    };
    Ok((byte_of(digits)?, rest))
}

/// The byte of two hexadecimal digits.
pub fn byte_of(digits: &str) -> Result<u8, AllocError> {
    match u8::from_str_radix(digits, 16) {
        Ok(byte) => Ok(byte),
        Err(_) => Err(AllocError),
    }
}

/// The number of these digits.
pub fn number_of(digits: &str) -> Result<usize, AllocError> {
    match digits.parse::<usize>() {
        Ok(number) => Ok(number),
        Err(_) => Err(AllocError),
    }
}

/// The number of these digits, in 32 bits.
pub fn block_of(digits: &str) -> Result<u32, AllocError> {
    match digits.parse::<u32>() {
        Ok(number) => Ok(number),
        Err(_) => Err(AllocError),
    }
}

/// The number of these digits, in 16 bits.
pub fn short_of(digits: &str) -> Result<u16, AllocError> {
    match digits.parse::<u16>() {
        Ok(number) => Ok(number),
        Err(_) => Err(AllocError),
    }
}

/// The numbers of a list, in which single spaces part them.
pub fn blocks_of(alloc: Global, list: &str) -> Result<Vec<u32>, AllocError> {
    let mut blocks = Vec::new(alloc);
    for digits in list.split(' ').filter(|digits| !digits.is_empty()) {
        blocks.push(block_of(digits)?)?;
    }
    Ok(blocks)
}

/// The text before the first space, and the rest after it.
pub fn first_word(text: &str) -> (&str, &str) {
    match text.split_once(' ') {
        Some((word, rest)) => (word, rest),
        None => (text, ""),
    }
}
