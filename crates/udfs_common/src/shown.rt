//! What a person is shown of a path, and of what the system said.

use std::fmt;
use std::io::Error;

/// A path as a person is shown it: what could forge a line or turn the direction of text is escaped.
#[derive(Clone, Copy)]
pub struct Shown<'a>(pub &'a str);

/// Whether a character could forge a line or turn the direction of text.
fn is_unsafe(c: char) -> bool {
    matches!(
        c,
        '\0'..='\u{1f}'
            | '\u{7f}'..='\u{9f}'
            | '\u{61c}'
            | '\u{200e}'
            | '\u{200f}'
            | '\u{2028}'..='\u{202e}'
            | '\u{2066}'..='\u{2069}'
    )
}

impl<'a> fmt::Display for Shown<'a> {
    fn fmt<W: fmt::Write>(&self, f: &mut fmt::Formatter<W>) -> fmt::Result {
        for c in self.0.chars() {
            if is_unsafe(c) {
                write!(f, "\\u{:04X}", c as u32)?;
            } else {
                write!(f, "{c}")?;
            }
        }
        Ok(())
    }
}

/// What the system said, where it said something.
#[derive(Clone, Copy)]
pub struct Said(pub Option<Error>);

impl fmt::Display for Said {
    fn fmt<W: fmt::Write>(&self, f: &mut fmt::Formatter<W>) -> fmt::Result {
        match self.0 {
            Some(error) => write!(f, "{error}"),
            None => f.write_str("the system does not say why"),
        }
    }
}
