//! Where the inputs of a command are.

/// Where an input is.
#[derive(Clone, Copy)]
pub enum InputPath<'a> {
    /// A reading or a table file.
    File(&'a str),
    /// An image, and its mapfile.
    Pair(&'a str, &'a str),
}
