//! How a page is called, and where it is written.

/// The title of a page, and its path.
#[derive(Clone, Copy)]
pub struct Called<'a> {
    /// What the page is called, beside the volume's name.
    pub title: Option<&'a str>,
    /// Where it is written, as the command repeats it that makes it anew.
    pub out: &'a str,
}
