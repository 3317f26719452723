//! What calls do to a disk, as they are told to a history.

/// What a call does, or was to do.
#[derive(Clone, Copy, Drop)]
pub(crate) enum Deed<'a> {
    /// A new file is at a path.
    Created(&'a str),
    /// What is at a path is written in place.
    Opened(&'a str),
    /// The new file of this number has these bytes, and they are on the disk.
    Synced(u64, &'a [u8]),
    /// The file of the first path is at the second.
    Renamed(&'a str, &'a str),
    /// The path names nothing.
    Removed(&'a str),
    /// A new folder is at a path.
    FolderMade(&'a str),
    /// The names in the folder of this path are on the disk.
    FolderSynced(&'a str),
}

/// What came of it.
#[derive(Clone, Copy, Drop)]
pub(crate) enum Outcome<'a> {
    /// It was done.
    Done(Deed<'a>),
    /// The call failed.
    Failed(Deed<'a>),
}
