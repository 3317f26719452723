//! The files that a command reaches.

pub use udfs_host_fs::Files;
