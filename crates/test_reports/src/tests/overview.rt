//! What a person is shown of a volume. The values are worked out by hand.

mod figures;
mod list;
mod pages;
mod safe_names;
mod spares;
mod stores;
mod summary;
